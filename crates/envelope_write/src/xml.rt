// XML as it is written: tags, attributes and their values.
ghost use Rattle.std.specs.Prelude.{◌≡◌, ◌++◌, ◌∷◌, [], OnOk, MatchOption};
ghost use Rattle.envelope_write.specs.Xml.{escape, escaped, attribute_text, attributes_text, start_tag, end_tag};
ghost use Rattle.envelope_write.specs.Attributes.{as_pairs};

use compact_values::NoMemory;

/// An attribute: its name, and the UTF-8 of its value.
#[derive(Clone, Copy)]
pub(crate) struct Attribute<'a> {
    pub name: &'a [u8],
    pub value: &'a [u8],
}

/// The reference that stands for a byte in a value, where the byte doesn't stand for itself.
#[tactic(auto, unfolding(crate::specs::Xml::escape))]
fn reference(b: u8) -> Option<&'static [u8]>
    ensures { MatchOption result (escape b ≡ b ∷ []) (λ text. text.now ≡ escape b) }
{
    match b {
        b'&' => Some(b"&amp;"),
        b'<' => Some(b"&lt;"),
        b'>' => Some(b"&gt;"),
        b'"' => Some(b"&quot;"),
        b'\t' => Some(b"&#9;"),
        b'\n' => Some(b"&#10;"),
        b'\r' => Some(b"&#13;"),
        _ => None,
    }
}

/// Adds a value, its bytes between references in runs.
fn append_escaped(out: &mut Vec<u8>, value: &[u8]) -> Result<(), NoMemory>
    ensures { OnOk result (out.new.items ≡ out.old.items ++ escaped value.now) }
{
    let mut from = 0;
    for i in 0..value.len() {
        if let Some(text) = reference(value[i]) {
            out.extend_from_slice(&value[from..i])?;
            out.extend_from_slice(text)?;
            from = i + 1;
        }
    }
    out.extend_from_slice(&value[from..])?;
    Ok(())
}

fn append_attribute(out: &mut Vec<u8>, attribute: &Attribute) -> Result<(), NoMemory>
    ensures { OnOk result (out.new.items ≡ out.old.items ++ attribute_text attribute.now.name.now attribute.now.value.now) }
{
    out.extend_from_slice(b" ")?;
    out.extend_from_slice(attribute.name)?;
    out.extend_from_slice(b"=\"")?;
    append_escaped(out, attribute.value)?;
    out.extend_from_slice(b"\"")?;
    Ok(())
}

#[tactic(auto, unfolding(crate::specs::Xml::attributes_text))]
fn append_attributes(out: &mut Vec<u8>, attributes: &[Attribute]) -> Result<(), NoMemory>
    ensures { OnOk result (out.new.items ≡ out.old.items ++ attributes_text (as_pairs attributes.now)) }
{
    for attribute in attributes {
        append_attribute(out, attribute)?;
    }
    Ok(())
}

/// Adds a start tag up to what ends it, which is `>`, or `/>` where the element has no content.
#[tactic(auto, unfolding(crate::specs::Xml::start_tag))]
pub(crate) fn append_start(
    out: &mut Vec<u8>,
    name: &[u8],
    attributes: &[Attribute],
) -> Result<(), NoMemory>
    ensures { OnOk result (out.new.items ≡ out.old.items ++ start_tag name.now (as_pairs attributes.now)) }
{
    out.extend_from_slice(b"<")?;
    out.extend_from_slice(name)?;
    append_attributes(out, attributes)
}

/// Adds an end tag.
#[tactic(auto, unfolding(crate::specs::Xml::end_tag))]
pub(crate) fn append_end(out: &mut Vec<u8>, name: &[u8]) -> Result<(), NoMemory>
    ensures { OnOk result (out.new.items ≡ out.old.items ++ end_tag name.now) }
{
    out.extend_from_slice(b"</")?;
    out.extend_from_slice(name)?;
    out.extend_from_slice(b">")?;
    Ok(())
}
