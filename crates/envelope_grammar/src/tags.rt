ghost use Rattle.std.specs.Prelude.{◌≡◌, ◌+◌, ◌≤◌, ◌<◌, ◌&&◌, length, take, drop, IfOk, Some, None};
ghost use Rattle.std.specs.Str.{bytes_eq};
ghost use Rattle.envelope_grammar.specs.Answers.{Finds, Gives};
ghost use Rattle.envelope_grammar.specs.Grammar.{begins};
ghost use Rattle.envelope_grammar.specs.Kinds.{name_view, step_or_end};
ghost use Rattle.envelope_grammar.specs.Reading.{attribute_at, all_of, attribute_step, is_tag_end, tag_end_at, tag_at, end_tag_at};

use crate::fault::ReadFault;
use crate::lexical::{Kind, NameParts, name_at, past, past_white, run_len};
use crate::tag::{Attribute, Attributes, Name, Tag};
use crate::value::quoted_at;
use compact_values::{NoMemory, Octets};
use std::alloc::Global;

fn owned(alloc: Global, parts: NameParts) -> Result<Name, NoMemory>
    ensures { IfOk result (λ name. name ≡ name_view parts.entry) }
{
    let prefix = Octets::copied_from(alloc, parts.prefix)?;
    let local = Octets::copied_from(alloc, parts.local)?;
    Ok(Name { prefix, local })
}

#[tactic(auto, unfolding(crate::specs::Reading::attribute_at))]
fn attribute_at(alloc: Global, bytes: &[u8]) -> Result<(Attribute, &[u8]), ReadFault>
    ensures { Gives (λ x. (x.0, x.1.now)) result (attribute_at bytes.now) }
{
    let Some((name, rest)) = name_at(bytes) else {
        return Err(ReadFault::NotInGrammar);
    };
    let Some(behind) = past(b'=', past_white(rest)) else {
        return Err(ReadFault::NotInGrammar);
    };
    let (value, rest) = quoted_at(alloc, past_white(behind))?;
    let name = owned(alloc, name)?;
    Ok((Attribute { name, value }, rest))
}

/// Whether the end of a start tag begins here.
fn is_tag_end(bytes: &[u8]) -> bool
    ensures { result ≡ begins is_tag_end bytes.now }
{
    match bytes {
        [b, ..] => *b == b'>' || *b == b'/',
        [] => false,
    }
}

/// White space and an attribute, or the white space before the end of the tag.
#[tactic(auto, unfolding(crate::specs::Reading::attribute_step))]
fn attribute_step(alloc: Global, bytes: &[u8]) -> Result<(Option<Attribute>, &[u8]), ReadFault>
    ensures { Gives (λ x. (step_or_end x.0, x.1.now)) result (attribute_step bytes.now) }
{
    let behind = past_white(bytes);
    if is_tag_end(behind) {
        return Ok((None, behind));
    }
    if run_len(Kind::White, bytes) == 0 {
        return Err(ReadFault::NotInGrammar);
    }
    let (attribute, rest) = attribute_at(alloc, behind)?;
    Ok((Some(attribute), rest))
}

/// The attributes at the front, and what stands behind them and white space.
fn attributes_at(alloc: Global, bytes: &[u8]) -> Result<(Attributes, &[u8]), ReadFault>
    ensures { Gives (λ x. (x.0, tt, x.1.now)) result (all_of attribute_step bytes.now) }
{
    let mut attributes = Attributes::new(alloc);
    let mut rest = bytes;
    'reading: for _ in 0..bytes.len() {
        let (step, after) = attribute_step(alloc, rest)?;
        let Some(attribute) = step else {
            return Ok((attributes, after));
        };
        attributes.push(attribute)?;
        rest = after;
    }
    Err(ReadFault::NotInGrammar)
}

#[tactic(auto, unfolding(crate::specs::Reading::tag_end_at))]
fn tag_end_at(bytes: &[u8]) -> Option<(bool, &[u8])>
    ensures { Finds (λ x. (x.0, x.1.now)) result (tag_end_at bytes.now) }
{
    match past(b'>', bytes) {
        Some(rest) => Some((false, rest)),
        None => {
            let behind = past(b'/', bytes)?;
            let rest = past(b'>', behind)?;
            Some((true, rest))
        }
    }
}

/// The start tag whose `<` was read.
#[tactic(auto, unfolding(crate::specs::Reading::tag_at))]
pub(crate) fn tag_at(alloc: Global, bytes: &[u8]) -> Result<(Tag, &[u8]), ReadFault>
    ensures { Gives (λ x. (x.0, x.1.now)) result (tag_at bytes.now) }
{
    let Some((name, rest)) = name_at(bytes) else {
        return Err(ReadFault::NotInGrammar);
    };
    let (attributes, rest) = attributes_at(alloc, rest)?;
    let Some((closed, rest)) = tag_end_at(rest) else {
        return Err(ReadFault::NotInGrammar);
    };
    let name = owned(alloc, name)?;
    Ok((
        Tag {
            name,
            attributes,
            closed,
        },
        rest,
    ))
}

/// What stands behind the end tag of this name, whose `</` was read.
#[tactic(auto, unfolding(crate::specs::Reading::end_tag_at))]
pub(crate) fn end_tag_at<'a>(name: &Name, bytes: &'a [u8]) -> Option<&'a [u8]>
    ensures { Finds (λ rest. rest.now) result (end_tag_at name.now bytes.now) }
{
    let (found, rest) = name_at(bytes)?;
    if found.prefix == name.prefix.as_slice() && found.local == name.local.as_slice() {
        past(b'>', past_white(rest))
    } else {
        None
    }
}
