//! Objects that were read: the bytes of their fields, and the children of a type.

ghost use Rattle.std.specs.Prelude.{◌≡◌, ◌↔◌, [], IsTrue, length, option_map, filter};
ghost use Rattle.std.specs.Option.{option_copied};
ghost use Rattle.stream_objects.specs.ObjectFields.{simple_fields, compound_fields, single};
ghost use Rattle.stream_objects.specs.Objects.{fields_of, children_of, is_kind};

use crate::tree::Tree;

/// The bytes of an object's fields in the input that it was read from, whether it is compound or not.
pub fn fields_of<'a>(bytes: &'a [u8], tree: &Tree) -> &'a [u8]
    ensures { result.now ≡ fields_of bytes.now tree.now }
{
    let from = tree.fields.from.min(bytes.len());
    let to = tree.fields.to.min(bytes.len()).max(from);
    &bytes[from..to]
}

/// The bytes of a simple object's fields in the input that it was read from. None exactly where the object is compound.
pub fn simple_fields<'a>(bytes: &'a [u8], tree: &Tree) -> Option<&'a [u8]>
    ensures { option_map (λ f. f.now) result ≡ simple_fields bytes.now tree.now }
{
    if tree.compound {
        None
    } else {
        Some(fields_of(bytes, tree))
    }
}

/// The bytes of a compound object's fields in the input that it was read from. None exactly where the object is simple.
pub fn compound_fields<'a>(bytes: &'a [u8], tree: &Tree) -> Option<&'a [u8]>
    ensures { option_map (λ f. f.now) result ≡ compound_fields bytes.now tree.now }
{
    if tree.compound {
        Some(fields_of(bytes, tree))
    } else {
        None
    }
}

// The only one of this type.
fn only_of(trees: &[Tree], kind: u16) -> Option<&Tree>
    ensures { option_copied result ≡ single (filter (is_kind kind) trees.now) }
{
    let mut found: Option<&Tree> = None;
    for child in trees {
        if child.kind == kind {
            match found {
                None => found = Some(child),
                Some(_) => return None,
            }
        }
    }
    found
}

/// The only child of a type. None where there is no such child, or more than one.
pub fn only_child(tree: &Tree, kind: u16) -> Option<&Tree>
    ensures { option_copied result ≡ single (children_of kind tree.now) }
{
    only_of(tree.children.as_slice(), kind)
}

// Whether none is of this type.
fn has_none(trees: &[Tree], kind: u16) -> bool
    ensures { IsTrue result ↔ (filter (is_kind kind) trees.now ≡ []) }
{
    for child in trees {
        if child.kind == kind {
            return false;
        }
    }
    true
}

/// Whether there is no child of a type.
pub fn has_no_child(tree: &Tree, kind: u16) -> bool
    ensures { IsTrue result ↔ (children_of kind tree.now ≡ []) }
{
    has_none(tree.children.as_slice(), kind)
}
