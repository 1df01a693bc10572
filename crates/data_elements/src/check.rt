// Whether the children of an element are in form.
ghost use Rattle.std.specs.Prelude.{◌≡◌, ◌==◌, ◌||◌, [], ◌∷◌, filter, None, if◌then◌else◌};
ghost use Rattle.stream_objects.specs.Objects.{is_kind};
ghost use Rattle.doc_model.specs.readers.ElementSites.{has_place, members_in};
ghost use Rattle.data_elements.specs.Checking.{check_at, check_members, child_fault};
ghost use Rattle.data_elements.specs.Answers.{Passes};

use crate::fault::{ElementFault, fault};
use crate::members::member_ok;
use crate::rows::child_ok;
use compact_values::NoMemory;
use std::alloc::Global;
use stream_objects::{Tree, object_types};

/// Whether objects of its type have a place in an element of this kind.
fn has_place(kind: u64, tree: &Tree) -> bool
    ensures { result ≡ has_place kind tree.now }
{
    match kind {
        1 => tree.kind == object_types::STORAGE_INDEX_MANIFEST_MAPPING
            || tree.kind == object_types::STORAGE_INDEX_CELL_MAPPING
            || tree.kind == object_types::STORAGE_INDEX_REVISION_MAPPING,
        2 => tree.kind == object_types::STORAGE_MANIFEST_SCHEMA_GUID
            || tree.kind == object_types::STORAGE_MANIFEST_ROOT_DECLARE,
        3 => tree.kind == object_types::CELL_MANIFEST_CURRENT_REVISION,
        4 => tree.kind == object_types::REVISION_MANIFEST
            || tree.kind == object_types::REVISION_MANIFEST_ROOT_DECLARE
            || tree.kind == object_types::REVISION_MANIFEST_OBJECT_GROUP_REFERENCES,
        5 => tree.kind == object_types::OBJECT_GROUP_DECLARATIONS
            || tree.kind == object_types::OBJECT_GROUP_DATA,
        _ => tree.kind == object_types::OBJECT_DATA_BLOB,
    }
}

/// Whether a declaration or data are in form.
fn check_member(alloc: Global, bytes: &[u8], tree: &Tree) -> Result<(), ElementFault>
    ensures { Passes result (check_members bytes.now (tree.now ∷ [])) }
{
    match member_ok(alloc, bytes, tree) {
        Ok(true) => Ok(()),
        Ok(false) => Err(fault(tree)),
        Err(NoMemory) => Err(ElementFault::NoMemory),
    }
}

/// Whether the objects of two types are in form.
fn check_both(
    alloc: Global,
    bytes: &[u8],
    trees: &[Tree],
    first: u16,
    second: u16,
) -> Result<(), ElementFault>
    ensures { Passes result (check_members bytes.now (filter (λ c. is_kind first c || is_kind second c) trees.now)) }
{
    for tree in trees {
        if tree.kind == first || tree.kind == second {
            check_member(alloc, bytes, tree)?;
        }
    }
    Ok(())
}

/// Whether what a half of a group holds is in form.
fn check_half(alloc: Global, bytes: &[u8], tree: &Tree) -> Result<(), ElementFault>
    ensures { Passes result (check_members bytes.now (members_in tree.now)) }
{
    if tree.kind == object_types::OBJECT_GROUP_DECLARATIONS {
        check_both(
            alloc,
            bytes,
            tree.children.as_slice(),
            object_types::OBJECT_GROUP_OBJECT_DECLARE,
            object_types::OBJECT_GROUP_OBJECT_BLOB_DATA_DECLARATION,
        )
    } else if tree.kind == object_types::OBJECT_GROUP_DATA {
        check_both(
            alloc,
            bytes,
            tree.children.as_slice(),
            object_types::OBJECT_GROUP_OBJECT_DATA,
            object_types::OBJECT_GROUP_OBJECT_DATA_BLOB_REFERENCE,
        )
    } else {
        Ok(())
    }
}

/// Whether what a child of an element of this kind holds is in form.
fn check_inside(alloc: Global, bytes: &[u8], kind: u64, tree: &Tree) -> Result<(), ElementFault>
    ensures { Passes result (if kind == 5 then check_members bytes.now (members_in tree.now) else None) }
{
    if kind == 5 {
        check_half(alloc, bytes, tree)
    } else {
        Ok(())
    }
}

/// Whether a child with a place is in form, and in a group what it holds.
#[tactic(auto, unfolding(crate::specs::Checking::child_fault))]
fn check_child(alloc: Global, bytes: &[u8], kind: u64, tree: &Tree) -> Result<(), ElementFault>
    ensures { Passes result (child_fault bytes.now kind tree.now) }
{
    match child_ok(alloc, bytes, tree) {
        Ok(true) => check_inside(alloc, bytes, kind, tree),
        Ok(false) => Err(fault(tree)),
        Err(NoMemory) => Err(ElementFault::NoMemory),
    }
}

/// Whether the children of an element of this kind that have a place are in form, with what they hold. Else the first
/// that isn't in its form, in reading order.
pub fn check(alloc: Global, bytes: &[u8], kind: u64, trees: &[Tree]) -> Result<(), ElementFault>
    ensures { Passes result (check_at bytes.now kind trees.now) }
{
    for tree in trees {
        if has_place(kind, tree) {
            check_child(alloc, bytes, kind, tree)?;
        }
    }
    Ok(())
}
