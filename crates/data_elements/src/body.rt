// What an element says, by its kind.
ghost use Rattle.std.specs.Prelude.{◌≡◌};
ghost use Rattle.data_elements.specs.Reading.{index_at, storage_at, cell_at, revision_at, blob_at, body_at};
ghost use Rattle.data_elements.specs.Answers.{Gives};

use crate::check::check;
use crate::collect::{collect, only, own};
use crate::fault::{ElementFault, fault};
use crate::group::read_group;
use crate::rows::blob_row;
use doc_model::Body;
use std::alloc::Global;
use stream_objects::{Tree, object_types, only_child};

#[tactic(auto, unfolding(crate::specs::Reading::index_at))]
fn read_index(alloc: Global, bytes: &[u8], tree: &Tree) -> Result<Body, ElementFault>
    ensures { Gives result (index_at bytes.now tree.now) }
{
    let children = tree.children.as_slice();
    check(alloc, bytes, 1, children)?;
    let manifests = collect(
        alloc,
        bytes,
        children,
        object_types::STORAGE_INDEX_MANIFEST_MAPPING,
    )?;
    let cells = collect(
        alloc,
        bytes,
        children,
        object_types::STORAGE_INDEX_CELL_MAPPING,
    )?;
    let revisions = collect(
        alloc,
        bytes,
        children,
        object_types::STORAGE_INDEX_REVISION_MAPPING,
    )?;
    Ok(Body::Index {
        manifests,
        cells,
        revisions,
    })
}

#[tactic(auto, unfolding(crate::specs::Reading::storage_at))]
fn read_storage(alloc: Global, bytes: &[u8], tree: &Tree) -> Result<Body, ElementFault>
    ensures { Gives result (storage_at bytes.now tree.now) }
{
    if only_child(tree, object_types::STORAGE_MANIFEST_SCHEMA_GUID).is_none() {
        return Err(fault(tree));
    }
    let children = tree.children.as_slice();
    check(alloc, bytes, 2, children)?;
    let schema = only(
        alloc,
        bytes,
        tree,
        object_types::STORAGE_MANIFEST_SCHEMA_GUID,
    )?;
    let roots = collect(
        alloc,
        bytes,
        children,
        object_types::STORAGE_MANIFEST_ROOT_DECLARE,
    )?;
    Ok(Body::Storage { schema, roots })
}

#[tactic(auto, unfolding(crate::specs::Reading::cell_at))]
fn read_cell(alloc: Global, bytes: &[u8], tree: &Tree) -> Result<Body, ElementFault>
    ensures { Gives result (cell_at bytes.now tree.now) }
{
    if only_child(tree, object_types::CELL_MANIFEST_CURRENT_REVISION).is_none() {
        return Err(fault(tree));
    }
    check(alloc, bytes, 3, tree.children.as_slice())?;
    let current = only(
        alloc,
        bytes,
        tree,
        object_types::CELL_MANIFEST_CURRENT_REVISION,
    )?;
    Ok(Body::Cell { current })
}

#[tactic(auto, unfolding(crate::specs::Reading::revision_at))]
fn read_revision(alloc: Global, bytes: &[u8], tree: &Tree) -> Result<Body, ElementFault>
    ensures { Gives result (revision_at bytes.now tree.now) }
{
    if only_child(tree, object_types::REVISION_MANIFEST).is_none() {
        return Err(fault(tree));
    }
    let children = tree.children.as_slice();
    check(alloc, bytes, 4, children)?;
    let (id, base) = only(alloc, bytes, tree, object_types::REVISION_MANIFEST)?;
    let roots = collect(
        alloc,
        bytes,
        children,
        object_types::REVISION_MANIFEST_ROOT_DECLARE,
    )?;
    let groups = collect(
        alloc,
        bytes,
        children,
        object_types::REVISION_MANIFEST_OBJECT_GROUP_REFERENCES,
    )?;
    Ok(Body::Revision {
        id,
        base,
        roots,
        groups,
    })
}

#[tactic(auto, unfolding(crate::specs::Reading::blob_at))]
fn read_blob(alloc: Global, bytes: &[u8], tree: &Tree) -> Result<Body, ElementFault>
    ensures { Gives result (blob_at bytes.now tree.now) }
{
    let Some(child) = only_child(tree, object_types::OBJECT_DATA_BLOB) else {
        return Err(fault(tree));
    };
    check(alloc, bytes, 10, tree.children.as_slice())?;
    match blob_row(bytes, child) {
        Some(content) => {
            let bytes = own(alloc, content)?;
            Ok(Body::Blob { bytes })
        }
        None => Err(fault(tree)),
    }
}

/// What an element of this kind says.
#[tactic(auto, unfolding(crate::specs::Reading::body_at))]
pub fn read_body(alloc: Global, bytes: &[u8], kind: u64, tree: &Tree) -> Result<Body, ElementFault>
    ensures { Gives result (body_at bytes.now kind tree.now) }
{
    match kind {
        1 => read_index(alloc, bytes, tree),
        2 => read_storage(alloc, bytes, tree),
        3 => read_cell(alloc, bytes, tree),
        4 => read_revision(alloc, bytes, tree),
        5 => read_group(alloc, bytes, tree),
        10 => read_blob(alloc, bytes, tree),
        _ => Err(fault(tree)),
    }
}
