//! The weight of an element: the length of its written form with a null serial number, computed without writing it.

ghost use Rattle.std.specs.Prelude.{◌≡◌, ◌+◌, ◌*◌, ◌≤◌, ◌^◌, ◌++◌, length};
ghost use Rattle.std.specs.List.{flat_map};
ghost use Rattle.wire_kinds.specs.Row.{row_bytes};
ghost use Rattle.doc_model.specs.wire.ElementRows.{manifest_mapping, cell_mapping, revision_mapping, schema_guid, manifest_root, current_revision, revision_manifest, revision_root, group_reference};
ghost use Rattle.doc_model.specs.wire.WrittenElements.{declaration_bytes, data_bytes, declarations_bytes, datas_bytes, blob_bytes, body_bytes};
ghost use Rattle.doc_model.specs.rules.Limits.{most_objects};
ghost use Rattle.doc_model.specs.rules.Weights.{weight, objects_in, objects_written};

use crate::element::{
    Body, CellMap, Element, ManifestMap, Object, RevisionMap, RevisionRoot, Root,
};
use crate::sizes::{data_size, declaration_size, exguid_size, item_size, started_size};
use compact_values::{ExGuid, Guid};
use stream_objects::object_types;
use wire_kinds::{row_size, size_of_rows};

// The children of a storage index.
fn index_weight(manifests: &[ManifestMap], cells: &[CellMap], revisions: &[RevisionMap]) -> u128
    requires { length manifests.now + length cells.now + length revisions.now ≤ most_objects }
    ensures length { result ≡ length (flat_map (row_bytes manifest_mapping) manifests.now ++ flat_map (row_bytes cell_mapping) cells.now ++ flat_map (row_bytes revision_mapping) revisions.now) }
    ensures few { result ≤ 2 ^ 93 }
{
    let manifests = size_of_rows(object_types::STORAGE_INDEX_MANIFEST_MAPPING, manifests) as u128;
    let cells = size_of_rows(object_types::STORAGE_INDEX_CELL_MAPPING, cells) as u128;
    let revisions = size_of_rows(object_types::STORAGE_INDEX_REVISION_MAPPING, revisions) as u128;
    manifests + cells + revisions
}

// The declaration of an object.
#[tactic(auto, using(crate::proofs::SizeLemmas::length_started), unfolding(crate::specs::wire::WrittenElements::declaration_bytes))]
fn declaration_weight(object: &Object) -> u128
    ensures length { result ≡ length (declaration_bytes object.now) }
    ensures few { result ≤ 2 ^ 73 }
{
    started_size(declaration_size(object) as u128)
}

// The declarations of objects.
fn declarations_weight(declarations: &[Object]) -> u128
    requires { length declarations.now ≤ most_objects }
    ensures length { result ≡ length (flat_map declaration_bytes declarations.now) }
    ensures few { result ≤ 2 ^ 73 * length declarations.now }
{
    let mut size = 0;
    for object in declarations {
        size += declaration_weight(object);
    }
    size
}

// The data of an object.
#[tactic(auto, using(crate::proofs::SizeLemmas::length_started), unfolding(crate::specs::wire::WrittenElements::data_bytes))]
fn data_weight(object: &Object) -> u128
    ensures length { result ≡ length (data_bytes object.now) }
    ensures few { result ≤ 2 ^ 73 }
{
    started_size(data_size(object))
}

// The data of objects.
fn datas_weight(datas: &[Object]) -> u128
    requires { length datas.now ≤ most_objects }
    ensures length { result ≡ length (flat_map data_bytes datas.now) }
    ensures few { result ≤ 2 ^ 73 * length datas.now }
{
    let mut size = 0;
    for object in datas {
        size += data_weight(object);
    }
    size
}

// The two children of a group.
fn group_weight(objects: &[Object]) -> u128
    requires { 2 * length objects.now ≤ most_objects }
    ensures length { result ≡ length (declarations_bytes objects.now ++ datas_bytes objects.now) }
    ensures few { result ≤ 2 ^ 93 }
{
    started_size(0) + declarations_weight(objects) + 1 + started_size(0) + datas_weight(objects) + 1
}

// The children of a storage manifest.
fn storage_weight(schema: &Guid, roots: &[Root]) -> u128
    requires { length roots.now ≤ most_objects }
    ensures length { result ≡ length (row_bytes schema_guid schema.now ++ flat_map (row_bytes manifest_root) roots.now) }
    ensures few { result ≤ 2 ^ 93 }
{
    row_size(object_types::STORAGE_MANIFEST_SCHEMA_GUID, schema) as u128
        + size_of_rows(object_types::STORAGE_MANIFEST_ROOT_DECLARE, roots) as u128
}

// The child of a cell manifest.
fn current_weight(current: &ExGuid) -> u128
    ensures length { result ≡ length (row_bytes current_revision current.now) }
    ensures few { result ≤ 2 ^ 93 }
{
    row_size(object_types::CELL_MANIFEST_CURRENT_REVISION, current) as u128
}

// The children of a revision manifest.
fn revision_weight(ids: &(ExGuid, ExGuid), roots: &[RevisionRoot], groups: &[ExGuid]) -> u128
    requires { length roots.now + length groups.now ≤ most_objects }
    ensures length { result ≡ length (row_bytes revision_manifest ids.now ++ flat_map (row_bytes revision_root) roots.now ++ flat_map (row_bytes group_reference) groups.now) }
    ensures few { result ≤ 2 ^ 93 }
{
    let ids = row_size(object_types::REVISION_MANIFEST, ids) as u128;
    let roots = size_of_rows(object_types::REVISION_MANIFEST_ROOT_DECLARE, roots) as u128;
    let groups = size_of_rows(
        object_types::REVISION_MANIFEST_OBJECT_GROUP_REFERENCES,
        groups,
    ) as u128;
    ids + roots + groups
}

// The child of a blob.
#[tactic(auto, using(crate::proofs::SizeLemmas::length_started), unfolding(crate::specs::wire::WrittenElements::blob_bytes))]
fn blob_weight(bytes: &[u8]) -> u128
    ensures length { result ≡ length (blob_bytes bytes.now) }
    ensures few { result ≤ 2 ^ 93 }
{
    started_size(item_size(bytes))
}

// The children of an element.
#[tactic(auto, unfolding(crate::specs::wire::WrittenElements::body_bytes))]
fn body_weight(body: &Body) -> u128
    requires { objects_in body.now ≤ most_objects }
    ensures length { result ≡ length (body_bytes body.now) }
    ensures few { result ≤ 2 ^ 94 }
{
    match body {
        Body::Index {
            manifests,
            cells,
            revisions,
        } => index_weight(manifests.as_slice(), cells.as_slice(), revisions.as_slice()),
        Body::Storage { schema, roots } => storage_weight(schema, roots.as_slice()),
        Body::Cell { current } => current_weight(current),
        Body::Revision {
            id,
            base,
            roots,
            groups,
        } => revision_weight(&(*id, *base), roots.as_slice(), groups.as_slice()),
        Body::Group { objects } => group_weight(objects.as_slice()),
        Body::Blob { bytes } => blob_weight(bytes.as_slice()),
    }
}

/// The length of the written form of an element with a null serial number (MS-FSSHTTPB 2.2.1.12). It takes no memory. The
/// element is written in at most 262,144 stream objects, its own and those in it, which is what a tree of objects may have.
pub fn weight(element: &Element) -> u128
    requires { objects_written element.now ≤ most_objects }
    ensures { result ≡ weight element.now }
{
    started_size((exguid_size(&element.id) + 2) as u128) + body_weight(&element.body) + 1
}
