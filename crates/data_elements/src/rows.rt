// The fields of the children of elements, one function for each form of fields.
ghost use Rattle.std.specs.Prelude.{◌≡◌, IfOk, is_some, option_map};
ghost use Rattle.wire_kinds.specs.Row.{row_at};
ghost use Rattle.doc_model.specs.readers.ElementSites.{element_row};
ghost use Rattle.data_elements.specs.Rows.{package_row, has_no_fields, blob_row, child_ok};

use compact_values::{
    ExGuid, Guid, NoMemory, Serial, take_byte, take_compact, take_exguid, take_item, take_serial,
};
use doc_model::{CellMap, ManifestMap, RevisionMap, RevisionRoot, Root};
use std::alloc::Global;
use stream_objects::{Tree, compound_fields, object_types, simple_fields};
use wire_kinds::{Decode, read_row};

/// Whether it is a compound object without fields.
pub fn has_no_fields(bytes: &[u8], tree: &Tree) -> bool
    ensures { result ≡ has_no_fields bytes.now tree.now }
{
    match compound_fields(bytes, tree) {
        Some([]) => true,
        _ => false,
    }
}

/// The id, the serial number and the kind of an element.
pub fn element_row(bytes: &[u8], tree: &Tree) -> Option<(ExGuid, (Serial, u64))>
    ensures { result ≡ element_row bytes.now tree.now }
{
    let fields = compound_fields(bytes, tree)?;
    let (id, rest) = take_exguid(fields)?;
    let (serial, rest) = take_serial(rest)?;
    let (kind, rest) = take_compact(rest)?;
    if rest.is_empty() {
        Some((id, (serial, kind)))
    } else {
        None
    }
}

/// The byte that is all the fields of a compound object, as of a package. None where they are something else.
pub fn package_row(bytes: &[u8], tree: &Tree) -> Option<u8>
    ensures { result ≡ package_row bytes.now tree.now }
{
    let fields = compound_fields(bytes, tree)?;
    let (byte, rest) = take_byte(fields)?;
    if rest.is_empty() { Some(byte) } else { None }
}

/// The content of a blob.
#[tactic(auto, unfolding(crate::specs::Rows::blob_row))]
pub fn blob_row<'a>(bytes: &'a [u8], tree: &Tree) -> Option<&'a [u8]>
    ensures { option_map (λ b. b.now) result ≡ blob_row bytes.now tree.now }
{
    let fields = simple_fields(bytes, tree)?;
    let (content, rest) = take_item(fields)?;
    if rest.is_empty() { Some(content) } else { None }
}

fn is_row<R: Decode>(alloc: Global, bytes: &[u8], tree: &Tree) -> Result<bool, NoMemory>
    ensures { IfOk result (λ b. b ≡ is_some (row_at R.takes bytes.now tree.now)) }
{
    let row: Option<R> = read_row(alloc, bytes, tree)?;
    Ok(row.is_some())
}

/// Whether the fields of a child are those of its type.
#[tactic(auto, unfolding(crate::specs::Rows::child_ok))]
pub fn child_ok(alloc: Global, bytes: &[u8], tree: &Tree) -> Result<bool, NoMemory>
    ensures { IfOk result (λ b. b ≡ child_ok bytes.now tree.now) }
{
    match tree.kind {
        object_types::OBJECT_DATA_BLOB => Ok(blob_row(bytes, tree).is_some()),
        object_types::STORAGE_MANIFEST_ROOT_DECLARE => is_row::<Root>(alloc, bytes, tree),
        object_types::REVISION_MANIFEST_ROOT_DECLARE => is_row::<RevisionRoot>(alloc, bytes, tree),
        object_types::CELL_MANIFEST_CURRENT_REVISION => is_row::<ExGuid>(alloc, bytes, tree),
        object_types::STORAGE_MANIFEST_SCHEMA_GUID => is_row::<Guid>(alloc, bytes, tree),
        object_types::STORAGE_INDEX_REVISION_MAPPING => is_row::<RevisionMap>(alloc, bytes, tree),
        object_types::STORAGE_INDEX_CELL_MAPPING => is_row::<CellMap>(alloc, bytes, tree),
        object_types::STORAGE_INDEX_MANIFEST_MAPPING => is_row::<ManifestMap>(alloc, bytes, tree),
        object_types::REVISION_MANIFEST_OBJECT_GROUP_REFERENCES => is_row::<ExGuid>(
            alloc, bytes, tree,
        ),
        object_types::REVISION_MANIFEST => is_row::<(ExGuid, ExGuid)>(alloc, bytes, tree),
        object_types::OBJECT_GROUP_DECLARATIONS => Ok(has_no_fields(bytes, tree)),
        object_types::OBJECT_GROUP_DATA => Ok(has_no_fields(bytes, tree)),
        _ => Ok(true),
    }
}
