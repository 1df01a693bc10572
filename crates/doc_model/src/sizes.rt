//! How many bytes the values of a written element take, before they are written.

ghost use Rattle.std.specs.Prelude.{◌≡◌, ◌+◌, ◌*◌, ◌≤◌, ◌<◌, ◌^◌, length};
ghost use Rattle.std.specs.List.{flat_map};
ghost use Rattle.compact_values.specs.Compact.{compact};
ghost use Rattle.compact_values.specs.Ids.{exguid, serial, cell_id};
ghost use Rattle.compact_values.specs.Items.{item, array};
ghost use Rattle.doc_model.specs.wire.WrittenElements.{size_if_any, declaration_fields, data_fields};
ghost use Rattle.doc_model.specs.rules.Weights.{started_size};

use crate::element::{Content, Object};
use compact_values::{CellId, ExGuid, Serial};

/// How many bytes a compact integer takes.
pub fn compact_size(value: u64) -> u64
    ensures length { result ≡ length (compact value) }
    ensures few { result ≤ 9 }
{
    match value {
        ..=0x7F => 1,
        ..=0x3FFF => 2,
        ..=0x1F_FFFF => 3,
        ..=0xFFF_FFFF => 4,
        ..=0x7_FFFF_FFFF => 5,
        ..=0x3FF_FFFF_FFFF => 6,
        ..=0x1_FFFF_FFFF_FFFF => 7,
        _ => 9,
    }
}

/// How many bytes an extended GUID takes.
pub fn exguid_size(id: &ExGuid) -> u64
    ensures length { result ≡ length (exguid id.now) }
    ensures few { result ≤ 21 }
{
    match *id {
        ExGuid::Null => 1,
        ExGuid::Id { guid: _, value } => match value {
            ..=0x1F => 17,
            ..=0x3FF => 18,
            ..=0x1_FFFF => 19,
            _ => 21,
        },
    }
}

/// How many bytes a serial number takes.
pub fn serial_size(number: &Serial) -> u64
    ensures length { result ≡ length (serial number.now) }
    ensures few { result ≤ 25 }
{
    match *number {
        Serial::Null => 1,
        Serial::Number { guid: _, value: _ } => 25,
    }
}

/// How many bytes a cell id takes.
pub fn cell_id_size(cell: &CellId) -> u64
    ensures length { result ≡ length (cell_id cell.now) }
    ensures few { result ≤ 42 }
{
    exguid_size(&cell.first) + exguid_size(&cell.second)
}

/// How many bytes a binary item takes.
pub fn item_size(bytes: &[u8]) -> u128
    ensures length { result ≡ length (item bytes.now) }
    ensures few { result ≤ 2 ^ 65 }
{
    compact_size(bytes.len() as u64) as u128 + bytes.len() as u128
}

/// How many bytes an array of extended GUIDs takes.
pub fn ids_size(ids: &[ExGuid]) -> u128
    ensures length { result ≡ length (array exguid ids.now) }
    ensures few { result ≤ 2 ^ 70 }
{
    let mut size = compact_size(ids.len() as u64) as u128;
    for id in ids {
        size += exguid_size(id) as u128;
    }
    size
}

/// How many bytes an array of cell ids takes.
pub fn cells_size(cells: &[CellId]) -> u128
    ensures length { result ≡ length (array cell_id cells.now) }
    ensures few { result ≤ 2 ^ 71 }
{
    let mut size = compact_size(cells.len() as u64) as u128;
    for cell in cells {
        size += cell_id_size(cell) as u128;
    }
    size
}

/// How many bytes an object takes whose type has six bits: its start, and so many bytes of fields.
pub fn started_size(fields: u128) -> u128
    requires { fields < 2 ^ 100 }
    ensures { result ≡ started_size fields }
{
    if fields <= 127 {
        2 + fields
    } else if fields < 32767 {
        4 + fields
    } else if fields < 0x1_0000_0000_0000_0000 {
        4 + compact_size(fields as u64) as u128 + fields
    } else {
        13 + fields
    }
}

/// How many bytes the size of a blob declaration takes, which is left out where it is 0.
pub fn size_if_any_size(size: u64) -> u64
    ensures length { result ≡ length (size_if_any size) }
    ensures few { result ≤ 9 }
{
    if size == 0 { 0 } else { compact_size(size) }
}

/// How many bytes of fields the declaration of an object has.
pub fn declaration_size(object: &Object) -> u64
    ensures length { result ≡ length (declaration_fields object.now object.now.content) }
    ensures few { result ≤ 100 }
{
    let counts = compact_size(object.references.len() as u64)
        + compact_size(object.cells.len() as u64);
    match &object.content {
        Content::Inline { bytes: _ } => {
            exguid_size(&object.id)
                + compact_size(object.partition)
                + compact_size(object.size)
                + counts
        }
        Content::Apart { blob } => {
            exguid_size(&object.id)
                + exguid_size(blob)
                + compact_size(object.partition)
                + size_if_any_size(object.size)
                + counts
        }
    }
}

/// How many bytes of fields the data of an object have.
pub fn data_size(object: &Object) -> u128
    ensures length { result ≡ length (data_fields object.now object.now.content) }
    ensures few { result ≤ 2 ^ 72 }
{
    let lists = ids_size(object.references.as_slice()) + cells_size(object.cells.as_slice());
    match &object.content {
        Content::Inline { bytes } => lists + item_size(bytes.as_slice()),
        Content::Apart { blob } => lists + exguid_size(blob) as u128,
    }
}
