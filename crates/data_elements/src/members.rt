// The fields of what a group holds: declarations of objects, and their data.
ghost use Rattle.std.specs.Prelude.{◌≡◌, IfOk, option_map};
ghost use Rattle.compact_values.specs.Taking.{take_compact, take_exguid, take_both};
ghost use Rattle.data_elements.specs.Rows.{declaration_row, declared_row, take_three, take_four, simple_row, data_row, reference_row, member_ok};

use compact_values::{
    CellIds, ExGuid, Ids, NoMemory, take_cells, take_compact, take_exguid, take_ids, take_item,
};
use std::alloc::Global;
use stream_objects::{Tree, object_types, simple_fields};

// Two compact integers.
fn take_two(bytes: &[u8]) -> Option<((u64, u64), &[u8])>
    ensures { option_map (λ x. (x.0, x.1.now)) result ≡ take_both take_compact take_compact bytes.now }
{
    let (first, rest) = take_compact(bytes)?;
    let (second, rest) = take_compact(rest)?;
    Some(((first, second), rest))
}

// Three compact integers.
fn take_three(bytes: &[u8]) -> Option<((u64, (u64, u64)), &[u8])>
    ensures { option_map (λ x. (x.0, x.1.now)) result ≡ take_both take_compact (take_both take_compact take_compact) bytes.now }
{
    let (first, rest) = take_compact(bytes)?;
    let (others, rest) = take_two(rest)?;
    Some(((first, others), rest))
}

// Four compact integers.
fn take_four(bytes: &[u8]) -> Option<((u64, (u64, (u64, u64))), &[u8])>
    ensures { option_map (λ x. (x.0, x.1.now)) result ≡ take_both take_compact (take_both take_compact (take_both take_compact take_compact)) bytes.now }
{
    let (first, rest) = take_compact(bytes)?;
    let (others, rest) = take_three(rest)?;
    Some(((first, others), rest))
}

/// A declaration of an object with its data: id, partition and size.
#[tactic(auto, unfolding(crate::specs::Rows::declaration_row))]
pub fn declaration_row(bytes: &[u8], tree: &Tree) -> Option<(ExGuid, (u64, u64))>
    ensures { result ≡ declaration_row bytes.now tree.now }
{
    let fields = simple_fields(bytes, tree)?;
    let (id, rest) = take_exguid(fields)?;
    let ((partition, (size, _counts)), rest) = take_four(rest)?;
    if rest.is_empty() {
        Some((id, (partition, size)))
    } else {
        None
    }
}

// A declaration of an object with a blob, without a size: id, blob, partition and the two counts.
fn three_row(bytes: &[u8], tree: &Tree) -> Option<(ExGuid, (ExGuid, (u64, (u64, u64))))>
    ensures { result ≡ simple_row take_three bytes.now tree.now }
{
    let fields = simple_fields(bytes, tree)?;
    let (id, rest) = take_exguid(fields)?;
    let (blob, rest) = take_exguid(rest)?;
    let (numbers, rest) = take_three(rest)?;
    if rest.is_empty() {
        Some((id, (blob, numbers)))
    } else {
        None
    }
}

// A blob, and four compact integers.
fn take_blob(bytes: &[u8]) -> Option<((ExGuid, (u64, (u64, (u64, u64)))), &[u8])>
    ensures { option_map (λ x. (x.0, x.1.now)) result ≡ take_both take_exguid (take_both take_compact (take_both take_compact (take_both take_compact take_compact))) bytes.now }
{
    let (blob, rest) = take_exguid(bytes)?;
    let (numbers, rest) = take_four(rest)?;
    Some(((blob, numbers), rest))
}

// With a size: id, blob, partition, size and the two counts.
fn four_row(bytes: &[u8], tree: &Tree) -> Option<(ExGuid, (ExGuid, (u64, (u64, (u64, u64)))))>
    ensures { result ≡ simple_row take_four bytes.now tree.now }
{
    let fields = simple_fields(bytes, tree)?;
    let (id, rest) = take_exguid(fields)?;
    let (others, rest) = take_blob(rest)?;
    if rest.is_empty() {
        Some((id, others))
    } else {
        None
    }
}

/// A declaration of an object with a blob: id, blob, partition and size. No size is the size 0.
#[tactic(auto, unfolding(crate::specs::Rows::declared_row))]
pub fn declared_row(bytes: &[u8], tree: &Tree) -> Option<(ExGuid, (ExGuid, (u64, u64)))>
    ensures { result ≡ declared_row bytes.now tree.now }
{
    match four_row(bytes, tree) {
        Some((id, (blob, (partition, (size, _counts))))) => Some((id, (blob, (partition, size)))),
        None => match three_row(bytes, tree) {
            Some((id, (blob, (partition, _counts)))) => Some((id, (blob, (partition, 0)))),
            None => None,
        },
    }
}

/// The data of an object: references, cells and bytes.
#[tactic(auto, unfolding(crate::specs::Rows::data_row))]
pub fn data_row<'a>(
    alloc: Global,
    bytes: &'a [u8],
    tree: &Tree,
) -> Result<Option<(Ids, (CellIds, &'a [u8]))>, NoMemory>
    ensures { IfOk result (λ o. option_map (λ x. (x.0, (x.1.0, x.1.1.now))) o ≡ data_row bytes.now tree.now) }
{
    let Some(fields) = simple_fields(bytes, tree) else {
        return Ok(None);
    };
    let Some((references, rest)) = take_ids(alloc, fields)? else {
        return Ok(None);
    };
    let Some((cells, rest)) = take_cells(alloc, rest)? else {
        return Ok(None);
    };
    let Some((content, rest)) = take_item(rest) else {
        return Ok(None);
    };
    if rest.is_empty() {
        Ok(Some((references, (cells, content))))
    } else {
        Ok(None)
    }
}

/// The data of an object whose bytes are in a blob: references, cells and the blob.
#[tactic(auto, unfolding(crate::specs::Rows::reference_row))]
pub fn reference_row(
    alloc: Global,
    bytes: &[u8],
    tree: &Tree,
) -> Result<Option<(Ids, (CellIds, ExGuid))>, NoMemory>
    ensures { IfOk result (λ o. o ≡ reference_row bytes.now tree.now) }
{
    let Some(fields) = simple_fields(bytes, tree) else {
        return Ok(None);
    };
    let Some((references, rest)) = take_ids(alloc, fields)? else {
        return Ok(None);
    };
    let Some((cells, rest)) = take_cells(alloc, rest)? else {
        return Ok(None);
    };
    let Some((blob, rest)) = take_exguid(rest) else {
        return Ok(None);
    };
    if rest.is_empty() {
        Ok(Some((references, (cells, blob))))
    } else {
        Ok(None)
    }
}

/// Whether the fields of a declaration or of data are those of its type.
#[tactic(auto, unfolding(crate::specs::Rows::member_ok))]
pub fn member_ok(alloc: Global, bytes: &[u8], tree: &Tree) -> Result<bool, NoMemory>
    ensures { IfOk result (λ ok. ok ≡ member_ok bytes.now tree.now) }
{
    match tree.kind {
        object_types::OBJECT_GROUP_OBJECT_BLOB_DATA_DECLARATION => Ok(declared_row(
            bytes, tree,
        ).is_some()),
        object_types::OBJECT_GROUP_OBJECT_DATA => Ok(data_row(alloc, bytes, tree)?.is_some()),
        object_types::OBJECT_GROUP_OBJECT_DECLARE => Ok(declaration_row(bytes, tree).is_some()),
        object_types::OBJECT_GROUP_OBJECT_DATA_BLOB_REFERENCE => Ok(reference_row(
            alloc, bytes, tree,
        )?.is_some()),
        _ => Ok(true),
    }
}
