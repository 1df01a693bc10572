// Taking values from the front of bytes, each with the bytes behind it, as the fields of an object are read.
ghost use Rattle.std.specs.Prelude.{◌≡◌, ◌↔◌, IfOk, IsTrue, option_map};
ghost use Rattle.compact_values.specs.Taking.{take_byte, take_compact, take_long, take_guid, take_exguid, take_serial, take_cell_id, take_item, take_ids, take_cells};
ghost use Rattle.compact_values.specs.declared.fault.ValueFault.TheVariants as faults;

use crate::arrays::{read_cells, read_ids};
use crate::cell_id::read_cell_id;
use crate::compact::read_compact;
use crate::exguid::{read_exguid, read_guid};
use crate::fault::{NoMemory, ValueFault};
use crate::guid::Guid;
use crate::ids::{CellId, CellIds, ExGuid, Ids, Serial};
use crate::item::read_item;
use crate::serial::{long_at, read_serial};
use std::alloc::Global;

/// A byte from the front, and the bytes behind it.
#[tactic(auto, unfolding(crate::specs::Taking::take_byte))]
pub fn take_byte(bytes: &[u8]) -> Option<(u8, &[u8])>
    ensures { option_map (λ x. (x.0, x.1.now)) result ≡ take_byte bytes.now }
{
    match bytes {
        [] => None,
        [first, rest @ ..] => Some((*first, rest)),
    }
}

/// A compact integer from the front, and the bytes behind it.
#[tactic(auto, unfolding(crate::specs::Taking::take_compact))]
pub fn take_compact(bytes: &[u8]) -> Option<(u64, &[u8])>
    ensures { option_map (λ x. (x.0, x.1.now)) result ≡ take_compact bytes.now }
{
    match read_compact(bytes, 0) {
        Ok((value, next)) => Some((value, &bytes[next..])),
        Err(_) => None,
    }
}

/// A number of 8 bytes, the least first, from the front, and the bytes behind it.
#[tactic(auto, unfolding(crate::specs::Taking::take_long))]
pub fn take_long(bytes: &[u8]) -> Option<(u64, &[u8])>
    ensures { option_map (λ x. (x.0, x.1.now)) result ≡ take_long bytes.now }
{
    match long_at(bytes, 0) {
        Ok((value, next)) => Some((value, &bytes[next..])),
        Err(_) => None,
    }
}

/// A GUID from the front, and the bytes behind it.
#[tactic(auto, unfolding(crate::specs::Taking::take_guid))]
pub fn take_guid(bytes: &[u8]) -> Option<(Guid, &[u8])>
    ensures { option_map (λ x. (x.0, x.1.now)) result ≡ take_guid bytes.now }
{
    match read_guid(bytes, 0) {
        Ok((value, next)) => Some((value, &bytes[next..])),
        Err(_) => None,
    }
}

/// An extended GUID from the front, and the bytes behind it.
#[tactic(auto, unfolding(crate::specs::Taking::take_exguid))]
pub fn take_exguid(bytes: &[u8]) -> Option<(ExGuid, &[u8])>
    ensures { option_map (λ x. (x.0, x.1.now)) result ≡ take_exguid bytes.now }
{
    match read_exguid(bytes, 0) {
        Ok((value, next)) => Some((value, &bytes[next..])),
        Err(_) => None,
    }
}

/// A serial number from the front, and the bytes behind it.
#[tactic(auto, unfolding(crate::specs::Taking::take_serial))]
pub fn take_serial(bytes: &[u8]) -> Option<(Serial, &[u8])>
    ensures { option_map (λ x. (x.0, x.1.now)) result ≡ take_serial bytes.now }
{
    match read_serial(bytes, 0) {
        Ok((value, next)) => Some((value, &bytes[next..])),
        Err(_) => None,
    }
}

/// A cell id from the front, and the bytes behind it.
#[tactic(auto, unfolding(crate::specs::Taking::take_cell_id))]
pub fn take_cell_id(bytes: &[u8]) -> Option<(CellId, &[u8])>
    ensures { option_map (λ x. (x.0, x.1.now)) result ≡ take_cell_id bytes.now }
{
    match read_cell_id(bytes, 0) {
        Ok((value, next)) => Some((value, &bytes[next..])),
        Err(_) => None,
    }
}

/// The bytes of a binary item from the front, and the bytes behind it.
#[tactic(auto, unfolding(crate::specs::Taking::take_item))]
pub fn take_item(bytes: &[u8]) -> Option<(&[u8], &[u8])>
    ensures { option_map (λ x. (x.0.now, x.1.now)) result ≡ take_item bytes.now }
{
    match read_item(bytes, 0) {
        Ok((span, next)) => Some((&bytes[span.from..span.to], &bytes[next..])),
        Err(_) => None,
    }
}

/// Whether memory ran out.
fn is_no_memory(fault: ValueFault) -> bool
    ensures { IsTrue result ↔ (fault ≡ faults.NoMemory) }
{
    match fault {
        ValueFault::NoMemory => true,
        ValueFault::Short { .. } | ValueFault::OutOfForm { .. } => false,
    }
}

/// An array of extended GUIDs from the front, and the bytes behind it.
#[tactic(auto, unfolding(crate::specs::Taking::take_ids))]
pub fn take_ids(alloc: Global, bytes: &[u8]) -> Result<Option<(Ids, &[u8])>, NoMemory>
    ensures { IfOk result (λ o. option_map (λ x. (x.0, x.1.now)) o ≡ take_ids bytes.now) }
{
    match read_ids(alloc, bytes, 0) {
        Ok((ids, next)) => Ok(Some((ids, &bytes[next..]))),
        Err(fault) => {
            if is_no_memory(fault) {
                Err(NoMemory)
            } else {
                Ok(None)
            }
        }
    }
}

/// An array of cell ids from the front, and the bytes behind it.
#[tactic(auto, unfolding(crate::specs::Taking::take_cells))]
pub fn take_cells(alloc: Global, bytes: &[u8]) -> Result<Option<(CellIds, &[u8])>, NoMemory>
    ensures { IfOk result (λ o. option_map (λ x. (x.0, x.1.now)) o ≡ take_cells bytes.now) }
{
    match read_cells(alloc, bytes, 0) {
        Ok((cells, next)) => Ok(Some((cells, &bytes[next..]))),
        Err(fault) => {
            if is_no_memory(fault) {
                Err(NoMemory)
            } else {
                Ok(None)
            }
        }
    }
}
