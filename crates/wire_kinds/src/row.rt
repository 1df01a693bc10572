// Objects without children: their fields both ways, and how many bytes they take.
ghost use Rattle.std.specs.Prelude.{◌≡◌, ◌++◌, ◌+◌, ◌-◌, ◌^◌, ◌≤◌, min, length, take, IfOk, OnOk, OnErr};
ghost use Rattle.std.specs.List.{flat_map};
ghost use Rattle.wire_kinds.specs.Row.{row, row_bytes, row_at, start_size};

use crate::wire::{Decode, Encode};
use compact_values::{NoMemory, Octets};
use std::alloc::Global;
use stream_objects::{Tree, simple_fields, start};

/// What the fields of an object say. None where they are in another form.
#[tactic(auto, unfolding(crate::specs::Row::row_at))]
pub fn read_row<R: Decode>(alloc: Global, bytes: &[u8], tree: &Tree) -> Result<Option<R>, NoMemory>
    ensures { IfOk result (λ o. o ≡ row_at R.takes bytes.now tree.now) }
{
    let Some(fields) = simple_fields(bytes, tree) else {
        return Ok(None);
    };
    let Some((value, rest)) = R::decode(alloc, fields)? else {
        return Ok(None);
    };
    if rest.is_empty() {
        Ok(Some(value))
    } else {
        Ok(None)
    }
}

/// Adds the object of this type at the end. Without memory only a part of it is added.
#[tactic(auto, unfolding(crate::specs::Row::row_bytes, stream_objects::specs::Written::started))]
pub fn write_row<R: Encode>(out: &mut Octets, number: u16, value: &R) -> Result<(), NoMemory>
    requires { number ≤ 16383 }
    ensures ok { OnOk result (out.new ≡ out.old ++ row_bytes (row number R.kind) value.now) }
    ensures err { OnErr result (take (length out.old) out.new ≡ out.old) }
{
    let size = value.size();
    if size == u64::MAX {
        return Err(NoMemory);
    }
    start(out, number, false, size)?;
    value.encode(out)
}

/// Adds the objects of this type at the end, in order. Without memory only a part of them is added.
pub fn write_rows<R: Encode>(out: &mut Octets, number: u16, values: &[R]) -> Result<(), NoMemory>
    requires { number ≤ 16383 }
    ensures ok { OnOk result (out.new ≡ out.old ++ flat_map (row_bytes (row number R.kind)) values.now) }
    ensures err { OnErr result (take (length out.old) out.new ≡ out.old) }
{
    for value in values {
        write_row(out, number, value)?;
    }
    Ok(())
}

// How many bytes the start of an object takes, by its number and the length of its fields.
#[tactic(auto, using(crate::proofs::Sizes::compact_short))]
fn start_size(number: u16, fields: u64) -> u64
    ensures { result ≡ start_size number fields }
{
    if number <= 63 && fields <= 127 {
        2
    } else if fields < 32767 {
        4
    } else {
        4 + fields.size()
    }
}

/// How many bytes the object of this type takes, or the greatest number.
pub fn row_size<R: Encode>(number: u16, value: &R) -> u64
    ensures { result ≡ min (length (row_bytes (row number R.kind) value.now)) (2 ^ 64 - 1) }
{
    let fields = value.size();
    fields.saturating_add(start_size(number, fields))
}

/// How many bytes the objects of this type take, or the greatest number.
pub fn size_of_rows<R: Encode>(number: u16, values: &[R]) -> u64
    ensures { result ≡ min (length (flat_map (row_bytes (row number R.kind)) values.now)) (2 ^ 64 - 1) }
{
    let mut size = 0_u64;
    for value in values {
        size = size.saturating_add(row_size(number, value));
    }
    size
}
