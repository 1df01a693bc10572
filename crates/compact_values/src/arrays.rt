// Arrays of extended GUIDs and of cell ids both ways (MS-FSSHTTPB 2.2.1.8).
ghost use Rattle.std.specs.Prelude.{◌≡◌, ◌≢◌, ◌+◌, ◌-◌, ◌≤◌, ◌++◌, [], length, take, drop, IfOk, OnOk, OnErr, Err};
ghost use Rattle.std.specs.List.{flat_map};
ghost use Rattle.compact_values.specs.Answers.{IsFoundAt, IsShortAt};
ghost use Rattle.compact_values.specs.IdReading.{exguid_at};
ghost use Rattle.compact_values.specs.Placed.{LacksInIds, LacksInCells, IsOutOfFormIn, IsRefusedAt, answer_in, items_at, ids_at, cells_at, single, cell_id_at};
ghost use Rattle.compact_values.specs.Items.{SpellsIds, SpellsCells, array};
ghost use Rattle.compact_values.specs.Ids.{exguid, cell_id};
ghost use Rattle.compact_values.specs.declared.fault.ValueFault.TheVariants as faults;

use crate::cell_id::{read_cell_id, write_cell_id};
use crate::compact::{read_compact, write_compact};
use crate::exguid::{read_exguid, write_exguid};
use crate::fault::{NoMemory, ValueFault};
use crate::ids::{CellId, CellIds, ExGuid, Ids};
use crate::seq::{Octets, Seq};
use std::alloc::Global;

/// So many extended GUIDs, of an array that begins at `at` and has its items from `first` on.
fn some_ids(
    alloc: Global,
    bytes: &[u8],
    at: usize,
    first: usize,
    count: u64,
) -> Result<(Ids, usize), ValueFault>
    requires order { at ≤ first }
    requires within { first ≤ length bytes.now }
    ensures exact { result ≢ Err faults.NoMemory → result ≡ answer_in (length bytes.now) at (items_at (λ b. single (exguid_at b)) count [] (first - at) (drop first bytes.now)) }
    ensures inside { IfOk result (λ x. x.1 ≤ length bytes.now) }
{
    let mut ids = Seq::new(alloc);
    let mut place = first;
    for _i in 0..count {
        let (id, next) = read_exguid(bytes, place)?;
        ids.push(id)?;
        place = next;
    }
    Ok((ids, place))
}

/// So many cell ids, of an array that begins at `at` and has its items from `first` on.
fn some_cells(
    alloc: Global,
    bytes: &[u8],
    at: usize,
    first: usize,
    count: u64,
) -> Result<(CellIds, usize), ValueFault>
    requires order { at ≤ first }
    requires within { first ≤ length bytes.now }
    ensures exact { result ≢ Err faults.NoMemory → result ≡ answer_in (length bytes.now) at (items_at cell_id_at count [] (first - at) (drop first bytes.now)) }
    ensures inside { IfOk result (λ x. x.1 ≤ length bytes.now) }
{
    let mut cells = Seq::new(alloc);
    let mut place = first;
    for _i in 0..count {
        let (cell, next) = read_cell_id(bytes, place)?;
        cells.push(cell)?;
        place = next;
    }
    Ok((cells, place))
}

#[tactic(auto, unfolding(crate::specs::Placed::ids_at))]
fn ids_at(alloc: Global, bytes: &[u8], at: usize) -> Result<(Ids, usize), ValueFault>
    requires { at ≤ length bytes.now }
    ensures exact { result ≢ Err faults.NoMemory → result ≡ answer_in (length bytes.now) at (ids_at (drop at bytes.now)) }
    ensures inside { IfOk result (λ x. x.1 ≤ length bytes.now) }
{
    let (count, first) = read_compact(bytes, at)?;
    some_ids(alloc, bytes, at, first, count)
}

#[tactic(auto, unfolding(crate::specs::Placed::cells_at))]
fn cells_at(alloc: Global, bytes: &[u8], at: usize) -> Result<(CellIds, usize), ValueFault>
    requires { at ≤ length bytes.now }
    ensures exact { result ≢ Err faults.NoMemory → result ≡ answer_in (length bytes.now) at (cells_at (drop at bytes.now)) }
    ensures inside { IfOk result (λ x. x.1 ≤ length bytes.now) }
{
    let (count, first) = read_compact(bytes, at)?;
    some_cells(alloc, bytes, at, first, count)
}

/// Reads the array of extended GUIDs at a place, and gives the place after it. `OutOfForm` has the place of the first
/// value without a form: of the count, or of an item. Memory is taken for items that are there, and never for the count.
pub fn read_ids(alloc: Global, bytes: &[u8], at: usize) -> Result<(Ids, usize), ValueFault>
    requires { at ≤ length bytes.now }
    // Where memory doesn't run out, Ok comes exactly for a spelling, which is then within the input.
    ensures found { result ≢ Err faults.NoMemory → IsFoundAt SpellsIds bytes.now at result }
    ensures inside { IfOk result (λ x. x.1 ≤ length bytes.now) }
    // Short comes exactly where the input ends inside one.
    ensures short { result ≢ Err faults.NoMemory → IsShortAt SpellsIds bytes.now at result }
    // OutOfForm comes exactly where neither is so, and has the place of the first value without a form.
    ensures refused { result ≢ Err faults.NoMemory → IsRefusedAt SpellsIds bytes.now at result }
    ensures out_of_form { result ≢ Err faults.NoMemory → IsOutOfFormIn LacksInIds bytes.now at result }
    // The same as a function of the bytes, for readers that go on behind it.
    ensures exact { result ≢ Err faults.NoMemory → result ≡ answer_in (length bytes.now) at (ids_at (drop at bytes.now)) }
{
    ids_at(alloc, bytes, at)
}

/// Reads the array of cell ids at a place, and gives the place after it. `OutOfForm` has the place of the first value
/// without a form: of the count, or of half an item. Memory is taken for items that are there, and never for the count.
pub fn read_cells(alloc: Global, bytes: &[u8], at: usize) -> Result<(CellIds, usize), ValueFault>
    requires { at ≤ length bytes.now }
    // Where memory doesn't run out, Ok comes exactly for a spelling, which is then within the input.
    ensures found { result ≢ Err faults.NoMemory → IsFoundAt SpellsCells bytes.now at result }
    ensures inside { IfOk result (λ x. x.1 ≤ length bytes.now) }
    // Short comes exactly where the input ends inside one.
    ensures short { result ≢ Err faults.NoMemory → IsShortAt SpellsCells bytes.now at result }
    // OutOfForm comes exactly where neither is so, and has the place of the first value without a form.
    ensures refused { result ≢ Err faults.NoMemory → IsRefusedAt SpellsCells bytes.now at result }
    ensures out_of_form { result ≢ Err faults.NoMemory → IsOutOfFormIn LacksInCells bytes.now at result }
    // The same as a function of the bytes, for readers that go on behind it.
    ensures exact { result ≢ Err faults.NoMemory → result ≡ answer_in (length bytes.now) at (cells_at (drop at bytes.now)) }
{
    cells_at(alloc, bytes, at)
}

/// Adds the items one behind the other. Without memory only some of them are added.
fn write_each_id(out: &mut Octets, ids: &[ExGuid]) -> Result<(), NoMemory>
    ensures ok { OnOk result (out.new ≡ out.old ++ flat_map exguid ids.now) }
    ensures err { OnErr result (take (length out.old) out.new ≡ out.old) }
{
    for id in ids {
        write_exguid(out, id)?;
    }
    Ok(())
}

/// Adds the items one behind the other. Without memory only some of them are added.
fn write_each_cell(out: &mut Octets, cells: &[CellId]) -> Result<(), NoMemory>
    ensures ok { OnOk result (out.new ≡ out.old ++ flat_map cell_id cells.now) }
    ensures err { OnErr result (take (length out.old) out.new ≡ out.old) }
{
    for cell in cells {
        write_cell_id(out, cell)?;
    }
    Ok(())
}

/// Adds the spelling of the array of extended GUIDs at the end. Without memory nothing is added.
pub fn write_ids(out: &mut Octets, ids: &[ExGuid]) -> Result<(), NoMemory>
    ensures ok { OnOk result (out.new ≡ out.old ++ array exguid ids.now) }
    ensures err { OnErr result (out.new ≡ out.old) }
{
    let before = out.len();
    write_compact(out, ids.len() as u64)?;
    let written = write_each_id(out, ids);
    if written.is_err() {
        out.truncate(before);
    }
    written
}

/// Adds the spelling of the array of cell ids at the end. Without memory nothing is added.
pub fn write_cells(out: &mut Octets, cells: &[CellId]) -> Result<(), NoMemory>
    ensures ok { OnOk result (out.new ≡ out.old ++ array cell_id cells.now) }
    ensures err { OnErr result (out.new ≡ out.old) }
{
    let before = out.len();
    write_compact(out, cells.len() as u64)?;
    let written = write_each_cell(out, cells);
    if written.is_err() {
        out.truncate(before);
    }
    written
}
