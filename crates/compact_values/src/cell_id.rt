// Cell ids both ways (MS-FSSHTTPB 2.2.1.10).
ghost use Rattle.std.specs.Prelude.{◌≡◌, ◌≢◌, ◌≤◌, ◌++◌, length, drop, IfOk, OnOk, OnErr, Err};
ghost use Rattle.compact_values.specs.Answers.{IsFoundAt, IsShortAt};
ghost use Rattle.compact_values.specs.Placed.{LacksInCellId, IsOutOfFormIn, IsRefusedAt, answer_in, cell_id_at};
ghost use Rattle.compact_values.specs.Ids.{SpellsCellId, cell_id};
ghost use Rattle.compact_values.specs.declared.fault.ValueFault.TheVariants as faults;

use crate::exguid::{read_exguid, write_exguid};
use crate::fault::{NoMemory, ValueFault};
use crate::ids::CellId;
use crate::seq::Octets;

#[tactic(auto, unfolding(crate::specs::Placed::cell_id_at))]
fn cell_id_at(bytes: &[u8], at: usize) -> Result<(CellId, usize), ValueFault>
    requires { at ≤ length bytes.now }
    ensures exact { result ≡ answer_in (length bytes.now) at (cell_id_at (drop at bytes.now)) }
    ensures inside { IfOk result (λ x. x.1 ≤ length bytes.now) }
{
    let (first, next) = read_exguid(bytes, at)?;
    let (second, next) = read_exguid(bytes, next)?;
    Ok((CellId { first, second }, next))
}

/// Reads the cell id at a place, and gives the place after it. `OutOfForm` has the place of the half without a form.
pub fn read_cell_id(bytes: &[u8], at: usize) -> Result<(CellId, usize), ValueFault>
    requires { at ≤ length bytes.now }
    // Ok comes exactly for a spelling, which is then within the input.
    ensures found { IsFoundAt SpellsCellId bytes.now at result }
    ensures inside { IfOk result (λ x. x.1 ≤ length bytes.now) }
    // Short comes exactly where the input ends inside one.
    ensures short { IsShortAt SpellsCellId bytes.now at result }
    // OutOfForm comes exactly where neither is so, and has the place of the first half without a form.
    ensures refused { IsRefusedAt SpellsCellId bytes.now at result }
    ensures out_of_form { IsOutOfFormIn LacksInCellId bytes.now at result }
    // The same as a function of the bytes, for readers that go on behind it.
    ensures exact { result ≡ answer_in (length bytes.now) at (cell_id_at (drop at bytes.now)) }
    // It takes no memory.
    ensures memory { result ≢ Err faults.NoMemory }
{
    cell_id_at(bytes, at)
}

/// Adds the spelling of the cell id at the end. Without memory nothing is added.
pub fn write_cell_id(out: &mut Octets, value: &CellId) -> Result<(), NoMemory>
    ensures ok { OnOk result (out.new ≡ out.old ++ cell_id value.now) }
    ensures err { OnErr result (out.new ≡ out.old) }
{
    let before = out.len();
    write_exguid(out, &value.first)?;
    let written = write_exguid(out, &value.second);
    if written.is_err() {
        out.truncate(before);
    }
    written
}
