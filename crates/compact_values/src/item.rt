// Binary items both ways (MS-FSSHTTPB 2.2.1.3).
ghost use Rattle.std.specs.Prelude.{◌≡◌, ◌≢◌, ℕ, ◌≤◌, ◌++◌, ◌↔◌, length, drop, IfOk, OnOk, OnErr, Ok, Err};
ghost use Rattle.compact_values.specs.Answers.{IsShortAt, IsOutOfFormAt};
ghost use Rattle.compact_values.specs.Items.{SpellsItem, IsItemAt, item};
ghost use Rattle.compact_values.specs.ItemReading.{item_at, span_answer};
ghost use Rattle.compact_values.specs.declared.span.Span.{Span};
ghost use Rattle.compact_values.specs.declared.fault.ValueFault.TheVariants as faults;

use crate::compact::{read_compact, write_compact};
use crate::fault::{NoMemory, ValueFault};
use crate::seq::Octets;
use crate::span::Span;

#[tactic(auto, unfolding(crate::specs::ItemReading::item_at))]
fn item_at(bytes: &[u8], at: usize) -> Result<(Span, usize), ValueFault>
    requires { at ≤ length bytes.now }
    ensures exact { result ≡ span_answer (length bytes.now) at (item_at (drop at bytes.now)) }
    ensures inside { IfOk result (λ x. x.1 ≤ length bytes.now) }
{
    let (length, from) = read_compact(bytes, at)?;
    let left = bytes.len() - from;
    if (left as u64) < length {
        return Err(ValueFault::Short { place: bytes.len() });
    }
    let to = from + length as usize;
    Ok((Span { from, to }, to))
}

/// Reads the binary item at a place, and gives where its bytes stand and the place after it.
pub fn read_item(bytes: &[u8], at: usize) -> Result<(Span, usize), ValueFault>
    requires { at ≤ length bytes.now }
    // Ok comes exactly where an item is spelled, with the place of its content.
    ensures found { (span : Span) (next : ℕ) → (result ≡ Ok (span, next)) ↔ IsItemAt span bytes.now at next }
    ensures inside { IfOk result (λ x. x.1 ≤ length bytes.now) }
    // Short comes exactly where the input ends inside one.
    ensures short { IsShortAt SpellsItem bytes.now at result }
    // OutOfForm comes exactly where neither is so.
    ensures out_of_form { IsOutOfFormAt SpellsItem bytes.now at result }
    // The same as a function of the bytes, for readers that go on behind it.
    ensures exact { result ≡ span_answer (length bytes.now) at (item_at (drop at bytes.now)) }
    // It takes no memory.
    ensures memory { result ≢ Err faults.NoMemory }
{
    item_at(bytes, at)
}

/// Adds the item of these bytes at the end. Without memory nothing is added.
pub fn write_item(out: &mut Octets, bytes: &[u8]) -> Result<(), NoMemory>
    ensures ok { OnOk result (out.new ≡ out.old ++ item bytes.now) }
    ensures err { OnErr result (out.new ≡ out.old) }
{
    let before = out.len();
    write_compact(out, bytes.len() as u64)?;
    let written = out.extend_from_slice(bytes);
    if written.is_err() {
        out.truncate(before);
    }
    written
}
