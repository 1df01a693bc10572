ghost use Rattle.std.specs.Prelude.{◌≡◌, ◌≢◌, ℕ, ◌+◌, ◌*◌, ◌/◌, ◌^◌, ◌<◌, ◌≤◌, ◌++◌, length, drop, IfOk, OnOk, OnErr, Err};
ghost use Rattle.compact_values.specs.Compact.{compact, little_endian, SpellsCompact};
ghost use Rattle.compact_values.specs.Answers.{IsFoundAt, IsShortAt, IsOutOfFormAt};
ghost use Rattle.compact_values.specs.Reading.{form_of, IsUsable, compact_at, answer_at};
ghost use Rattle.compact_values.specs.declared.fault.ValueFault.TheVariants as faults;

use crate::fault::{NoMemory, ValueFault};
use crate::form::{Form, read_field};
use crate::numbers::append_low_bytes;
use crate::seq::Octets;

/// Adds the spelling of the number at the end. Without memory nothing is added.
pub fn write_compact(out: &mut Octets, value: u64) -> Result<(), NoMemory>
    ensures ok { OnOk result (out.new ≡ out.old ++ compact value) }
    ensures err { OnErr result (out.new ≡ out.old) }
{
    match value {
        0 => out.push(0),
        ..=0x7F => append_low_bytes(out, 2 * value + 1, 1),
        ..=0x3FFF => append_low_bytes(out, 4 * value + 2, 2),
        ..=0x1F_FFFF => append_low_bytes(out, 8 * value + 4, 3),
        ..=0xFFF_FFFF => append_low_bytes(out, 16 * value + 8, 4),
        ..=0x7_FFFF_FFFF => append_low_bytes(out, 32 * value + 16, 5),
        ..=0x3FF_FFFF_FFFF => append_low_bytes(out, 64 * value + 32, 6),
        ..=0x1_FFFF_FFFF_FFFF => append_low_bytes(out, 128 * value + 64, 7),
        _ => {
            let [a, b, c, d, e, f, g, h] = value.to_le_bytes();
            out.extend_from_slice(&[0x80, a, b, c, d, e, f, g, h])
        }
    }
}

/// The form that the low bits of the first byte name.
#[tactic(auto, unfolding(crate::specs::Reading::form_of))]
fn form_of(first: u8) -> Form
    ensures form { result ≡ form_of first }
    ensures usable { IsUsable result }
{
    if first == 0 {
        Form {
            width: 1,
            shift: 1,
            least: 0,
        }
    } else if first % 2 == 1 {
        Form {
            width: 1,
            shift: 1,
            least: 1,
        }
    } else if first % 4 == 2 {
        Form {
            width: 2,
            shift: 2,
            least: 0x80,
        }
    } else if first % 8 == 4 {
        Form {
            width: 3,
            shift: 3,
            least: 0x4000,
        }
    } else if first % 16 == 8 {
        Form {
            width: 4,
            shift: 4,
            least: 0x20_0000,
        }
    } else if first % 32 == 16 {
        Form {
            width: 5,
            shift: 5,
            least: 0x1000_0000,
        }
    } else if first % 64 == 32 {
        Form {
            width: 6,
            shift: 6,
            least: 0x8_0000_0000,
        }
    } else if first % 128 == 64 {
        Form {
            width: 7,
            shift: 7,
            least: 0x400_0000_0000,
        }
    } else {
        Form {
            width: 9,
            shift: 8,
            least: 0x2_0000_0000_0000,
        }
    }
}

#[tactic(auto, unfolding(crate::specs::Reading::compact_at))]
fn compact_at(bytes: &[u8], at: usize) -> Result<(u64, usize), ValueFault>
    requires { at ≤ length bytes.now }
    ensures exact { result ≡ answer_at (length bytes.now) at (compact_at (drop at bytes.now)) }
    ensures inside { IfOk result (λ x. x.1 ≤ length bytes.now) }
{
    match bytes[at..].first() {
        Some(first) => read_field(bytes, at, form_of(*first)),
        None => Err(ValueFault::Short { place: bytes.len() }),
    }
}

/// Reads the compact integer at a place, and gives the place after it.
pub fn read_compact(bytes: &[u8], at: usize) -> Result<(u64, usize), ValueFault>
    requires { at ≤ length bytes.now }
    // Ok comes exactly for a spelling, which is then within the input.
    ensures found { IsFoundAt SpellsCompact bytes.now at result }
    ensures inside { IfOk result (λ x. x.1 ≤ length bytes.now) }
    // Short comes exactly where the input ends inside one.
    ensures short { IsShortAt SpellsCompact bytes.now at result }
    // OutOfForm comes exactly where neither is so.
    ensures out_of_form { IsOutOfFormAt SpellsCompact bytes.now at result }
    // The same as a function of the bytes, for readers that go on behind it.
    ensures exact { result ≡ answer_at (length bytes.now) at (compact_at (drop at bytes.now)) }
    // It takes no memory.
    ensures memory { result ≢ Err faults.NoMemory }
{
    compact_at(bytes, at)
}
