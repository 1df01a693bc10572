// Serial numbers both ways (MS-FSSHTTPB 2.2.1.9).
ghost use Rattle.std.specs.Prelude.{◌≡◌, ◌≢◌, ◌≤◌, ◌++◌, length, take, drop, IfOk, OnOk, OnErr, Err};
ghost use Rattle.compact_values.specs.Answers.{IsFoundAt, IsShortAt, IsOutOfFormAt};
ghost use Rattle.compact_values.specs.Both.{read_both};
ghost use Rattle.compact_values.specs.Reading.{answer_at};
ghost use Rattle.compact_values.specs.IdReading.{guid_at, long_at, mark_at, serial_at};
ghost use Rattle.compact_values.specs.Ids.{SpellsSerial, serial};
ghost use Rattle.compact_values.specs.declared.fault.ValueFault.TheVariants as faults;

use crate::exguid::{guid_at, write_guid};
use crate::fault::{NoMemory, ValueFault};
use crate::guid::Guid;
use crate::ids::Serial;
use crate::numbers::{append_low_bytes, number_of};
use crate::seq::Octets;

/// The byte in front of a serial number that isn't null.
const MARK: u8 = 0x80;

/// The number of 8 bytes at a place, the least first, and the place after it.
#[tactic(auto, unfolding(crate::specs::IdReading::long_at))]
pub(crate) fn long_at(bytes: &[u8], at: usize) -> Result<(u64, usize), ValueFault>
    requires { at ≤ length bytes.now }
    ensures exact { result ≡ answer_at (length bytes.now) at (long_at (drop at bytes.now)) }
    ensures inside { IfOk result (λ x. x.1 ≤ length bytes.now) }
{
    let rest = &bytes[at..];
    if rest.len() < 8 {
        return Err(ValueFault::Short { place: bytes.len() });
    }
    Ok((number_of(&rest[..8]), at + 8))
}

/// The GUID and the number of a serial number, and the place after them.
fn number_at(bytes: &[u8], at: usize) -> Result<((Guid, u64), usize), ValueFault>
    requires { at ≤ length bytes.now }
    ensures exact { result ≡ answer_at (length bytes.now) at (read_both guid_at long_at (drop at bytes.now)) }
    ensures inside { IfOk result (λ x. x.1 ≤ length bytes.now) }
{
    let (guid, next) = guid_at(bytes, at)?;
    let (value, next) = long_at(bytes, next)?;
    Ok(((guid, value), next))
}

#[tactic(auto, unfolding(crate::specs::IdReading::null_or, crate::specs::IdReading::mark_at, crate::specs::IdReading::serial_at))]
fn serial_at(bytes: &[u8], at: usize) -> Result<(Serial, usize), ValueFault>
    requires { at ≤ length bytes.now }
    ensures exact { result ≡ answer_at (length bytes.now) at (serial_at (drop at bytes.now)) }
    ensures inside { IfOk result (λ x. x.1 ≤ length bytes.now) }
{
    match bytes[at..].first() {
        None => Err(ValueFault::Short { place: bytes.len() }),
        Some(0) => Ok((Serial::Null, at + 1)),
        Some(&MARK) => {
            let ((guid, value), next) = number_at(bytes, at + 1)?;
            Ok((Serial::Number { guid, value }, next))
        }
        Some(_) => Err(ValueFault::OutOfForm { place: at }),
    }
}

/// Reads the serial number at a place, and gives the place after it.
pub fn read_serial(bytes: &[u8], at: usize) -> Result<(Serial, usize), ValueFault>
    requires { at ≤ length bytes.now }
    // Ok comes exactly for a spelling, which is then within the input.
    ensures found { IsFoundAt SpellsSerial bytes.now at result }
    ensures inside { IfOk result (λ x. x.1 ≤ length bytes.now) }
    // Short comes exactly where the input ends inside one.
    ensures short { IsShortAt SpellsSerial bytes.now at result }
    // OutOfForm comes exactly where neither is so.
    ensures out_of_form { IsOutOfFormAt SpellsSerial bytes.now at result }
    // The same as a function of the bytes, for readers that go on behind it.
    ensures exact { result ≡ answer_at (length bytes.now) at (serial_at (drop at bytes.now)) }
    // It takes no memory.
    ensures memory { result ≢ Err faults.NoMemory }
{
    serial_at(bytes, at)
}

/// Adds the mark, the GUID and the number of a serial number.
fn write_number(out: &mut Octets, guid: Guid, value: u64) -> Result<(), NoMemory>
    ensures ok { OnOk result (out.new ≡ out.old ++ serial (Serial.Number guid value)) }
    ensures err { OnErr result (take (length out.old) out.new ≡ out.old) }
{
    out.push(MARK)?;
    write_guid(out, guid)?;
    append_low_bytes(out, value, 8)
}

/// Adds the spelling of the serial number at the end. Without memory nothing is added.
pub fn write_serial(out: &mut Octets, value: &Serial) -> Result<(), NoMemory>
    ensures ok { OnOk result (out.new ≡ out.old ++ serial value.now) }
    ensures err { OnErr result (out.new ≡ out.old) }
{
    match *value {
        Serial::Null => out.push(0),
        Serial::Number { guid, value } => {
            let before = out.len();
            let written = write_number(out, guid, value);
            if written.is_err() {
                out.truncate(before);
            }
            written
        }
    }
}
