// Extended GUIDs both ways (MS-FSSHTTPB 2.2.1.7).
ghost use Rattle.std.specs.Prelude.{◌≡◌, ◌≢◌, ◌+◌, ◌≤◌, ◌<◌, ◌^◌, ◌++◌, length, drop, IfOk, OnOk, OnErr, Err, IfSome, option_map};
ghost use Rattle.compact_values.specs.Answers.{IsFoundAt, IsShortAt, IsOutOfFormAt};
ghost use Rattle.compact_values.specs.Reading.{IsUsable, answer_at};
ghost use Rattle.compact_values.specs.Both.{read_both};
ghost use Rattle.compact_values.specs.IdReading.{guid_at, exguid_form, exguid_value_at, exguid_at};
ghost use Rattle.compact_values.specs.Ids.{SpellsGuid, SpellsExGuid, guid_spelling, exguid, exguid_value};
ghost use Rattle.compact_values.specs.declared.fault.ValueFault.TheVariants as faults;

use crate::fault::{NoMemory, ValueFault};
use crate::form::{Form, read_field};
use crate::guid::{Guid, guid_bytes, guid_of};
use crate::ids::ExGuid;
use crate::numbers::append_low_bytes;
use crate::seq::Octets;

/// The GUID at a place, and the place after it.
#[tactic(auto, unfolding(crate::specs::IdReading::guid_at))]
pub(crate) fn guid_at(bytes: &[u8], at: usize) -> Result<(Guid, usize), ValueFault>
    requires { at ≤ length bytes.now }
    ensures exact { result ≡ answer_at (length bytes.now) at (guid_at (drop at bytes.now)) }
    ensures inside { IfOk result (λ x. x.1 ≤ length bytes.now) }
{
    let rest = &bytes[at..];
    if rest.len() < 16 {
        return Err(ValueFault::Short { place: bytes.len() });
    }
    Ok((guid_of(&rest[..16]), at + 16))
}

/// The form of an extended GUID's number, which the low bits of the first byte name.
#[tactic(auto, unfolding(crate::specs::IdReading::exguid_form))]
fn exguid_form(first: u8) -> Option<Form>
    ensures form { result ≡ exguid_form first }
    ensures usable { IfSome result IsUsable }
{
    if first % 8 == 4 {
        Some(Form {
            width: 1,
            shift: 3,
            least: 0,
        })
    } else if first % 64 == 32 {
        Some(Form {
            width: 2,
            shift: 6,
            least: 0x20,
        })
    } else if first % 128 == 64 {
        Some(Form {
            width: 3,
            shift: 7,
            least: 0x400,
        })
    } else if first == 128 {
        Some(Form {
            width: 5,
            shift: 8,
            least: 0x2_0000,
        })
    } else {
        None
    }
}

/// The number of an extended GUID at a place, and the place after it.
#[tactic(auto, unfolding(crate::specs::IdReading::exguid_value_at))]
fn exguid_value_at(bytes: &[u8], at: usize) -> Result<(u64, usize), ValueFault>
    requires { at ≤ length bytes.now }
    ensures exact { result ≡ answer_at (length bytes.now) at (exguid_value_at (drop at bytes.now)) }
    ensures inside { IfOk result (λ x. x.1 ≤ length bytes.now) }
{
    match bytes[at..].first() {
        None => Err(ValueFault::Short { place: bytes.len() }),
        Some(first) => match exguid_form(*first) {
            Some(form) => read_field(bytes, at, form),
            None => Err(ValueFault::OutOfForm { place: at }),
        },
    }
}

/// The number and the GUID of an extended GUID that isn't null, and the place after it.
fn id_at(bytes: &[u8], at: usize) -> Result<((u64, Guid), usize), ValueFault>
    requires { at ≤ length bytes.now }
    ensures exact { result ≡ answer_at (length bytes.now) at (read_both exguid_value_at guid_at (drop at bytes.now)) }
    ensures inside { IfOk result (λ x. x.1 ≤ length bytes.now) }
    ensures below { IfOk result (λ x. x.0.0 < 2 ^ 32) }
{
    let (value, next) = exguid_value_at(bytes, at)?;
    let (guid, next) = guid_at(bytes, next)?;
    Ok(((value, guid), next))
}

#[tactic(auto, unfolding(crate::specs::IdReading::null_or, crate::specs::IdReading::exguid_at))]
fn exguid_at(bytes: &[u8], at: usize) -> Result<(ExGuid, usize), ValueFault>
    requires { at ≤ length bytes.now }
    ensures exact { result ≡ answer_at (length bytes.now) at (exguid_at (drop at bytes.now)) }
    ensures inside { IfOk result (λ x. x.1 ≤ length bytes.now) }
{
    match bytes[at..].first() {
        None => Err(ValueFault::Short { place: bytes.len() }),
        Some(0) => Ok((ExGuid::Null, at + 1)),
        Some(_) => {
            let ((value, guid), next) = id_at(bytes, at)?;
            let value = value as u32;
            Ok((ExGuid::Id { guid, value }, next))
        }
    }
}

/// Reads the GUID at a place, and gives the place after it. It is only ever short, since all 16 bytes are a GUID.
pub fn read_guid(bytes: &[u8], at: usize) -> Result<(Guid, usize), ValueFault>
    requires { at ≤ length bytes.now }
    // Ok comes exactly for a spelling, which is then within the input.
    ensures found { IsFoundAt SpellsGuid bytes.now at result }
    ensures inside { IfOk result (λ x. x.1 ≤ length bytes.now) }
    // Short comes exactly where the input ends inside one.
    ensures short { IsShortAt SpellsGuid bytes.now at result }
    ensures exact { result ≡ answer_at (length bytes.now) at (guid_at (drop at bytes.now)) }
{
    guid_at(bytes, at)
}

/// Reads the extended GUID at a place, and gives the place after it.
pub fn read_exguid(bytes: &[u8], at: usize) -> Result<(ExGuid, usize), ValueFault>
    requires { at ≤ length bytes.now }
    // Ok comes exactly for a spelling, which is then within the input.
    ensures found { IsFoundAt SpellsExGuid bytes.now at result }
    ensures inside { IfOk result (λ x. x.1 ≤ length bytes.now) }
    // Short comes exactly where the input ends inside one.
    ensures short { IsShortAt SpellsExGuid bytes.now at result }
    // OutOfForm comes exactly where neither is so.
    ensures out_of_form { IsOutOfFormAt SpellsExGuid bytes.now at result }
    // The same as a function of the bytes, for readers that go on behind it.
    ensures exact { result ≡ answer_at (length bytes.now) at (exguid_at (drop at bytes.now)) }
    // It takes no memory.
    ensures memory { result ≢ Err faults.NoMemory }
{
    exguid_at(bytes, at)
}

/// Adds the 16 bytes of the GUID at the end. Without memory nothing is added.
pub fn write_guid(out: &mut Octets, guid: Guid) -> Result<(), NoMemory>
    ensures ok { OnOk result (out.new ≡ out.old ++ guid_spelling guid) }
    ensures err { OnErr result (out.new ≡ out.old) }
{
    out.extend_from_slice(&guid_bytes(guid))
}

/// Adds the number of an extended GUID in its field.
fn write_value(out: &mut Octets, value: u32) -> Result<(), NoMemory>
    ensures ok { OnOk result (out.new ≡ out.old ++ exguid_value value) }
    ensures err { OnErr result (out.new ≡ out.old) }
{
    let wide = u64::from(value);
    match value {
        ..=0x1F => append_low_bytes(out, 8 * wide + 4, 1),
        ..=0x3FF => append_low_bytes(out, 64 * wide + 32, 2),
        ..=0x1_FFFF => append_low_bytes(out, 128 * wide + 64, 3),
        _ => append_low_bytes(out, 256 * wide + 128, 5),
    }
}

/// Adds the spelling of the extended GUID at the end. Without memory nothing is added.
pub fn write_exguid(out: &mut Octets, value: &ExGuid) -> Result<(), NoMemory>
    ensures ok { OnOk result (out.new ≡ out.old ++ exguid value.now) }
    ensures err { OnErr result (out.new ≡ out.old) }
{
    match *value {
        ExGuid::Null => out.push(0),
        ExGuid::Id { guid, value } => {
            let before = out.len();
            write_value(out, value)?;
            let written = write_guid(out, guid);
            if written.is_err() {
                out.truncate(before);
            }
            written
        }
    }
}
