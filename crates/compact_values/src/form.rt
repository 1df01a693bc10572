// Numbers in fields whose low bits say in which form they are.
ghost use Rattle.std.specs.Prelude.{◌≡◌, ◌/◌, ◌^◌, ◌≤◌, length, drop, IfOk};
ghost use Rattle.compact_values.specs.Reading.{number_of, IsUsable, in_form, answer_at};

use crate::fault::ValueFault;
use crate::numbers::number_of;

/// A form of a number: how many bytes it takes, how many low bits say which form it is, and its least number.
#[derive(Clone, Copy)]
pub(crate) struct Form {
    pub(crate) width: usize,
    pub(crate) shift: u32,
    pub(crate) least: u64,
}

/// The number that bytes of this form hold.
fn number_in(form: Form, bytes: &[u8]) -> u64
    requires usable { IsUsable form }
    requires whole { length bytes.now ≡ form.width }
    ensures { result ≡ number_of bytes.now / 2 ^ form.shift }
{
    if form.width == 9 {
        number_of(&bytes[1..])
    } else {
        number_of(bytes) >> form.shift
    }
}

/// Reads a number in this form at a place, and gives the place after it.
pub(crate) fn read_field(bytes: &[u8], at: usize, form: Form) -> Result<(u64, usize), ValueFault>
    requires place { at ≤ length bytes.now }
    requires usable { IsUsable form }
    ensures exact { result ≡ answer_at (length bytes.now) at (in_form form (drop at bytes.now)) }
    ensures inside { IfOk result (λ x. x.1 ≤ length bytes.now) }
{
    let rest = &bytes[at..];
    if rest.len() < form.width {
        return Err(ValueFault::Short { place: bytes.len() });
    }
    let number = number_in(form, &rest[..form.width]);
    if number < form.least {
        return Err(ValueFault::OutOfForm { place: at });
    }
    Ok((number, at + form.width))
}
