// Numbers of 1 to 10 decimal digits.
ghost use Rattle.std.specs.Prelude.{◌≡◌, ◌≤◌, IsTrue, length};
ghost use Rattle.std.specs.List.{list_all};
ghost use Rattle.std.specs.Char.{is_ascii_digit};
ghost use Rattle.std.specs.Str.Parse.{digits_value};
ghost use Rattle.envelope_read.specs.Lookup.{is_number, number_in};

/// The number that 1 to 10 digits write.
#[tactic(auto, unfolding(crate::specs::Lookup::number_in))]
pub(crate) fn number_in(bytes: &[u8]) -> Option<u64>
    ensures { result ≡ number_in bytes.now }
{
    if is_number(bytes) {
        Some(digits(bytes))
    } else {
        None
    }
}

fn is_number(bytes: &[u8]) -> bool
    ensures { result ≡ is_number bytes.now }
{
    !bytes.is_empty() && bytes.len() <= 10 && are_digits(bytes)
}

fn are_digits(bytes: &[u8]) -> bool
    ensures { result ≡ list_all is_ascii_digit bytes.now }
{
    bytes.iter().all(|c| c.is_ascii_digit())
}

fn digits(value: &[u8]) -> u64
    requires few { length value.now ≤ 10 }
    requires digits { IsTrue (list_all is_ascii_digit value.now) }
    ensures { result ≡ digits_value 10 value.now }
{
    let mut number: u64 = 0;
    for digit in value {
        number = number * 10 + u64::from(*digit - b'0');
    }
    number
}
