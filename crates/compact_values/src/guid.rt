// GUIDs: their number, their 16 bytes in the binary format (MS-FSSHTTPB 2.2.1, MS-DTYP 2.3.4.2) and their texts.
ghost use Rattle.std.specs.Prelude.{◌≡◌, length, IfOk, Some};
ghost use Rattle.compact_values.specs.GuidBytes.{guid_bytes, guid_number};
ghost use Rattle.compact_values.specs.GuidText.{guid_in_text, text_of_guid};
ghost use Rattle.compact_values.specs.SameIds.{same_guid};

use crate::fault::NoMemory;
use crate::text::Text;
use std::alloc::Global;
use uuid::Uuid;

/// A GUID, as the number that its sixteen bytes make when they are written as in its text, the first byte highest.
#[derive(Clone, Copy, Debug, PartialEq, Eq)]
pub struct Guid {
    pub number: u128,
}

impl Guid {
    /// Whether it is the same GUID.
    pub fn is(self, other: Guid) -> bool
        ensures { result ≡ same_guid self other }
    {
        self.number == other.number
    }
}

/// The 16 bytes of a GUID: the first field's 4 bytes, the second's 2 and the third's 2, each least byte first, then the
/// last 8 bytes in order.
pub fn guid_bytes(guid: Guid) -> [u8; 16]
    ensures { result ≡ guid_bytes guid.number }
{
    let [a, b, c, d, e, f, g, h, i, j, k, l, m, n, o, p] = guid.number.to_be_bytes();
    [d, c, b, a, f, e, h, g, i, j, k, l, m, n, o, p]
}

/// The GUID of 16 bytes.
pub fn guid_of(bytes: &[u8]) -> Guid
    requires { length bytes.now ≡ 16 }
    ensures bytes { guid_bytes result.number ≡ bytes.now }
    ensures value { result ≡ record { number = guid_number bytes.now } }
{
    let b = bytes;
    let number = u128::from_be_bytes([
        b[3], b[2], b[1], b[0], b[5], b[4], b[7], b[6], b[8], b[9], b[10], b[11], b[12], b[13],
        b[14], b[15],
    ]);
    Guid { number }
}

/// The GUID that a text spells, in any of the four forms that `uuid` reads: 32 digits, with hyphens, in braces, or as a
/// URN. None exactly where it is in none of them. It takes no memory.
pub fn guid_of_text(text: &str) -> Option<Guid>
    ensures { result ≡ guid_in_text text.now }
{
    match Uuid::parse_str(text) {
        Ok(uuid) => Some(Guid {
            number: uuid.as_u128(),
        }),
        Err(_) => None,
    }
}

/// The text of the GUID with this number.
fn number_text(alloc: Global, number: u128) -> Result<Text, NoMemory>
    ensures text { IfOk result (λ text. text ≡ text_of_guid (record { number = number })) }
    ensures back { IfOk result (λ text. guid_in_text text ≡ Some (record { number = number })) }
{
    let mut buffer = Uuid::encode_buffer();
    let uuid = Uuid::from_u128(number);
    let text = uuid.hyphenated().encode_lower(&mut buffer);
    Text::from_str(alloc, text)
}

/// The text of a GUID: 36 characters, with hyphens and lower-case digits, which `guid_of_text` reads back.
pub fn guid_text(alloc: Global, guid: Guid) -> Result<Text, NoMemory>
    ensures text { IfOk result (λ text. text ≡ text_of_guid guid) }
    ensures back { IfOk result (λ text. guid_in_text text ≡ Some guid) }
{
    number_text(alloc, guid.number)
}
