//! Numbers as bytes, the least first.

ghost use Rattle.std.specs.Prelude.{◌≡◌, ◌++◌, ◌≤◌, ◌<◌, ◌^◌, length, OnOk, OnErr};
ghost use Rattle.compact_values.specs.Compact.{little_endian};
ghost use Rattle.compact_values.specs.Reading.{number_of};

use crate::fault::NoMemory;
use crate::seq::Octets;

/// The number that so many bytes are, the least first.
pub fn number_of(bytes: &[u8]) -> u64
    requires { length bytes.now ≤ 8 }
    ensures value { result ≡ number_of bytes.now }
    ensures below { result < 256 ^ length bytes.now }
{
    let mut wide = [0; 8];
    wide[..bytes.len()].copy_from_slice(bytes);
    u64::from_le_bytes(wide)
}

/// Adds the lowest bytes of a number at the end, the least first.
pub fn append_low_bytes(out: &mut Octets, number: u64, count: usize) -> Result<(), NoMemory>
    requires { count ≤ 8 }
    ensures ok { OnOk result (out.new ≡ out.old ++ little_endian count number) }
    ensures err { OnErr result (out.new ≡ out.old) }
{
    out.extend_from_slice(&number.to_le_bytes()[..count])
}
