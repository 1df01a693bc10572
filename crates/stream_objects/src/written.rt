//! Objects as they are written, one behind the other.

ghost use Rattle.std.specs.Prelude.{◌≡◌, ◌++◌, ◌≤◌, OnOk, OnErr};
ghost use Rattle.stream_objects.specs.Written.{started};

use crate::headers::start;
use compact_values::{NoMemory, Octets};

/// Adds the start header of an object and its fields. Without memory nothing is added.
#[tactic(auto, unfolding(crate::specs::Written::started))]
pub fn begin(out: &mut Octets, kind: u16, compound: bool, fields: &[u8]) -> Result<(), NoMemory>
    requires { kind ≤ 16383 }
    ensures ok { OnOk result (out.new ≡ out.old ++ started kind compound fields.now) }
    ensures err { OnErr result (out.new ≡ out.old) }
{
    let before = out.len();
    start(out, kind, compound, fields.len() as u64)?;
    match out.extend_from_slice(fields) {
        Ok(()) => Ok(()),
        Err(NoMemory) => {
            out.truncate(before);
            Err(NoMemory)
        }
    }
}
