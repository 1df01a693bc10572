// Bytes as base64 (RFC 4648).
ghost use Rattle.std.specs.Prelude.{◌≡◌, ◌++◌, OnOk};
ghost use Rattle.base64.specs.Engines.{standard};
ghost use Rattle.base64.specs.GeneralPurpose.{encode_of};

use base64::encoded_len;
use base64::engine::general_purpose::STANDARD;
use compact_values::NoMemory;

/// How many characters so many bytes make, or the greatest number where they are more.
pub(crate) fn base64_len(bytes: usize) -> usize {
    encoded_len(bytes, true).unwrap_or(usize::MAX)
}

/// Adds the base64 of the bytes, which the engine writes where it stands.
pub(crate) fn append_base64(out: &mut Vec<u8>, bytes: &[u8]) -> Result<(), NoMemory>
    ensures { OnOk result (out.new.items ≡ out.old.items ++ encode_of standard bytes.now) }
{
    let Some(len) = encoded_len(bytes.len(), true) else {
        return Err(NoMemory);
    };
    let before = out.len();
    let Some(end) = before.checked_add(len) else {
        return Err(NoMemory);
    };
    out.resize(end, 0)?;
    let Ok(_) = STANDARD.encode_slice(bytes, &mut out[before..]) else {
        unreachable!();
    };
    Ok(())
}
