// The front of a request: its versions and its signature (MS-FSSHTTPB 2.2.2).
ghost use Rattle.std.specs.Prelude.{◌≡◌, ◌≤◌, ◌↔◌, length, IsTrue};
ghost use Rattle.doc_model.specs.wire.Fronts.{HasVersions, HasSignature};

use compact_values::number_of;

// Whether the versions are there and in range.
pub fn has_versions(bytes: &[u8]) -> bool
    ensures { IsTrue result ↔ HasVersions bytes.now }
{
    if bytes.len() < 12 {
        return false;
    }
    let version = number_of(&bytes[0..2]);
    let least = number_of(&bytes[2..4]);
    12 <= version && version <= 14 && least <= 12
}

// Whether the signature stands behind the versions.
pub fn has_signature(bytes: &[u8]) -> bool
    requires { 12 ≤ length bytes.now }
    ensures { IsTrue result ↔ HasSignature bytes.now }
{
    bytes[4..12] == [0x9C, 0xCF, 0x29, 0xF3, 0x39, 0x94, 0x06, 0x9B]
}
