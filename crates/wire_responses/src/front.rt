// The front of a response: its versions and its signature (MS-FSSHTTPB 2.2.3).
ghost use Rattle.std.specs.Prelude.{◌≤◌, ◌↔◌, length, IsTrue};
ghost use Rattle.doc_model.specs.wire.SeenResponses.{HasVersions, HasSignature};

/// Whether the versions are there, and those of responses.
pub fn has_versions(bytes: &[u8]) -> bool
    ensures { IsTrue result ↔ HasVersions bytes.now }
{
    if bytes.len() < 12 {
        return false;
    }
    bytes[0..4] == [0x0C, 0x00, 0x0B, 0x00]
}

/// Whether the signature stands behind the versions.
pub fn has_signature(bytes: &[u8]) -> bool
    requires { 12 ≤ length bytes.now }
    ensures { IsTrue result ↔ HasSignature bytes.now }
{
    bytes[4..12] == [0x9D, 0xCF, 0x29, 0xF3, 0x39, 0x94, 0x06, 0x9B]
}
