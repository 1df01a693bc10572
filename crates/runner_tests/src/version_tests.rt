// The versions of a document.
use crate::test_envelopes::{Asked, Step, Told, play_on};
use crate::test_host::Host;
use crate::test_saves::File;
use std::test::Fail;

const FIRST: File = File { byte: 0xA };

const SECOND: File = File { byte: 0xB };

const THIRD: File = File { byte: 0xC };

const FOURTH: File = File { byte: 0xD };

/// A put doesn't expect the stored index.
const STALE: Told = Told::Failed("0B", 12);

/// The flag of a put that wins over the one before.
const LAST_WRITER_WINS: u8 = 128;

/// Three saves, the last of which wins; versions that aren't there, and a restore of the first.
const VERSIONS: [Step; 10] = [
    (
        10,
        "Cell",
        Asked::Save("", FIRST, None, 0),
        "Success",
        Told::Cell(
            "R 0E 02 06 00 03 0B 00 84 00 26 02 20 00 K A4 00 78 24 G 03 0B 51 13 01 41 07 01 8B 01",
        ),
    ),
    (
        20,
        "Cell",
        Asked::Save("", SECOND, Some(FIRST), 0),
        "Success",
        Told::Cell(
            "R 0E 02 06 00 03 0B 00 84 00 26 02 20 00 K A4 00 78 24 G 0D 15 51 13 01 41 07 01 8B 01",
        ),
    ),
    (
        25,
        "Cell",
        Asked::Save("", THIRD, Some(FIRST), 0),
        "CellRequestFail",
        STALE,
    ),
    (
        30,
        "Cell",
        Asked::Save("", THIRD, Some(FIRST), LAST_WRITER_WINS),
        "Success",
        Told::Cell(
            "R 0E 02 06 00 03 0B 00 84 00 26 02 20 00 K A4 00 78 24 G 17 1F 51 13 01 41 07 01 8B 01",
        ),
    ),
    (
        31,
        "Versioning",
        Asked::Data("VersioningRequestType='GetVersionList'"),
        "Success",
        Told::Data(
            "<SubResponseData><Versions><Version Number='1' Moment='10' User='ann'/><Version Number='2' Moment='20' User='ann'/><Version Number='3' Moment='30' User='ann'/></Versions></SubResponseData>",
        ),
    ),
    (
        32,
        "Versioning",
        Asked::Data("VersioningRequestType='RestoreVersion' Version='0'"),
        "VersionNotFound",
        Told::Nothing,
    ),
    (
        32,
        "Versioning",
        Asked::Data("VersioningRequestType='RestoreVersion' Version='4'"),
        "VersionNotFound",
        Told::Nothing,
    ),
    (
        40,
        "Versioning",
        Asked::Data("VersioningRequestType='RestoreVersion' Version='1'"),
        "Success",
        Told::Nothing,
    ),
    (
        41,
        "Versioning",
        Asked::Data("VersioningRequestType='GetVersionList'"),
        "Success",
        Told::Data(
            "<SubResponseData><Versions><Version Number='1' Moment='10' User='ann'/><Version Number='2' Moment='20' User='ann'/><Version Number='3' Moment='30' User='ann'/><Version Number='4' Moment='40' User='ann'/></Versions></SubResponseData>",
        ),
    ),
    (
        42,
        "Cell",
        Asked::Save("", FOURTH, Some(FIRST), 0),
        "CellRequestFail",
        STALE,
    ),
];

#[test]
fn a_version_is_restored_under_a_new_number(rt: HostRuntime) -> Result<(), Fail> {
    let mut host = Host::new(rt.alloc())?;
    play_on(&rt, &mut host, VERSIONS.as_slice())?;
    let file = host.file()?;
    assert!(rt; file.as_slice() == [FIRST.byte].as_slice());
    Ok(())
}
