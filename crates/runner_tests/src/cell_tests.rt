// Cells and their binary requests: what is run, what isn't, and what is said of each.
use crate::test_documents::Change;
use crate::test_envelopes::{Asked, Exchange, Sub, Told, play};
use crate::test_host::{Fault, Host};
use envelope_read::EnvelopeFault;
use std::test::Fail;

const ANN: Told = Told::Data("<SubResponseData UserName='ann' UserLogin='ann'/>");

/// The partition of the editors, which isn't served, and the follower of one that isn't served either; one that follows in
/// vain, and its follower.
const PARTITIONS: [Sub; 5] = [
    (
        "1",
        "Cell",
        "",
        Asked::Cell(
            "PartitionID='{7808F4DD-2385-49D6-B7CE-37ACA5E43602}'",
            "Q 16 02 06 00 03 03 00 0B 01 P",
        ),
        "CellRequestFail",
        Told::Cell("F 6E 02 20 00 E 32 03 08 00 03 00 00 00 37 01 8B 01"),
    ),
    (
        "2",
        "ServerTime",
        "",
        Asked::Nothing,
        "RequestNotSupported",
        Told::Nothing,
    ),
    (
        "3",
        "WhoAmI",
        "DependsOn='2' DependencyType='OnNotSupported'",
        Asked::Nothing,
        "Success",
        ANN,
    ),
    (
        "4",
        "WhoAmI",
        "DependsOn='3' DependencyType='OnFail'",
        Asked::Nothing,
        "DependentOnlyOnFailRequestSucceeded",
        Told::Nothing,
    ),
    (
        "5",
        "WhoAmI",
        "DependsOn='4' DependencyType='OnFail'",
        Asked::Nothing,
        "DependentRequestNotExecuted",
        Told::Nothing,
    ),
];

/// Who asks, 1,000 numbers for the caller, and a Type that isn't served.
const DRAWN: [Sub; 3] = [
    ("1", "WhoAmI", "", Asked::Nothing, "Success", ANN),
    (
        "2",
        "Cell",
        "",
        Asked::Value("", "DAALAJzPKfM5lAabBgIAABYCBgADFwACBAYAog8ACwGsAgBVAwE="),
        "Success",
        Told::Data(
            "<SubResponseData>DAALAJ3PKfM5lAabFgMCAACsAgBVDgIGAAMXAAoEJgAzIhEAVUR3ZoiZqrvM3e7/A6IPBwGLAQ==</SubResponseData>",
        ),
    ),
    (
        "3",
        "ServerTime",
        "",
        Asked::Nothing,
        "RequestNotSupported",
        Told::Nothing,
    ),
];

/// The zero GUID is the content's partition, and each of these has access.
const CONTENT: [Sub; 2] = [
    (
        "1",
        "Cell",
        "",
        Asked::Cell("PartitionID='~00'", "Q 16 02 06 00 03 03 00 0B 01 P"),
        "Success",
        Told::Cell(
            "R 0E 02 06 00 03 03 00 1E 02 00 00 6E 02 20 00 H 92 02 08 00 00 00 00 00 37 01 0F 01 36 02 00 00 6E 02 20 00 H 92 02 08 00 00 00 00 00 37 01 1B 01 07 01 8B 01",
        ),
    ),
    (
        "2",
        "Cell",
        "",
        Asked::Many("16 02 06 00 03 03 00 0B 01", 64),
        "Success",
        Told::Many(
            "0E 02 06 00 03 03 00 1E 02 00 00 6E 02 20 00 H 92 02 08 00 00 00 00 00 37 01 0F 01 36 02 00 00 6E 02 20 00 H 92 02 08 00 00 00 00 00 37 01 1B 01 07 01",
            64,
        ),
    ),
];

/// No request: nothing, a byte too many, 65 sub-requests, and five puts. None of its sub-requests is run.
const NO_REQUEST: [Sub; 5] = [
    (
        "1",
        "Cell",
        "",
        Asked::Data(""),
        "CellRequestFail",
        Told::Cell("F 6E 02 20 00 E 32 03 08 00 12 00 00 00 37 01 8B 01"),
    ),
    (
        "2",
        "Cell",
        "",
        Asked::Cell("", "Q 16 02 06 00 03 17 00 02 04 06 00 A2 0F 00 0B 01 P 00"),
        "CellRequestFail",
        Told::Cell("F 6E 02 20 00 E 32 03 08 00 12 00 00 00 37 01 8B 01"),
    ),
    (
        "3",
        "Cell",
        "",
        Asked::Many("16 02 06 00 03 17 00 02 04 06 00 A2 0F 00 0B 01", 65),
        "CellRequestFail",
        Told::Cell("F 6E 02 20 00 E 32 03 08 00 12 00 00 00 37 01 8B 01"),
    ),
    (
        "4",
        "Cell",
        "",
        Asked::Many("16 02 06 00 03 0B 00 D2 02 06 00 00 00 00 0B 01", 5),
        "CellRequestFail",
        Told::Cell("F 6E 02 20 00 E 32 03 08 00 12 00 00 00 37 01 8B 01"),
    ),
    (
        "5",
        "Cell",
        "",
        Asked::Cell("", "Q 16 02 06 00 03 17 00 02 04 06 00 A2 0F 00 0B 01 P"),
        "Success",
        Told::Cell("R 0E 02 06 00 03 17 00 0A 04 26 00 G 03 A2 0F 07 01 8B 01"),
    ),
];

/// Four puts of an index that isn't there, and a request of nothing.
const FOUR_PUTS: [Sub; 2] = [
    (
        "1",
        "Cell",
        "",
        Asked::Many("16 02 06 00 03 0B 00 D2 02 06 00 00 00 00 0B 01", 4),
        "CellRequestFail",
        Told::Many(
            "0E 02 06 00 03 0B 01 6E 02 20 00 E 32 03 08 00 10 00 00 00 37 01 07 01",
            4,
        ),
    ),
    (
        "2",
        "Cell",
        "",
        Asked::Cell("", "Q P"),
        "Success",
        Told::Cell("R 8B 01"),
    ),
];

/// Under the lock of another: a draw, a put of nothing, a kind that isn't known, and a draw again. The first that fails is
/// said, and the others are run.
const FIRST_FAILURE: [Sub; 3] = [
    (
        "1",
        "ExclusiveLock",
        "",
        Asked::Data("ExclusiveLockRequestType='GetLock' ExclusiveLockID='~10'"),
        "Success",
        Told::Data(
            "<SubResponseData LockType='ExclusiveLock' CoauthStatus='None' TransitionID='00112233-4455-6677-8899-aabbccddeeff'/>",
        ),
    ),
    (
        "2",
        "Cell",
        "",
        Asked::Cell(
            "",
            "Q 16 02 06 00 03 17 00 02 04 06 00 A2 0F 00 0B 01 16 02 06 00 05 0B 00 D2 02 06 00 00 00 00 0B 01 16 02 06 00 07 0D 00 0B 01 16 02 06 00 09 17 00 02 04 06 00 A2 0F 00 0B 01 P",
        ),
        "FileAlreadyLockedOnServer",
        Told::Cell(
            "R 0E 02 06 00 03 17 00 0A 04 26 00 G 03 A2 0F 07 01 0E 02 06 00 05 0B 01 6E 02 20 00 E 32 03 08 00 E9 03 00 00 37 01 07 01 0E 02 06 00 07 0D 01 6E 02 20 00 E 32 03 08 00 04 00 00 00 37 01 07 01 0E 02 06 00 09 17 00 0A 04 28 00 G A6 0F 42 1F 07 01 8B 01",
        ),
    ),
    (
        "3",
        "Cell",
        "",
        Asked::Cell(
            "",
            "Q 16 02 06 00 03 0D 00 0B 01 16 02 06 00 05 0B 00 D2 02 06 00 00 00 00 0B 01 P",
        ),
        "CellRequestFail",
        Told::Cell(
            "R 0E 02 06 00 03 0D 01 6E 02 20 00 E 32 03 08 00 04 00 00 00 37 01 07 01 0E 02 06 00 05 0B 01 6E 02 20 00 E 32 03 08 00 E9 03 00 00 37 01 07 01 8B 01",
        ),
    ),
];

#[test]
fn what_is_not_served_is_said(rt: HostRuntime) -> Result<(), Fail> {
    play(&rt, rt.alloc(), PARTITIONS.as_slice())
}

#[test]
fn numbers_are_drawn(rt: HostRuntime) -> Result<(), Fail> {
    play(&rt, rt.alloc(), DRAWN.as_slice())
}

#[test]
fn a_cell_has_at_most_64_sub_requests(rt: HostRuntime) -> Result<(), Fail> {
    play(&rt, rt.alloc(), CONTENT.as_slice())
}

#[test]
fn nothing_is_run_of_what_is_no_request(rt: HostRuntime) -> Result<(), Fail> {
    play(&rt, rt.alloc(), NO_REQUEST.as_slice())
}

#[test]
fn a_cell_has_at_most_four_puts(rt: HostRuntime) -> Result<(), Fail> {
    play(&rt, rt.alloc(), FOUR_PUTS.as_slice())
}

#[test]
fn the_first_failure_is_said(rt: HostRuntime) -> Result<(), Fail> {
    play(&rt, rt.alloc(), FIRST_FAILURE.as_slice())
}

/// As an Office client writes it: GUIDs in braces, attributes that mean nothing here, and in the binary request a user agent
/// and filters of the query, which are skipped.
const OFFICE: [Sub; 2] = [
    (
        "1",
        "Coauth",
        "SubRequestToken='3' xsi:type='tns:CoauthSubRequestType'",
        Asked::Data(
            "CoauthRequestType='JoinCoauthoring' SchemaLockID='{~20}' ClientID='{~30}' AllowFallbackToExclusive='true' ReleaseLockOnConversionToExclusiveFailure='false' Timeout='3600' BinaryDataSize='128'",
        ),
        "Success",
        Told::Data(
            "<SubResponseData LockType='SchemaLock' CoauthStatus='Alone' TransitionID='00112233-4455-6677-8899-aabbccddeeff'/>",
        ),
    ),
    (
        "2",
        "Cell",
        "DependsOn='1' DependencyType='OnSuccess'",
        Asked::Cell(
            "GetFileProps='true' BinaryDataSize='97' PartitionID='{~00}' SchemaLockID='{~20}'",
            "Q EE 02 00 00 AA 02 20 00 G 7A 02 08 00 00 00 00 10 77 01 16 02 06 00 03 05 00 8E 02 04 00 00 00 46 02 04 00 01 01 3A 02 02 00 01 23 01 47 01 0B 01 P",
        ),
        "Success",
        Told::Cell(
            "R 0E 02 06 00 03 05 00 FA 02 04 00 00 00 84 00 26 02 20 00 K A4 00 51 13 01 41 07 01 8B 01",
        ),
    ),
];

#[test]
fn what_means_nothing_is_skipped(rt: HostRuntime) -> Result<(), Fail> {
    let alloc = rt.alloc();
    let mut host = Host::new(alloc)?;
    let mut exchange = Exchange::new(alloc)?;
    exchange.add("http://h/Shared%20Documents/a.docx", "1", OFFICE.as_slice())?;
    exchange.check(&rt, &mut host, 0, Change::Done)
}

#[test]
fn an_envelope_with_other_than_base64_is_refused(rt: HostRuntime) -> Result<(), Fail> {
    let mut host = Host::new(rt.alloc())?;
    let text =
        b"<Envelope><Body><RequestCollection><Request Url='/a.docx'><SubRequest Type='WhoAmI'/><SubRequest Type='Cell'><SubRequestData>DAA?</SubRequestData></SubRequest></Request></RequestCollection></Body></Envelope>";
    match host.run(0, Change::Done, text) {
        Ok(_) => assert!(rt; false),
        Err(fault) => { assert!(rt; fault == Fault::Envelope(EnvelopeFault::BadBase64 { sub: 1 })) }
    }
    Ok(())
}
