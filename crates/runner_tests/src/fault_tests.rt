// Calls that can't be kept: each kind of change with each fault. What only reads goes on, unless there is no memory.
use crate::test_documents::Change;
use crate::test_envelopes::{Asked, Sub, Told, play_changing};
use crate::test_host::Host;
use crate::test_saves::File;
use std::alloc::Global;
use std::process::Abort;
use std::test::Fail;

type Changing<'a> = (&'a str, Asked<'a>, &'a str);

type Reading<'a> = (&'a str, Asked<'a>, &'a str, Told<'a>);

/// What may change a document: its Type and what it asks, and of a Cell the kind of its sub-request.
const CHANGES: [Changing; 12] = [
    (
        "ExclusiveLock",
        Asked::Data("ExclusiveLockRequestType='GetLock' ExclusiveLockID='~10'"),
        "",
    ),
    (
        "ExclusiveLock",
        Asked::Data("ExclusiveLockRequestType='ReleaseLock' ExclusiveLockID='~10'"),
        "",
    ),
    (
        "SchemaLock",
        Asked::Data("SchemaLockRequestType='GetLock' SchemaLockID='~20' ClientID='~30'"),
        "",
    ),
    (
        "Coauth",
        Asked::Data("CoauthRequestType='JoinCoauthoring' SchemaLockID='~20' ClientID='~30'"),
        "",
    ),
    (
        "Coauth",
        Asked::Data("CoauthRequestType='ExitCoauthoring' SchemaLockID='~20' ClientID='~30'"),
        "",
    ),
    (
        "EditorsTable",
        Asked::Data("EditorsTableRequestType='JoinEditingSession' ClientID='~30'"),
        "",
    ),
    (
        "EditorsTable",
        Asked::Value(
            "EditorsTableRequestType='UpdateEditorMetadata' ClientID='~30' Key='1'",
            "AQID",
        ),
        "",
    ),
    (
        "Versioning",
        Asked::Data("VersioningRequestType='RestoreVersion' Version='1'"),
        "",
    ),
    ("Cell", Asked::Save("", File { byte: 0xA }, None, 0), "0B"),
    (
        "Cell",
        Asked::Save(
            "SchemaLockID='~20'",
            File { byte: 0xB },
            Some(File { byte: 0xA }),
            128,
        ),
        "0B",
    ),
    (
        "Cell",
        Asked::Cell("", "Q 16 02 06 00 03 17 00 02 04 06 00 A2 0F 00 0B 01 P"),
        "17",
    ),
    (
        "Cell",
        Asked::Cell("", "Q 16 02 06 00 03 17 00 02 04 04 00 00 00 0B 01 P"),
        "17",
    ),
];

/// What only reads: its Type and what it asks, and of a Cell the kind of its sub-request; and what is told.
const READS: [Reading; 7] = [
    (
        "ExclusiveLock",
        Asked::Data("ExclusiveLockRequestType='CheckLockAvailability' ExclusiveLockID='~10'"),
        "",
        Told::Nothing,
    ),
    (
        "SchemaLock",
        Asked::Data("SchemaLockRequestType='CheckLockAvailability' SchemaLockID='~20'"),
        "",
        Told::Nothing,
    ),
    (
        "Versioning",
        Asked::Data("VersioningRequestType='GetVersionList'"),
        "",
        Told::Data("<SubResponseData><Versions></Versions></SubResponseData>"),
    ),
    (
        "AmIAlone",
        Asked::Nothing,
        "",
        Told::Data("<SubResponseData AmIAlone='True'/>"),
    ),
    (
        "WhoAmI",
        Asked::Nothing,
        "",
        Told::Data("<SubResponseData UserName='ann' UserLogin='ann'/>"),
    ),
    (
        "Cell",
        Asked::Cell("", "Q 16 02 06 00 03 03 00 0B 01 P"),
        "03",
        Told::Cell(
            "R 0E 02 06 00 03 03 00 1E 02 00 00 6E 02 20 00 H 92 02 08 00 00 00 00 00 37 01 0F 01 36 02 00 00 6E 02 20 00 H 92 02 08 00 00 00 00 00 37 01 1B 01 07 01 8B 01",
        ),
    ),
    (
        "Cell",
        Asked::Cell("", "Q 16 02 06 00 03 05 00 8A 02 02 00 00 0B 01 P"),
        "05",
        Told::Cell(
            "R 0E 02 06 00 03 05 00 FA 02 04 00 00 00 84 00 26 02 20 00 K A4 00 51 13 01 41 07 01 8B 01",
        ),
    ),
];

/// What is told of a fault with this number, of a sub-request of this kind or of none.
fn failed(kind: &str, number: u32) -> Told<'_> {
    if kind.is_empty() {
        Told::Nothing
    } else {
        Told::Failed(kind, number)
    }
}

/// Checks that one call at moment 7, whose changes end so, is answered with this word, and what is told.
fn check(
    rt: &impl Abort,
    host: &mut Host,
    change: Change,
    call: (&str, Asked),
    answer: (&str, Told),
) -> Result<(), Fail> {
    let (kind, asked) = call;
    let (word, told) = answer;
    let sub = ("1", kind, "", asked, word, told);
    play_changing(rt, host, 7, change, &[sub])
}

/// Each of these ends with a fault, which has a word and a number.
fn all_fail(
    rt: &impl Abort,
    alloc: Global,
    change: Change,
    fault: (&str, u32),
    rows: &[Changing],
) -> Result<(), Fail> {
    let (word, number) = fault;
    let mut host = Host::new(alloc)?;
    for row in rows {
        let (kind, asked, cell) = *row;
        let answer = (word, failed(cell, number));
        check(rt, &mut host, change, (kind, asked), answer)?;
    }
    Ok(())
}

/// Each of these is answered.
fn all_go_on(rt: &impl Abort, alloc: Global, change: Change, rows: &[Reading]) -> Result<(), Fail> {
    let mut host = Host::new(alloc)?;
    for row in rows {
        let (kind, asked, _, told) = *row;
        check(rt, &mut host, change, (kind, asked), ("Success", told))?;
    }
    Ok(())
}

/// None of these is answered without memory.
fn all_stop(rt: &impl Abort, alloc: Global, rows: &[Reading]) -> Result<(), Fail> {
    let mut host = Host::new(alloc)?;
    for row in rows {
        let (kind, asked, cell, _) = *row;
        let answer = ("HighLevelExceptionThrown", failed(cell, 1004));
        check(rt, &mut host, Change::NoMemory, (kind, asked), answer)?;
    }
    Ok(())
}

#[test]
fn no_change_is_done_where_the_disk_fails(rt: HostRuntime) -> Result<(), Fail> {
    let fault = ("SubRequestFail", 1002);
    all_fail(
        &rt,
        rt.alloc(),
        Change::DiskFault,
        fault,
        CHANGES.as_slice(),
    )
}

#[test]
fn no_change_is_done_where_the_journal_is_full(rt: HostRuntime) -> Result<(), Fail> {
    let fault = ("JournalFull", 1003);
    all_fail(
        &rt,
        rt.alloc(),
        Change::JournalFull,
        fault,
        CHANGES.as_slice(),
    )
}

#[test]
fn no_change_is_done_without_memory(rt: HostRuntime) -> Result<(), Fail> {
    let fault = ("HighLevelExceptionThrown", 1004);
    all_fail(&rt, rt.alloc(), Change::NoMemory, fault, CHANGES.as_slice())
}

#[test]
fn reading_goes_on_where_the_disk_fails(rt: HostRuntime) -> Result<(), Fail> {
    all_go_on(&rt, rt.alloc(), Change::DiskFault, READS.as_slice())
}

#[test]
fn reading_goes_on_where_the_journal_is_full(rt: HostRuntime) -> Result<(), Fail> {
    all_go_on(&rt, rt.alloc(), Change::JournalFull, READS.as_slice())
}

#[test]
fn nothing_is_read_without_memory(rt: HostRuntime) -> Result<(), Fail> {
    all_stop(&rt, rt.alloc(), READS.as_slice())
}

/// Of one Cell: a draw that isn't kept, and a pull and an access that go on.
const MIXED: [Sub; 2] = [
    (
        "1",
        "Cell",
        "",
        Asked::Cell(
            "",
            "Q 16 02 06 00 03 05 00 8A 02 02 00 00 0B 01 16 02 06 00 05 17 00 02 04 06 00 A2 0F 00 0B 01 P",
        ),
        "SubRequestFail",
        Told::Cell(
            "R 0E 02 06 00 03 05 00 FA 02 04 00 00 00 84 00 26 02 20 00 K A4 00 51 13 01 41 07 01 0E 02 06 00 05 17 01 6E 02 20 00 E 32 03 08 00 EA 03 00 00 37 01 07 01 8B 01",
        ),
    ),
    (
        "2",
        "WhoAmI",
        "DependsOn='1' DependencyType='OnFail'",
        Asked::Nothing,
        "Success",
        Told::Data("<SubResponseData UserName='ann' UserLogin='ann'/>"),
    ),
];

#[test]
fn a_cell_goes_on_behind_a_fault(rt: HostRuntime) -> Result<(), Fail> {
    let mut host = Host::new(rt.alloc())?;
    play_changing(&rt, &mut host, 7, Change::DiskFault, MIXED.as_slice())
}
