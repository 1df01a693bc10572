// The lock of a document, and its coauthors.
use crate::test_envelopes::{Asked, Step, Sub, Told, play, play_steps};
use crate::test_saves::File;
use std::test::Fail;

const FIRST: File = File { byte: 0xA };

const SECOND: File = File { byte: 0xB };

const EXCLUSIVE: Told = Told::Data(
    "<SubResponseData LockType='ExclusiveLock' CoauthStatus='None' TransitionID='00112233-4455-6677-8899-aabbccddeeff'/>",
);

const ALONE: Told = Told::Data(
    "<SubResponseData LockType='SchemaLock' CoauthStatus='Alone' TransitionID='00112233-4455-6677-8899-aabbccddeeff'/>",
);

const SEVERAL: Told = Told::Data(
    "<SubResponseData LockType='SchemaLock' CoauthStatus='Coauthoring' TransitionID='00112233-4455-6677-8899-aabbccddeeff'/>",
);

/// A put is refused with the number of a lock.
const LOCKED: Told = Told::Failed("0B", 1001);

/// A put of the document's first elements, and one of those behind.
const FIRST_STORED: Told = Told::Cell(
    "R 0E 02 06 00 03 0B 00 84 00 26 02 20 00 K A4 00 78 24 G 03 0B 51 13 01 41 07 01 8B 01",
);

const SECOND_STORED: Told = Told::Cell(
    "R 0E 02 06 00 03 0B 00 84 00 26 02 20 00 K A4 00 78 24 G 0D 15 51 13 01 41 07 01 8B 01",
);

/// A lock until 1000. Only who has its id puts before that.
const PUTS: [Step; 6] = [
    (
        940,
        "ExclusiveLock",
        Asked::Data("ExclusiveLockRequestType='GetLock' ExclusiveLockID='~10' Timeout='60'"),
        "Success",
        EXCLUSIVE,
    ),
    (
        999,
        "Cell",
        Asked::Save("", FIRST, None, 0),
        "FileAlreadyLockedOnServer",
        LOCKED,
    ),
    (
        999,
        "Cell",
        Asked::Save("ExclusiveLockID='~11'", FIRST, None, 0),
        "FileAlreadyLockedOnServer",
        LOCKED,
    ),
    (
        999,
        "Cell",
        Asked::Save("ExclusiveLockID='~10'", FIRST, None, 0),
        "Success",
        FIRST_STORED,
    ),
    (
        999,
        "Cell",
        Asked::Save("", SECOND, Some(FIRST), 0),
        "FileAlreadyLockedOnServer",
        LOCKED,
    ),
    (
        1000,
        "Cell",
        Asked::Save("", SECOND, Some(FIRST), 0),
        "Success",
        SECOND_STORED,
    ),
];

/// A lock until 1000, then until 1059.
const REFRESHED: [Step; 4] = [
    (
        940,
        "ExclusiveLock",
        Asked::Data("ExclusiveLockRequestType='GetLock' ExclusiveLockID='~10' Timeout='60'"),
        "Success",
        EXCLUSIVE,
    ),
    (
        999,
        "ExclusiveLock",
        Asked::Data("ExclusiveLockRequestType='RefreshLock' ExclusiveLockID='~10' Timeout='60'"),
        "Success",
        EXCLUSIVE,
    ),
    (
        1058,
        "ExclusiveLock",
        Asked::Data("ExclusiveLockRequestType='GetLock' ExclusiveLockID='~11' Timeout='60'"),
        "FileAlreadyLockedOnServer",
        Told::Nothing,
    ),
    (
        1059,
        "ExclusiveLock",
        Asked::Data("ExclusiveLockRequestType='CheckLockAvailability' ExclusiveLockID='~11'"),
        "Success",
        Told::Nothing,
    ),
];

#[test]
fn a_lock_keeps_others_from_putting(rt: HostRuntime) -> Result<(), Fail> {
    play_steps(&rt, rt.alloc(), PUTS.as_slice())
}

#[test]
fn a_lock_is_refreshed(rt: HostRuntime) -> Result<(), Fail> {
    play_steps(&rt, rt.alloc(), REFRESHED.as_slice())
}

/// Clients 30, 31 and 32, the first two under the schema lock 20.
const COAUTHORS: [Sub; 9] = [
    (
        "1",
        "Coauth",
        "",
        Asked::Data("CoauthRequestType='JoinCoauthoring' SchemaLockID='~20' ClientID='~30'"),
        "Success",
        ALONE,
    ),
    (
        "2",
        "Coauth",
        "",
        Asked::Data("CoauthRequestType='JoinCoauthoring' SchemaLockID='~20' ClientID='~31'"),
        "Success",
        SEVERAL,
    ),
    (
        "3",
        "Coauth",
        "",
        Asked::Data(
            "CoauthRequestType='ConvertToExclusive' SchemaLockID='~20' ClientID='~30' ExclusiveLockID='~10'",
        ),
        "MultipleClientsInCoauthSession",
        Told::Nothing,
    ),
    (
        "4",
        "Coauth",
        "",
        Asked::Data("CoauthRequestType='GetCoauthoringStatus' SchemaLockID='~20' ClientID='~30'"),
        "Success",
        SEVERAL,
    ),
    (
        "5",
        "Coauth",
        "",
        Asked::Data(
            "CoauthRequestType='ConvertToExclusive' SchemaLockID='~20' ClientID='~30' ExclusiveLockID='~10' ReleaseLockOnConversionToExclusiveFailure='true'",
        ),
        "ExitCoauthSessionAsConvertToExclusiveFailed",
        Told::Nothing,
    ),
    (
        "6",
        "Coauth",
        "",
        Asked::Data("CoauthRequestType='GetCoauthoringStatus' SchemaLockID='~20' ClientID='~31'"),
        "Success",
        ALONE,
    ),
    (
        "7",
        "Coauth",
        "",
        Asked::Data("CoauthRequestType='RefreshCoauthoring' SchemaLockID='~20' ClientID='~30'"),
        "FileNotLockedOnServer",
        Told::Nothing,
    ),
    (
        "8",
        "Coauth",
        "",
        Asked::Data("CoauthRequestType='JoinCoauthoring' SchemaLockID='~21' ClientID='~32'"),
        "FileAlreadyLockedOnServer",
        Told::Nothing,
    ),
    (
        "9",
        "Coauth",
        "",
        Asked::Data(
            "CoauthRequestType='ConvertToExclusive' SchemaLockID='~20' ClientID='~31' ExclusiveLockID='~10'",
        ),
        "Success",
        EXCLUSIVE,
    ),
];

#[test]
fn the_last_coauthor_converts(rt: HostRuntime) -> Result<(), Fail> {
    play(&rt, rt.alloc(), COAUTHORS.as_slice())
}
