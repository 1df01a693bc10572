// Each attribute absent, twice, empty, in no form, and out of its range.
use crate::test_envelopes::{C, CLIENT, EXCLUSIVE, S, SCHEMA, Wanted, X, asks};
use compact_values::Guid;
use doc_model::LockStep;
use envelope_read::EnvelopeFault;

const ANOTHER: Guid = Guid { number: 4 };

const ZERO: &str = "'00000000-0000-0000-0000-000000000000'";

fn take(timeout: u64) -> Wanted<'static> {
    Wanted::Lock(LockStep::TakeExclusive { id: X, timeout })
}

fn join() -> Wanted<'static> {
    Wanted::Lock(LockStep::TakeShared {
        schema: S,
        client: C,
        timeout: 3600,
        coauthor: true,
    })
}

#[test]
fn ids_of_locks_and_clients(rt: HostRuntime) -> Result<(), EnvelopeFault> {
    for (kind, word, attributes, wanted) in [
        (
            "ExclusiveLock",
            "GetLock",
            ["", "", ""],
            Wanted::BadArgument,
        ),
        (
            "ExclusiveLock",
            "GetLock",
            ["ExclusiveLockID=''", "", ""],
            Wanted::BadArgument,
        ),
        (
            "ExclusiveLock",
            "GetLock",
            [
                "ExclusiveLockID='{00000000-0000-0000-0000-00000000001}'",
                "",
                "",
            ],
            Wanted::BadArgument,
        ),
        (
            "ExclusiveLock",
            "GetLock",
            [EXCLUSIVE, "ExclusiveLockID='x'", ""],
            take(3600),
        ),
        (
            "ExclusiveLock",
            "GetLock",
            ["ExclusiveLockID='x'", EXCLUSIVE, ""],
            Wanted::BadArgument,
        ),
        (
            "ExclusiveLock",
            "GetLock",
            ["exclusiveLockID='x'", "SchemaLockID='x'", EXCLUSIVE],
            take(3600),
        ),
        ("Coauth", "JoinCoauthoring", [SCHEMA, CLIENT, ""], join()),
        (
            "Coauth",
            "JoinCoauthoring",
            [SCHEMA, "", ""],
            Wanted::BadArgument,
        ),
        (
            "Coauth",
            "JoinCoauthoring",
            [CLIENT, "", ""],
            Wanted::BadArgument,
        ),
        (
            "Coauth",
            "JoinCoauthoring",
            [SCHEMA, "ClientID=''", ""],
            Wanted::BadArgument,
        ),
        (
            "Coauth",
            "JoinCoauthoring",
            ["SchemaLockID=''", CLIENT, ""],
            Wanted::BadArgument,
        ),
        (
            "Coauth",
            "JoinCoauthoring",
            [CLIENT, SCHEMA, "ClientID=''"],
            join(),
        ),
        (
            "Coauth",
            "JoinCoauthoring",
            ["SchemaLockID='1'", SCHEMA, CLIENT],
            Wanted::BadArgument,
        ),
        (
            "SchemaLock",
            "ConvertToExclusive",
            [SCHEMA, CLIENT, ""],
            Wanted::BadArgument,
        ),
        (
            "ExclusiveLock",
            "ConvertToSchema",
            [EXCLUSIVE, SCHEMA, ""],
            Wanted::BadArgument,
        ),
        (
            "SchemaLock",
            "CheckLockAvailability",
            [SCHEMA, "ClientID='x'", "Timeout='x'"],
            Wanted::Lock(LockStep::CheckShared { schema: S }),
        ),
        (
            "EditorsTable",
            "LeaveEditingSession",
            ["", "", ""],
            Wanted::BadArgument,
        ),
        (
            "EditorsTable",
            "LeaveEditingSession",
            [
                "ClientID='urn:uuid:00000000-0000-0000-0000-000000000003'",
                "",
                "",
            ],
            Wanted::Leave(C),
        ),
    ] {
        let sub = (kind, word, attributes.as_slice(), "");
        assert!(rt; asks(rt.alloc(), sub, wanted)?);
    }
    Ok(())
}

#[test]
fn timeouts(rt: HostRuntime) -> Result<(), EnvelopeFault> {
    for (attributes, wanted) in [
        ([EXCLUSIVE, ""], take(3600)),
        ([EXCLUSIVE, "Timeout=''"], Wanted::BadArgument),
        ([EXCLUSIVE, "Timeout='0'"], take(60)),
        ([EXCLUSIVE, "Timeout='59'"], take(60)),
        ([EXCLUSIVE, "Timeout='60'"], take(60)),
        ([EXCLUSIVE, "Timeout='0000000061'"], take(61)),
        ([EXCLUSIVE, "Timeout='86400'"], take(86400)),
        ([EXCLUSIVE, "Timeout='86401'"], take(86400)),
        ([EXCLUSIVE, "Timeout='9999999999'"], take(86400)),
        ([EXCLUSIVE, "Timeout='00000000061'"], Wanted::BadArgument),
        ([EXCLUSIVE, "Timeout='+61'"], Wanted::BadArgument),
        ([EXCLUSIVE, "Timeout='-1'"], Wanted::BadArgument),
        ([EXCLUSIVE, "Timeout=' 61'"], Wanted::BadArgument),
        ([EXCLUSIVE, "Timeout='6.1'"], Wanted::BadArgument),
        ([EXCLUSIVE, "Timeout='61' Timeout='x'"], take(61)),
        ([EXCLUSIVE, "Timeout='x' Timeout='61'"], Wanted::BadArgument),
    ] {
        let sub = ("ExclusiveLock", "GetLock", attributes.as_slice(), "");
        assert!(rt; asks(rt.alloc(), sub, wanted)?);
    }
    Ok(())
}

#[test]
fn flags(rt: HostRuntime) -> Result<(), EnvelopeFault> {
    for (flag, release) in [
        ("", false),
        ("ReleaseLockOnConversionToExclusiveFailure=''", false),
        ("ReleaseLockOnConversionToExclusiveFailure='true'", true),
        ("ReleaseLockOnConversionToExclusiveFailure='True'", true),
        ("ReleaseLockOnConversionToExclusiveFailure='TRUE'", true),
        ("ReleaseLockOnConversionToExclusiveFailure='1'", true),
        ("ReleaseLockOnConversionToExclusiveFailure='01'", false),
        ("ReleaseLockOnConversionToExclusiveFailure='yes'", false),
        ("ReleaseLockOnConversionToExclusiveFailure='true '", false),
        (
            "ReleaseLockOnConversionToExclusiveFailure='0' ReleaseLockOnConversionToExclusiveFailure='1'",
            false,
        ),
    ] {
        let attributes = [EXCLUSIVE, SCHEMA, CLIENT, flag];
        let sub = (
            "SchemaLock",
            "ConvertToExclusive",
            attributes.as_slice(),
            "",
        );
        let step = LockStep::ToExclusive {
            schema: S,
            client: C,
            id: X,
            timeout: 3600,
            release,
        };
        assert!(rt; asks(rt.alloc(), sub, Wanted::Lock(step))?);
    }
    Ok(())
}

#[test]
fn partitions_and_carried_ids(rt: HostRuntime) -> Result<(), EnvelopeFault> {
    const BYPASS: &str = "BypassLockID='00000000-0000-0000-0000-000000000004'";
    for (attributes, wanted) in [
        (["", "", ""], Wanted::Cell(b"", true, None)),
        (["PartitionID=''", "", ""], Wanted::BadArgument),
        (["PartitionID='x'", "", ""], Wanted::BadArgument),
        (["PartitionID=", ZERO, ""], Wanted::Cell(b"", true, None)),
        (
            [
                "PartitionID='{7808F4DD-2385-49D6-B7CE-37ACA5E43602}'",
                "PartitionID=",
                ZERO,
            ],
            Wanted::Cell(b"", false, None),
        ),
        ([BYPASS, "", ""], Wanted::Cell(b"", true, Some(ANOTHER))),
        ([EXCLUSIVE, "", ""], Wanted::Cell(b"", true, Some(X))),
        ([SCHEMA, "", ""], Wanted::Cell(b"", true, Some(S))),
        (
            [SCHEMA, EXCLUSIVE, BYPASS],
            Wanted::Cell(b"", true, Some(ANOTHER)),
        ),
        ([SCHEMA, EXCLUSIVE, ""], Wanted::Cell(b"", true, Some(X))),
        (["SchemaLockID=''", "", ""], Wanted::BadArgument),
        (["BypassLockID=''", EXCLUSIVE, ""], Wanted::BadArgument),
        (
            ["SchemaLockID='x'", EXCLUSIVE, ""],
            Wanted::Cell(b"", true, Some(X)),
        ),
        (
            [EXCLUSIVE, "ExclusiveLockID='x'", ""],
            Wanted::Cell(b"", true, Some(X)),
        ),
    ] {
        let sub = ("Cell", "", attributes.as_slice(), "");
        assert!(rt; asks(rt.alloc(), sub, wanted)?);
    }
    Ok(())
}

#[test]
fn keys_and_versions(rt: HostRuntime) -> Result<(), EnvelopeFault> {
    for (kind, word, attributes, wanted) in [
        (
            "EditorsTable",
            "RemoveEditorMetadata",
            [CLIENT, ""],
            Wanted::BadArgument,
        ),
        (
            "EditorsTable",
            "RemoveEditorMetadata",
            [CLIENT, "Key=''"],
            Wanted::RemoveKey(C, ""),
        ),
        (
            "EditorsTable",
            "RemoveEditorMetadata",
            [CLIENT, "Key='&#0;\u{20AC}' Key='b'"],
            Wanted::RemoveKey(C, "\0\u{20AC}"),
        ),
        (
            "EditorsTable",
            "UpdateEditorMetadata",
            [CLIENT, ""],
            Wanted::BadArgument,
        ),
        (
            "EditorsTable",
            "UpdateEditorMetadata",
            ["Key='k'", ""],
            Wanted::BadArgument,
        ),
        (
            "EditorsTable",
            "UpdateEditorMetadata",
            [CLIENT, "Key='k'"],
            Wanted::SetKey(C, "k", b""),
        ),
        (
            "Versioning",
            "RestoreVersion",
            ["", ""],
            Wanted::BadArgument,
        ),
        (
            "Versioning",
            "RestoreVersion",
            ["Version=''", ""],
            Wanted::BadArgument,
        ),
        (
            "Versioning",
            "RestoreVersion",
            ["Version='a'", ""],
            Wanted::BadArgument,
        ),
        (
            "Versioning",
            "RestoreVersion",
            ["Version='00000000001'", ""],
            Wanted::BadArgument,
        ),
        (
            "Versioning",
            "RestoreVersion",
            ["Version='9999999999'", ""],
            Wanted::Restore(9_999_999_999, None),
        ),
        (
            "Versioning",
            "RestoreVersion",
            ["Version='1' Version='x'", EXCLUSIVE],
            Wanted::Restore(1, Some(X)),
        ),
        (
            "Versioning",
            "RestoreVersion",
            ["Version='1' BypassLockID=''", EXCLUSIVE],
            Wanted::BadArgument,
        ),
        ("Versioning", "", ["Version='1'", ""], Wanted::BadArgument),
        (
            "Versioning",
            "GetVersionList",
            ["VersioningRequestType='x'", "BypassLockID='x'"],
            Wanted::Versions,
        ),
    ] {
        let sub = (kind, word, attributes.as_slice(), "");
        assert!(rt; asks(rt.alloc(), sub, wanted)?);
    }
    Ok(())
}
