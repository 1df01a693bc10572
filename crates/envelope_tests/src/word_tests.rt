// Each word of each table once.
use crate::test_envelopes::{
    BACK, C, CLIENT, EXCLUSIVE, FRONT, S, SCHEMA, Waits, Wanted, X, asks, joined, says,
};
use doc_model::LockStep;
use envelope_read::{DependWord, EnvelopeFault};

const RELEASE: &str = "ReleaseLockOnConversionToExclusiveFailure='true'";

#[test]
fn words_of_exclusive_locks(rt: HostRuntime) -> Result<(), EnvelopeFault> {
    for (word, step) in [
        ("GetLock", LockStep::TakeExclusive { id: X, timeout: 61 }),
        ("ReleaseLock", LockStep::DropExclusive { id: X }),
        (
            "RefreshLock",
            LockStep::RefreshExclusive { id: X, timeout: 61 },
        ),
        ("CheckLockAvailability", LockStep::CheckExclusive { id: X }),
        (
            "ConvertToSchema",
            LockStep::ToShared {
                id: X,
                schema: S,
                client: C,
                timeout: 61,
                coauthor: false,
            },
        ),
        (
            "ConvertToSchemaJoinCoauth",
            LockStep::ToShared {
                id: X,
                schema: S,
                client: C,
                timeout: 61,
                coauthor: true,
            },
        ),
    ] {
        let attributes = [EXCLUSIVE, SCHEMA, CLIENT, "Timeout='61'"];
        let sub = ("ExclusiveLock", word, attributes.as_slice(), "");
        assert!(rt; asks(rt.alloc(), sub, Wanted::Lock(step))?);
    }
    Ok(())
}

#[test]
fn words_of_shared_locks(rt: HostRuntime) -> Result<(), EnvelopeFault> {
    let to_exclusive = LockStep::ToExclusive {
        schema: S,
        client: C,
        id: X,
        timeout: 61,
        release: true,
    };
    let drop = LockStep::DropShared {
        schema: S,
        client: C,
    };
    let refresh = LockStep::RefreshShared {
        schema: S,
        client: C,
        timeout: 61,
    };
    let check = LockStep::CheckShared { schema: S };
    for (kind, word, step) in [
        (
            "SchemaLock",
            "GetLock",
            LockStep::TakeShared {
                schema: S,
                client: C,
                timeout: 61,
                coauthor: false,
            },
        ),
        ("SchemaLock", "ReleaseLock", drop),
        ("SchemaLock", "RefreshLock", refresh),
        ("SchemaLock", "ConvertToExclusive", to_exclusive),
        ("SchemaLock", "CheckLockAvailability", check),
        (
            "Coauth",
            "JoinCoauthoring",
            LockStep::TakeShared {
                schema: S,
                client: C,
                timeout: 61,
                coauthor: true,
            },
        ),
        ("Coauth", "ExitCoauthoring", drop),
        ("Coauth", "RefreshCoauthoring", refresh),
        ("Coauth", "ConvertToExclusive", to_exclusive),
        ("Coauth", "CheckLockAvailability", check),
        (
            "Coauth",
            "GetCoauthoringStatus",
            LockStep::Status {
                schema: S,
                client: C,
            },
        ),
        (
            "Coauth",
            "MarkTransitionComplete",
            LockStep::Mark {
                schema: S,
                client: C,
            },
        ),
    ] {
        let attributes = [EXCLUSIVE, SCHEMA, CLIENT, "Timeout='61'", RELEASE];
        let sub = (kind, word, attributes.as_slice(), "");
        assert!(rt; asks(rt.alloc(), sub, Wanted::Lock(step))?);
    }
    Ok(())
}

#[test]
fn words_of_editors_versions_and_the_rest(rt: HostRuntime) -> Result<(), EnvelopeFault> {
    for (kind, word, text, wanted) in [
        (
            "EditorsTable",
            "JoinEditingSession",
            "",
            Wanted::Join(C, 61),
        ),
        ("EditorsTable", "LeaveEditingSession", "", Wanted::Leave(C)),
        (
            "EditorsTable",
            "RefreshEditingSession",
            "",
            Wanted::Refresh(C, 61),
        ),
        (
            "EditorsTable",
            "UpdateEditorMetadata",
            "YQ==",
            Wanted::SetKey(C, "k<", b"a"),
        ),
        (
            "EditorsTable",
            "RemoveEditorMetadata",
            "",
            Wanted::RemoveKey(C, "k<"),
        ),
        ("Versioning", "GetVersionList", "", Wanted::Versions),
        (
            "Versioning",
            "RestoreVersion",
            "",
            Wanted::Restore(7, Some(S)),
        ),
        ("AmIAlone", "", "", Wanted::AmIAlone),
        ("WhoAmI", "", "", Wanted::WhoAmI),
        (
            "Cell",
            "",
            "DAAL",
            Wanted::Cell(b"\x0C\x00\x0B", true, Some(S)),
        ),
        ("ServerTime", "", "", Wanted::NotSupported),
        ("cell", "", "", Wanted::NotSupported),
        ("ExclusiveLock", "JoinCoauthoring", "", Wanted::BadArgument),
        ("SchemaLock", "JoinCoauthoring", "", Wanted::BadArgument),
        ("Coauth", "GetLock", "", Wanted::BadArgument),
        ("EditorsTable", "GetVersionList", "", Wanted::BadArgument),
        ("Versioning", "getVersionList", "", Wanted::BadArgument),
    ] {
        let attributes = [CLIENT, SCHEMA, "Timeout='61'", "Key='k&lt;'", "Version='7'"];
        let sub = (kind, word, attributes.as_slice(), text);
        assert!(rt; asks(rt.alloc(), sub, wanted)?);
    }
    Ok(())
}

#[test]
fn words_of_dependencies(rt: HostRuntime) -> Result<(), EnvelopeFault> {
    for (attributes, waits) in [
        ("", Waits::Free),
        ("DependencyType='OnFail'", Waits::Free),
        ("DependsOn='' DependencyType='OnFail'", Waits::Free),
        ("DependsOn='7'", Waits::Bad),
        ("DependsOn='7' DependencyType=''", Waits::Bad),
        ("DependsOn='7' DependencyType='onFail'", Waits::Bad),
        (
            "DependsOn='7' DependencyType='OnExecute'",
            Waits::On("7", DependWord::OnExecute),
        ),
        (
            "DependencyType='OnSuccess' DependsOn='7'",
            Waits::On("7", DependWord::OnSuccess),
        ),
        (
            "DependsOn='7' DependencyType='OnFail' DependencyType='OnSuccess'",
            Waits::On("7", DependWord::OnFail),
        ),
        (
            "DependsOn='&amp;' DependsOn='7' DependencyType='OnNotSupported'",
            Waits::On("&", DependWord::OnNotSupported),
        ),
        (
            "DependsOn='7' DependencyType='OnSuccessOrNotSupported'",
            Waits::On("7", DependWord::OnSuccessOrNotSupported),
        ),
    ] {
        let text = joined(rt.alloc(), &[FRONT, "<SubRequest ", attributes, "/>", BACK])?;
        let row = ("", waits, Wanted::NotSupported);
        assert!(rt; says(rt.alloc(), text.as_slice(), "/a", "1", &[row])?);
    }
    Ok(())
}
