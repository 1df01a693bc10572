// Worked examples: the words with which locks, coauthors, versions and editors are asked for, as clients send them.
use crate::test_envelopes::{BACK, DRAW, DRAW_BYTES, Waits, Wanted, asks, joined, says};
use compact_values::{Guid, Text};
use doc_model::LockStep;
use envelope_read::{DependWord, EnvelopeFault};

const L: Guid = Guid { number: 1 };

const M: Guid = Guid { number: 2 };

const OF_L: &str = "ExclusiveLockID='{00000000-0000-0000-0000-000000000001}'";

const OF_M: &str = "ExclusiveLockID='{00000000-0000-0000-0000-000000000002}'";

/// An exclusive lock is taken for 1,000 seconds, refreshed for 60, and asked for by another id.
#[test]
fn an_exclusive_lock(rt: HostRuntime) -> Result<(), EnvelopeFault> {
    for (word, attributes, step) in [
        (
            "GetLock",
            [OF_L, "Timeout='1000'"],
            LockStep::TakeExclusive {
                id: L,
                timeout: 1000,
            },
        ),
        (
            "RefreshLock",
            [OF_L, "Timeout='60'"],
            LockStep::RefreshExclusive { id: L, timeout: 60 },
        ),
        (
            "GetLock",
            [OF_M, ""],
            LockStep::TakeExclusive {
                id: M,
                timeout: 3600,
            },
        ),
        (
            "CheckLockAvailability",
            [OF_M, ""],
            LockStep::CheckExclusive { id: M },
        ),
    ] {
        let sub = ("ExclusiveLock", word, attributes.as_slice(), "");
        assert!(rt; asks(rt.alloc(), sub, Wanted::Lock(step))?);
    }
    Ok(())
}

const SCHEMA: Guid = Guid { number: 8 };

const OTHER_SCHEMA: Guid = Guid { number: 9 };

const OF_SCHEMA: &str = "SchemaLockID='{00000000-0000-0000-0000-000000000008}'";

const A: Guid = Guid { number: 0xA };

const B: Guid = Guid { number: 0xB };

const OF_A: &str = "ClientID='{00000000-0000-0000-0000-00000000000a}'";

const OF_B: &str = "ClientID='{00000000-0000-0000-0000-00000000000B}'";

fn join(schema: Guid, client: Guid) -> LockStep {
    LockStep::TakeShared {
        schema,
        client,
        timeout: 3600,
        coauthor: true,
    }
}

fn convert(client: Guid, release: bool) -> LockStep {
    LockStep::ToExclusive {
        schema: SCHEMA,
        client,
        id: L,
        timeout: 3600,
        release,
    }
}

/// Two coauthors of one schema lock id convert to an exclusive lock; a third comes with another id.
#[test]
fn coauthors_of_one_schema(rt: HostRuntime) -> Result<(), EnvelopeFault> {
    for (word, attributes, step) in [
        ("JoinCoauthoring", [OF_SCHEMA, OF_A, ""], join(SCHEMA, A)),
        ("JoinCoauthoring", [OF_SCHEMA, OF_B, ""], join(SCHEMA, B)),
        (
            "ConvertToExclusive",
            [OF_SCHEMA, OF_A, OF_L],
            convert(A, false),
        ),
        (
            "ConvertToExclusive",
            [
                OF_SCHEMA,
                OF_A,
                "ReleaseLockOnConversionToExclusiveFailure='true' ExclusiveLockID='00000000000000000000000000000001'",
            ],
            convert(A, true),
        ),
        (
            "GetCoauthoringStatus",
            [OF_SCHEMA, OF_B, ""],
            LockStep::Status {
                schema: SCHEMA,
                client: B,
            },
        ),
        (
            "RefreshCoauthoring",
            [OF_SCHEMA, OF_A, ""],
            LockStep::RefreshShared {
                schema: SCHEMA,
                client: A,
                timeout: 3600,
            },
        ),
        (
            "JoinCoauthoring",
            [
                "SchemaLockID='{00000000-0000-0000-0000-000000000009}'",
                OF_B,
                "",
            ],
            join(OTHER_SCHEMA, B),
        ),
        (
            "ConvertToExclusive",
            [OF_SCHEMA, OF_B, OF_L],
            convert(B, false),
        ),
    ] {
        let sub = ("Coauth", word, attributes.as_slice(), "");
        assert!(rt; asks(rt.alloc(), sub, Wanted::Lock(step))?);
    }
    Ok(())
}

/// An envelope as Office sends it: unknown attributes and elements, and a save that waits for the lock.
#[test]
fn as_office_writes(rt: HostRuntime) -> Result<(), EnvelopeFault> {
    let text = joined(
        rt.alloc(),
        &[
            "<s:Envelope xmlns:s=\"http://schemas.xmlsoap.org/soap/envelope/\"><s:Body>",
            "<RequestVersion Version=\"2\" MinorVersion=\"2\" xmlns=\"http://schemas.microsoft.com/sharepoint/soap/\"/>",
            "<RequestCollection CorrelationId=\"{83E78EC0-5BAE-4BC2-9517-E2747382569B}\" xmlns=\"http://schemas.microsoft.com/sharepoint/soap/\">",
            "<Request Url=\"http://h/Shared%20Documents/a.docx\" Interval=\"0\" MetaData=\"1031\" RequestToken=\"1\">",
            "<SubRequest Type=\"Coauth\" SubRequestToken=\"1\">",
            "<SubRequestData CoauthRequestType=\"JoinCoauthoring\" SchemaLockID=\"{00000000-0000-0000-0000-000000000008}\" ",
            "ClientID=\"{00000000-0000-0000-0000-00000000000A}\" AllowFallbackToExclusive=\"true\" Timeout=\"3600\" UserLogin=\"ann\"/>",
            "</SubRequest>",
            "<SubRequest Type=\"Cell\" SubRequestToken=\"2\" DependsOn=\"1\" DependencyType=\"OnSuccess\">",
            "<SubRequestData BinaryDataSize=\"55\" GetFileProps=\"true\" ",
            "SchemaLockID=\"{00000000-0000-0000-0000-000000000008}\">",
            "DAALAJzPKfM5lAabBgIAAO4CAADyAgIAB3cBFgIGAAMFAI4CAgAAOgIEAAEBRwELAawCAFUDAQ==",
            "</SubRequestData></SubRequest></Request></RequestCollection></s:Body></s:Envelope>",
        ],
    )?;
    let rows = [
        ("1", Waits::Free, Wanted::Lock(join(SCHEMA, A))),
        (
            "2",
            Waits::On("1", DependWord::OnSuccess),
            // an object 5D that holds another, and a query with a filter
            Wanted::Cell(
                b"\x0C\x00\x0B\x00\x9C\xCF\x29\xF3\x39\x94\x06\x9B\x06\x02\x00\x00\xEE\x02\x00\x00\xF2\x02\x02\x00\x07\x77\x01\x16\x02\x06\x00\x03\x05\x00\x8E\x02\x02\x00\x00\x3A\x02\x04\x00\x01\x01\x47\x01\x0B\x01\xAC\x02\x00\x55\x03\x01",
                true,
                Some(SCHEMA),
            ),
        ),
    ];
    let url = "http://h/Shared%20Documents/a.docx";
    assert!(rt; says(rt.alloc(), text.as_slice(), url, "1", &rows)?);
    Ok(())
}

/// Who is it, a request for 1,000 numbers, and a Type that isn't served.
#[test]
fn three_subrequests(rt: HostRuntime) -> Result<(), EnvelopeFault> {
    let text = joined(
        rt.alloc(),
        &[
            "<Envelope><Body><RequestCollection><Request Url=\"http://h/a.docx\" RequestToken=\"1\">",
            "<SubRequest Type=\"WhoAmI\" SubRequestToken=\"1\"/>",
            "<SubRequest Type=\"Cell\" SubRequestToken=\"2\"><SubRequestData>",
            DRAW,
            "</SubRequestData></SubRequest>",
            "<SubRequest Type=\"ServerTime\" SubRequestToken=\"3\"/>",
            BACK,
        ],
    )?;
    let rows = [
        ("1", Waits::Free, Wanted::WhoAmI),
        ("2", Waits::Free, Wanted::Cell(DRAW_BYTES, true, None)),
        ("3", Waits::Free, Wanted::NotSupported),
    ];
    assert!(rt; says(rt.alloc(), text.as_slice(), "http://h/a.docx", "1", &rows)?);
    Ok(())
}

/// A partition that isn't served, a Type that isn't, and subrequests that wait for such.
#[test]
fn what_is_not_served(rt: HostRuntime) -> Result<(), EnvelopeFault> {
    let text = joined(
        rt.alloc(),
        &[
            "<Envelope><Body><RequestCollection><Request Url='/a' RequestToken='1'>",
            "<SubRequest Type='Cell' SubRequestToken='1'>",
            "<SubRequestData PartitionID='{7808F4DD-2385-49D6-B7CE-37ACA5E43602}'/></SubRequest>",
            "<SubRequest Type='ServerTime' SubRequestToken='2'/>",
            "<SubRequest Type='WhoAmI' SubRequestToken='3' DependsOn='2' DependencyType='OnNotSupported'/>",
            "<SubRequest Type='WhoAmI' SubRequestToken='4' DependsOn='2' DependencyType='OnSuccess'/>",
            "<SubRequest Type='WhoAmI' SubRequestToken='5' DependsOn='4' DependencyType='OnFail'/>",
            "</Request></RequestCollection></Body></Envelope>",
        ],
    )?;
    let rows = [
        ("1", Waits::Free, Wanted::Cell(b"", false, None)),
        ("2", Waits::Free, Wanted::NotSupported),
        (
            "3",
            Waits::On("2", DependWord::OnNotSupported),
            Wanted::WhoAmI,
        ),
        ("4", Waits::On("2", DependWord::OnSuccess), Wanted::WhoAmI),
        ("5", Waits::On("4", DependWord::OnFail), Wanted::WhoAmI),
    ];
    assert!(rt; says(rt.alloc(), text.as_slice(), "/a", "1", &rows)?);
    Ok(())
}

/// The versions, and versions that there are not and one that there is.
#[test]
fn versions(rt: HostRuntime) -> Result<(), EnvelopeFault> {
    for (word, attributes, wanted) in [
        ("GetVersionList", [""], Wanted::Versions),
        ("RestoreVersion", ["Version='0'"], Wanted::Restore(0, None)),
        ("RestoreVersion", ["Version='4'"], Wanted::Restore(4, None)),
        ("RestoreVersion", ["Version='1'"], Wanted::Restore(1, None)),
    ] {
        let sub = ("Versioning", word, attributes.as_slice(), "");
        assert!(rt; asks(rt.alloc(), sub, wanted)?);
    }
    Ok(())
}

/// Two editors, of whom one leaves that never came, and a key that is longer than a key may be.
#[test]
fn editors(rt: HostRuntime) -> Result<(), EnvelopeFault> {
    let alloc = rt.alloc();
    let mut key = Text::new(alloc);
    for _ in 0..41 {
        key.push_str("kkkkkkkkkkkkkkkkkkkkkkkkk")?;
    }
    let mut long = Text::from_str(alloc, "Key='")?;
    long.push_str(key.as_str())?;
    long.push_str("'")?;
    for (word, attributes, text, wanted) in [
        ("JoinEditingSession", [OF_A, ""], "", Wanted::Join(A, 3600)),
        (
            "JoinEditingSession",
            [OF_B, "Timeout='60'"],
            "",
            Wanted::Join(B, 60),
        ),
        (
            "UpdateEditorMetadata",
            [OF_A, long.as_str()],
            "dg==",
            Wanted::SetKey(A, key.as_str(), b"v"),
        ),
        ("LeaveEditingSession", [OF_B, ""], "", Wanted::Leave(B)),
    ] {
        let sub = ("EditorsTable", word, attributes.as_slice(), text);
        assert!(rt; asks(alloc, sub, wanted)?);
    }
    assert!(rt; asks(alloc, ("AmIAlone", "", &[], ""), Wanted::AmIAlone)?);
    Ok(())
}
