// Each outcome and each code once, with its word, its HResult and its data.
use crate::test_answers::{BACK, Became, FRONT, is_answered};
use compact_values::{Guid, NoMemory};
use doc_model::{Coauthors, Code, LockKind};
use envelope_read::{CellWord, Skip};

const OPEN: &str =
    "<Response Url=\"/a\" RequestToken=\"t\" HealthScore=\"0\"><SubResponse SubRequestToken=\"7\" ErrorCode=\"";

const SUCCESS: &str = "Success\" HResult=\"0\"";

const FAILED: &str = "\" HResult=\"2147500037\"/></Response>";

const CLOSE: &str = "</SubResponse></Response>";

/// What is refused, or fails, or isn't done, has no data.
#[test]
fn words_of_what_is_not_done(rt: HostRuntime) -> Result<(), NoMemory> {
    for (became, word) in [
        (Became::Refused(Code::InvalidObject), "CellRequestFail"),
        (Became::Refused(Code::NotSupported), "CellRequestFail"),
        (Became::Refused(Code::Coherency), "CellRequestFail"),
        (Became::Refused(Code::NotFound), "CellRequestFail"),
        (Became::Refused(Code::StorageLimit), "StorageLimit"),
        (Became::Refused(Code::Unserializable), "CellRequestFail"),
        (
            Became::Refused(Code::AlreadyLocked),
            "FileAlreadyLockedOnServer",
        ),
        (Became::Refused(Code::NotLocked), "FileNotLockedOnServer"),
        (
            Became::Refused(Code::TooManyCoauthors),
            "NumberOfCoauthorsReachedMax",
        ),
        (
            Became::Refused(Code::ManyClients),
            "MultipleClientsInCoauthSession",
        ),
        (
            Became::Refused(Code::LeftOnFailedConversion),
            "ExitCoauthSessionAsConvertToExclusiveFailed",
        ),
        (Became::Refused(Code::EditorsFull), "EditorsFull"),
        (
            Became::Refused(Code::EditorUnknown),
            "EditorClientIdNotFound",
        ),
        (
            Became::Refused(Code::MetadataFull),
            "EditorMetadataQuotaReached",
        ),
        (
            Became::Refused(Code::MetadataLong),
            "EditorMetadataStringExceedsLengthLimit",
        ),
        (Became::Refused(Code::VersionUnknown), "VersionNotFound"),
        (Became::Refused(Code::NoNumbers), "NoNumbersLeft"),
        (Became::DiskFault, "SubRequestFail"),
        (Became::JournalFull, "JournalFull"),
        (Became::NoMemory, "HighLevelExceptionThrown"),
        (Became::NotSupported, "RequestNotSupported"),
        (Became::BadArgument, "InvalidArgument"),
        (Became::NoDocument, "FileNotExistsOrCannotBeCreated"),
        (
            Became::Skipped(Skip::NotExecuted),
            "DependentRequestNotExecuted",
        ),
        (
            Became::Skipped(Skip::OnSuccessFailed),
            "DependentOnlyOnSuccessRequestFailed",
        ),
        (
            Became::Skipped(Skip::OnFailSucceeded),
            "DependentOnlyOnFailRequestSucceeded",
        ),
        (
            Became::Skipped(Skip::OnNotSupportedSupported),
            "DependentOnlyOnNotSupportedRequestGetSupported",
        ),
        (
            Became::Skipped(Skip::BadDependency),
            "InvalidRequestDependencyType",
        ),
    ] {
        let answers = [("7", became)];
        let request = ("/a", "t", answers.as_slice());
        assert!(rt;
            is_answered(
                rt.alloc(),
                &[request],
                &[FRONT, OPEN],
                &[word, FAILED],
                &[BACK]
            )?
        );
    }
    Ok(())
}

/// The bytes and texts are those of RFC 4648, 10.
#[test]
fn words_of_binary_requests(rt: HostRuntime) -> Result<(), NoMemory> {
    for (bytes, word, wanted, text) in [
        (b"".as_slice(), CellWord::Fine, "Success\" HResult=\"0", ""),
        (
            b"f".as_slice(),
            CellWord::CellFail,
            "CellRequestFail\" HResult=\"2147500037",
            "Zg==",
        ),
        (
            b"fo".as_slice(),
            CellWord::Locked,
            "FileAlreadyLockedOnServer\" HResult=\"2147500037",
            "Zm8=",
        ),
        (
            b"foo".as_slice(),
            CellWord::Disk,
            "SubRequestFail\" HResult=\"2147500037",
            "Zm9v",
        ),
        (
            b"foob".as_slice(),
            CellWord::Full,
            "JournalFull\" HResult=\"2147500037",
            "Zm9vYg==",
        ),
        (
            b"foobar".as_slice(),
            CellWord::Memory,
            "HighLevelExceptionThrown\" HResult=\"2147500037",
            "Zm9vYmFy",
        ),
    ] {
        let answers = [("7", Became::Cell(bytes, word))];
        let request = ("/a", "t", answers.as_slice());
        let wanted = [wanted, "\"><SubResponseData>", text, "</SubResponseData>"];
        assert!(rt;
            is_answered(
                rt.alloc(),
                &[request],
                &[FRONT, OPEN],
                &wanted,
                &[CLOSE, BACK]
            )?
        );
    }
    Ok(())
}

const NULL: Guid = Guid { number: 0 };

const HIGH: Guid = Guid {
    number: 0xFFEE_DDCC_BBAA_9988_7766_5544_3322_1100,
};

#[test]
fn data_of_what_is_done(rt: HostRuntime) -> Result<(), NoMemory> {
    for (became, wanted) in [
        (Became::Done, "/></Response>"),
        (Became::Access, "/></Response>"),
        (
            Became::Locked(NULL, LockKind::Exclusive, Coauthors::Nobody),
            "><SubResponseData LockType=\"ExclusiveLock\" CoauthStatus=\"None\" TransitionID=\"00000000-0000-0000-0000-000000000000\"/></SubResponse></Response>",
        ),
        (
            Became::Locked(HIGH, LockKind::Schema, Coauthors::Alone),
            "><SubResponseData LockType=\"SchemaLock\" CoauthStatus=\"Alone\" TransitionID=\"ffeeddcc-bbaa-9988-7766-554433221100\"/></SubResponse></Response>",
        ),
        (
            Became::Locked(NULL, LockKind::Schema, Coauthors::Several),
            "><SubResponseData LockType=\"SchemaLock\" CoauthStatus=\"Coauthoring\" TransitionID=\"00000000-0000-0000-0000-000000000000\"/></SubResponse></Response>",
        ),
        (
            Became::Versions(&[], "ann"),
            "><SubResponseData><Versions></Versions></SubResponseData></SubResponse></Response>",
        ),
        (
            Became::Versions(&[0, 1_099_511_627_775], "a&b"),
            "><SubResponseData><Versions><Version Number=\"1\" Moment=\"0\" User=\"a&amp;b\"/><Version Number=\"2\" Moment=\"1099511627775\" User=\"a&amp;b\"/></Versions></SubResponseData></SubResponse></Response>",
        ),
        (
            Became::Lone(true),
            "><SubResponseData AmIAlone=\"True\"/></SubResponse></Response>",
        ),
        (
            Became::Lone(false),
            "><SubResponseData AmIAlone=\"False\"/></SubResponse></Response>",
        ),
        (
            Became::Me("<\"ann\">"),
            "><SubResponseData UserName=\"&lt;&quot;ann&quot;&gt;\" UserLogin=\"&lt;&quot;ann&quot;&gt;\"/></SubResponse></Response>",
        ),
    ] {
        let answers = [("7", became)];
        let request = ("/a", "t", answers.as_slice());
        assert!(rt;
            is_answered(
                rt.alloc(),
                &[request],
                &[FRONT, OPEN, SUCCESS],
                &[wanted],
                &[BACK]
            )?
        );
    }
    Ok(())
}

/// Texts that would end a value or a tag, or be read otherwise than they are, in every place where a client's text stands.
#[test]
fn texts_in_values(rt: HostRuntime) -> Result<(), NoMemory> {
    for (text, written) in [
        ("", ""),
        ("&", "&amp;"),
        ("<", "&lt;"),
        (">", "&gt;"),
        ("\"", "&quot;"),
        ("\t", "&#9;"),
        ("\n", "&#10;"),
        ("\r", "&#13;"),
        ("'", "'"),
        ("&amp;", "&amp;amp;"),
        ("\"/></Response>", "&quot;/&gt;&lt;/Response&gt;"),
        ("a b\u{A0}\u{20AC}\u{1F600}c", "a b\u{A0}\u{20AC}\u{1F600}c"),
        ("\u{20AC}<<\u{1F600}&", "\u{20AC}&lt;&lt;\u{1F600}&amp;"),
    ] {
        let answers = [(text, Became::Me(text))];
        let request = (text, text, answers.as_slice());
        let wanted = [
            "<Response Url=\"",
            written,
            "\" RequestToken=\"",
            written,
            "\" HealthScore=\"0\"><SubResponse SubRequestToken=\"",
            written,
            "\" ErrorCode=\"Success\" HResult=\"0\"><SubResponseData UserName=\"",
            written,
            "\" UserLogin=\"",
            written,
            "\"/></SubResponse></Response>",
        ];
        assert!(rt; is_answered(rt.alloc(), &[request], &[FRONT], &wanted, &[BACK])?);
    }
    Ok(())
}
