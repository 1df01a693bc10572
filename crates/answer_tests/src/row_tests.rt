// Worked examples: what is said of locks, coauthors, versions and editors, and of binary requests.
use crate::test_answers::{BACK, Became, FRONT, Request, is_answered};
use compact_values::{Guid, NoMemory};
use doc_model::{Coauthors, Code, LockKind};
use envelope_read::{CellWord, Skip};

/// The document.
const G: Guid = Guid {
    number: 0x0011_2233_4455_6677_8899_AABB_CCDD_EEFF,
};

const URL: &str = "http://h/a.docx";

const OPEN: &str = "<Response Url=\"http://h/a.docx\" RequestToken=\"1\" HealthScore=\"0\">";

const CLOSE: &str = "</Response>";

/// A response that 1,000 numbers are the caller's.
const DRAWN: &[u8] =
    b"\x0C\x00\x0B\x00\x9D\xCF\x29\xF3\x39\x94\x06\x9B\x16\x03\x02\x00\x00\xAC\x02\x00\x55\x0E\x02\x06\x00\x03\x17\x00\x0A\x04\x26\x00\x33\x22\x11\x00\x55\x44\x77\x66\x88\x99\xAA\xBB\xCC\xDD\xEE\xFF\x03\xA2\x0F\x07\x01\x8B\x01";

/// The failure of a request for another partition.
const PARTITION: &[u8] =
    b"\x0C\x00\x0B\x00\x9D\xCF\x29\xF3\x39\x94\x06\x9B\x16\x03\x02\x00\x01\x6E\x02\x20\x00\x56\xA7\x66\x5A\xCE\x87\x90\x42\xA3\x8B\xC6\x1C\x5B\xA0\x5A\x67\x32\x03\x08\x00\x03\x00\x00\x00\x37\x01\x8B\x01";

const ALONE: &str =
    "><SubResponseData LockType=\"SchemaLock\" CoauthStatus=\"Alone\" TransitionID=\"00112233-4455-6677-8899-aabbccddeeff\"/></SubResponse>";

const SEVERAL: &str =
    "><SubResponseData LockType=\"SchemaLock\" CoauthStatus=\"Coauthoring\" TransitionID=\"00112233-4455-6677-8899-aabbccddeeff\"/></SubResponse>";

const EXCLUSIVE: &str =
    "><SubResponseData LockType=\"ExclusiveLock\" CoauthStatus=\"None\" TransitionID=\"00112233-4455-6677-8899-aabbccddeeff\"/></SubResponse>";

const SUCCESS: &str = "\" ErrorCode=\"Success\" HResult=\"0\"";

const SUB: &str = "<SubResponse SubRequestToken=\"";

const FAILED: &str = "\" HResult=\"2147500037\"/>";

const TAKEN: &str = "\" ErrorCode=\"FileAlreadyLockedOnServer\" HResult=\"2147500037\"/>";

const ALREADY: Became = Became::Refused(Code::AlreadyLocked);

const LOCKED: Became = Became::Locked(G, LockKind::Exclusive, Coauthors::Nobody);

const JOINED: Became = Became::Locked(G, LockKind::Schema, Coauthors::Alone);

const COAUTHOR: Became = Became::Locked(G, LockKind::Schema, Coauthors::Several);

/// A lock is refreshed, asked for by another id, and is free when its time is over.
const EXCLUSIVE_LOCK: (&[(&str, Became)], &[&str]) = (
    &[("1", LOCKED), ("2", ALREADY), ("3", Became::Done)],
    &[
        SUB, "1", SUCCESS, EXCLUSIVE, SUB, "2", TAKEN, SUB, "3", SUCCESS, "/>",
    ],
);

/// Two coauthors; one converts in vain and leaves, and the other converts.
const COAUTHORS: (&[(&str, Became)], &[&str]) = (
    &[
        ("1", JOINED),
        ("2", COAUTHOR),
        ("3", Became::Refused(Code::ManyClients)),
        ("4", Became::Refused(Code::LeftOnFailedConversion)),
        ("5", JOINED),
        ("6", Became::Refused(Code::NotLocked)),
        ("7", ALREADY),
        ("8", LOCKED),
    ],
    &[
        SUB,
        "1",
        SUCCESS,
        ALONE,
        SUB,
        "2",
        SUCCESS,
        SEVERAL,
        SUB,
        "3\" ErrorCode=\"MultipleClientsInCoauthSession",
        FAILED,
        SUB,
        "4\" ErrorCode=\"ExitCoauthSessionAsConvertToExclusiveFailed",
        FAILED,
        SUB,
        "5",
        SUCCESS,
        ALONE,
        SUB,
        "6\" ErrorCode=\"FileNotLockedOnServer",
        FAILED,
        SUB,
        "7",
        TAKEN,
        SUB,
        "8",
        SUCCESS,
        EXCLUSIVE,
    ],
);

/// A client joins, and its binary request is run.
const OFFICE: (&[(&str, Became)], &[&str]) = (
    &[("1", JOINED), ("2", Became::Cell(DRAWN, CellWord::Fine))],
    &[
        SUB,
        "1",
        SUCCESS,
        ALONE,
        SUB,
        "2",
        SUCCESS,
        "><SubResponseData>DAALAJ3PKfM5lAabFgMCAACsAgBVDgIGAAMXAAoEJgAzIhEAVUR3ZoiZqrvM3e7/A6IPBwGLAQ==</SubResponseData></SubResponse>",
    ],
);

/// Another partition; a Type that isn't served, its follower, one that follows in vain, and the follower of that.
const PARTITIONS: (&[(&str, Became)], &[&str]) = (
    &[
        ("1", Became::Cell(PARTITION, CellWord::CellFail)),
        ("2", Became::NotSupported),
        ("3", Became::Me("ann")),
        ("4", Became::Skipped(Skip::OnFailSucceeded)),
        ("5", Became::Skipped(Skip::NotExecuted)),
    ],
    &[
        SUB,
        "1\" ErrorCode=\"CellRequestFail\" HResult=\"2147500037\"><SubResponseData>DAALAJ3PKfM5lAabFgMCAAFuAiAAVqdmWs6HkEKji8YcW6BaZzIDCAADAAAANwGLAQ==</SubResponseData></SubResponse>",
        SUB,
        "2\" ErrorCode=\"RequestNotSupported",
        FAILED,
        SUB,
        "3",
        SUCCESS,
        "><SubResponseData UserName=\"ann\" UserLogin=\"ann\"/></SubResponse>",
        SUB,
        "4\" ErrorCode=\"DependentOnlyOnFailRequestSucceeded",
        FAILED,
        SUB,
        "5\" ErrorCode=\"DependentRequestNotExecuted",
        FAILED,
    ],
);

/// Who asks, a binary request, and a Type that isn't served.
const THREE: (&[(&str, Became)], &[&str]) = (
    &[
        ("1", Became::Me("ann")),
        ("2", Became::Cell(DRAWN, CellWord::Fine)),
        ("3", Became::NotSupported),
    ],
    &[
        "<SubResponse SubRequestToken=\"1\" ErrorCode=\"Success\" HResult=\"0\"><SubResponseData UserName=\"ann\" UserLogin=\"ann\"/></SubResponse><SubResponse SubRequestToken=\"2\" ErrorCode=\"Success\" HResult=\"0\"><SubResponseData>DAALAJ3PKfM5lAabFgMCAACsAgBVDgIGAAMXAAoEJgAzIhEAVUR3ZoiZqrvM3e7/A6IPBwGLAQ==</SubResponseData></SubResponse><SubResponse SubRequestToken=\"3\" ErrorCode=\"RequestNotSupported\" HResult=\"2147500037\"/>",
    ],
);

/// Three versions; restores of versions that aren't there, and of the first.
const VERSIONS: (&[(&str, Became)], &[&str]) = (
    &[
        ("1", Became::Versions(&[10, 20, 30], "ann")),
        ("2", Became::Refused(Code::VersionUnknown)),
        ("3", Became::Done),
    ],
    &[
        SUB,
        "1",
        SUCCESS,
        "><SubResponseData><Versions><Version Number=\"1\" Moment=\"10\" User=\"ann\"/><Version Number=\"2\" Moment=\"20\" User=\"ann\"/><Version Number=\"3\" Moment=\"30\" User=\"ann\"/></Versions></SubResponseData></SubResponse>",
        SUB,
        "2\" ErrorCode=\"VersionNotFound",
        FAILED,
        SUB,
        "3",
        SUCCESS,
        "/>",
    ],
);

/// One editor is alone, the other isn't; keys that are refused, and an editor that isn't there.
const EDITORS: (&[(&str, Became)], &[&str]) = (
    &[
        ("1", Became::Done),
        ("2", Became::Lone(true)),
        ("3", Became::Lone(false)),
        ("4", Became::Refused(Code::MetadataLong)),
        ("5", Became::Refused(Code::MetadataFull)),
        ("6", Became::Refused(Code::EditorUnknown)),
    ],
    &[
        SUB,
        "1",
        SUCCESS,
        "/>",
        SUB,
        "2",
        SUCCESS,
        "><SubResponseData AmIAlone=\"True\"/></SubResponse>",
        SUB,
        "3",
        SUCCESS,
        "><SubResponseData AmIAlone=\"False\"/></SubResponse>",
        SUB,
        "4\" ErrorCode=\"EditorMetadataStringExceedsLengthLimit",
        FAILED,
        SUB,
        "5\" ErrorCode=\"EditorMetadataQuotaReached",
        FAILED,
        SUB,
        "6\" ErrorCode=\"EditorClientIdNotFound",
        FAILED,
    ],
);

#[test]
fn worked_answers(rt: HostRuntime) -> Result<(), NoMemory> {
    for (answers, wanted) in [
        EXCLUSIVE_LOCK,
        COAUTHORS,
        OFFICE,
        PARTITIONS,
        THREE,
        VERSIONS,
        EDITORS,
    ] {
        let request = (URL, "1", answers);
        assert!(rt;
            is_answered(
                rt.alloc(),
                &[request],
                &[FRONT, OPEN],
                wanted,
                &[CLOSE, BACK]
            )?
        );
    }
    Ok(())
}

const NO_REQUEST: (&[Request], &[&str]) = (&[], &[]);

const NO_SUBREQUEST: (&[Request], &[&str]) = (&[(URL, "1", &[])], &[OPEN, CLOSE]);

/// Two Requests, each with what became of its own subrequests.
const TWO_REQUESTS: (&[Request], &[&str]) = (
    &[
        (URL, "1", &[("1", Became::Done), ("2", ALREADY)]),
        ("/b", "2", &[("1", Became::NoDocument)]),
    ],
    &[
        OPEN,
        SUB,
        "1",
        SUCCESS,
        "/>",
        SUB,
        "2",
        TAKEN,
        CLOSE,
        "<Response Url=\"/b\" RequestToken=\"2\" HealthScore=\"0\">",
        SUB,
        "1\" ErrorCode=\"FileNotExistsOrCannotBeCreated",
        FAILED,
        CLOSE,
    ],
);

#[test]
fn requests_in_order(rt: HostRuntime) -> Result<(), NoMemory> {
    for (requests, wanted) in [NO_REQUEST, NO_SUBREQUEST, TWO_REQUESTS] {
        assert!(rt; is_answered(rt.alloc(), requests, &[FRONT], wanted, &[BACK])?);
    }
    Ok(())
}
