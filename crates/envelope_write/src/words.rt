// The words of the answer: error codes (MS-FSSHTTP 2.2.5), locks and coauthors.
ghost use Rattle.std.specs.Prelude.{◌≡◌};
ghost use Rattle.envelope_write.specs.Words.{code_word, submitted_word, cell_word, skip_word, error_code, result_code, truth, lock_word, status_word};

use doc_model::{Coauthors, Code, LockKind, Reply, Submitted};
use envelope_read::{CellWord, Outcome, Skip};

/// Why a call was refused. The codes that only a binary sub-request can meet have one word.
fn code_word(code: Code) -> &'static [u8]
    ensures { result.now ≡ code_word code }
{
    match code {
        Code::StorageLimit => b"StorageLimit",
        Code::AlreadyLocked => b"FileAlreadyLockedOnServer",
        Code::NotLocked => b"FileNotLockedOnServer",
        Code::TooManyCoauthors => b"NumberOfCoauthorsReachedMax",
        Code::ManyClients => b"MultipleClientsInCoauthSession",
        Code::LeftOnFailedConversion => b"ExitCoauthSessionAsConvertToExclusiveFailed",
        Code::EditorsFull => b"EditorsFull",
        Code::NoNumbers => b"NoNumbersLeft",
        Code::EditorUnknown => b"EditorClientIdNotFound",
        Code::MetadataFull => b"EditorMetadataQuotaReached",
        Code::MetadataLong => b"EditorMetadataStringExceedsLengthLimit",
        Code::VersionUnknown => b"VersionNotFound",
        Code::InvalidObject
        | Code::NotSupported
        | Code::Coherency
        | Code::NotFound
        | Code::Unserializable => b"CellRequestFail",
    }
}

fn submitted_word(submitted: &Submitted) -> &'static [u8]
    ensures { result.now ≡ submitted_word submitted.now }
{
    match submitted {
        Submitted::Answered { reply } => match reply {
            Reply::Refused { code } => code_word(*code),
            _ => b"Success",
        },
        Submitted::DiskFault => b"SubRequestFail",
        Submitted::JournalFull => b"JournalFull",
        Submitted::NoMemory => b"HighLevelExceptionThrown",
    }
}

fn cell_word(word: CellWord) -> &'static [u8]
    ensures { result.now ≡ cell_word word }
{
    match word {
        CellWord::Fine => b"Success",
        CellWord::CellFail => b"CellRequestFail",
        CellWord::Locked => b"FileAlreadyLockedOnServer",
        CellWord::Disk => b"SubRequestFail",
        CellWord::Full => b"JournalFull",
        CellWord::Memory => b"HighLevelExceptionThrown",
    }
}

fn skip_word(why: Skip) -> &'static [u8]
    ensures { result.now ≡ skip_word why }
{
    match why {
        Skip::NotExecuted => b"DependentRequestNotExecuted",
        Skip::OnSuccessFailed => b"DependentOnlyOnSuccessRequestFailed",
        Skip::OnFailSucceeded => b"DependentOnlyOnFailRequestSucceeded",
        Skip::OnNotSupportedSupported => b"DependentOnlyOnNotSupportedRequestGetSupported",
        Skip::BadDependency => b"InvalidRequestDependencyType",
    }
}

/// The ErrorCode.
pub(crate) fn error_code(outcome: &Outcome) -> &'static [u8]
    ensures { result.now ≡ error_code outcome.now }
{
    match outcome {
        Outcome::Plain { submitted } => submitted_word(submitted),
        Outcome::Cell { word, .. } => cell_word(*word),
        Outcome::NotSupported => b"RequestNotSupported",
        Outcome::BadArgument => b"InvalidArgument",
        Outcome::NoDocument => b"FileNotExistsOrCannotBeCreated",
        Outcome::Skipped { why } => skip_word(*why),
    }
}

/// The HResult: 0 for success, else E_FAIL.
pub(crate) fn result_code(word: &[u8]) -> &'static [u8]
    ensures { result.now ≡ result_code word.now }
{
    let success: &[u8] = b"Success";
    if word == success { b"0" } else { b"2147500037" }
}

pub(crate) fn truth(alone: bool) -> &'static [u8]
    ensures { result.now ≡ truth alone }
{
    if alone { b"True" } else { b"False" }
}

pub(crate) fn lock_word(kind: LockKind) -> &'static [u8]
    ensures { result.now ≡ lock_word kind }
{
    match kind {
        LockKind::Exclusive => b"ExclusiveLock",
        LockKind::Schema => b"SchemaLock",
    }
}

pub(crate) fn status_word(status: Coauthors) -> &'static [u8]
    ensures { result.now ≡ status_word status }
{
    match status {
        Coauthors::Nobody => b"None",
        Coauthors::Alone => b"Alone",
        Coauthors::Several => b"Coauthoring",
    }
}
