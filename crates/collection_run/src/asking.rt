// The calls of binary sub-requests, and what is said of their answers.
ghost use Rattle.std.specs.Prelude.{◌≡◌, IfOk, Some};
ghost use Rattle.collection_run.specs.Asking.{asked, put_of, has_flag, fault_of, word_of, or_word};
ghost use Rattle.collection_run.specs.Progress.{elements_asked};

use compact_values::{Copied, ExGuid, Guid, NoMemory, Seq};
use doc_model::{Answer, Code, Elements, Put, Reply, Sub, Submitted, WireKind};
use envelope_read::CellWord;
use std::alloc::Global;
use std::mem;

// The bits of a put's flag byte that count (MS-FSSHTTPB 2.2.2.1.4).
const IMPLY_NULL: u8 = 1;

const PARTIAL: u8 = 2;

const LAST: u8 = 4;

const LAST_WRITER_WINS: u8 = 128;

// Whether the flags have the bit of this value.
fn has_flag(flags: u8, value: u8) -> bool
    requires { ¬ (value ≡ 0) }
    ensures { result ≡ has_flag flags value }
{
    flags / value % 2 == 1
}

// The upload of the whole package, by the flags of a put.
fn put_of(
    carried: Option<Guid>,
    elements: Elements,
    index: ExGuid,
    expected: ExGuid,
    flags: u8,
) -> Put
    ensures { result ≡ put_of carried elements index expected flags }
{
    Put {
        index,
        expected,
        imply_null: has_flag(flags, IMPLY_NULL),
        partial: has_flag(flags, PARTIAL),
        last: has_flag(flags, LAST),
        last_writer_wins: has_flag(flags, LAST_WRITER_WINS),
        carried,
        elements,
    }
}

/// What a sub-request asks, if its kind is known. A put has all of the elements, which are moved into it.
pub(crate) fn asked(
    alloc: Global,
    carried: Option<Guid>,
    elements: &mut Elements,
    kind: &WireKind,
) -> Result<Option<Sub>, NoMemory>
    ensures asked { IfOk result (λ sub. sub ≡ asked carried elements.old kind.now) }
    ensures moved { IfOk result (λ sub. elements_asked sub elements.new ≡ elements.old) }
{
    match kind {
        WireKind::Access => Ok(Some(Sub::Access)),
        WireKind::Pull { knowledge } => Ok(Some(Sub::Pull {
            knowledge: knowledge.copied(alloc)?,
        })),
        WireKind::Put {
            index,
            expected,
            flags,
        } => {
            let all = mem::replace(elements, Seq::new(alloc));
            Ok(Some(Sub::Put {
                put: put_of(carried, all, *index, *expected, *flags),
            }))
        }
        WireKind::Draw { count } => Ok(Some(Sub::Draw { count: *count })),
        WireKind::Unknown => Ok(None),
    }
}

fn refusal_word(code: Code) -> CellWord
    ensures { fault_of (Submitted.Answered (Reply.Refused code)) ≡ Some result }
{
    match code {
        Code::AlreadyLocked => CellWord::Locked,
        _ => CellWord::CellFail,
    }
}

// What is said of a sub-request that failed, if it did.
fn fault_of(submitted: &Submitted) -> Option<CellWord>
    ensures { result ≡ fault_of submitted.now }
{
    match submitted {
        Submitted::Answered { reply } => match reply {
            Reply::Refused { code } => Some(refusal_word(*code)),
            _ => None,
        },
        Submitted::DiskFault => Some(CellWord::Disk),
        Submitted::JournalFull => Some(CellWord::Full),
        Submitted::NoMemory => Some(CellWord::Memory),
    }
}

/// What is said of a Cell: the first of its sub-requests that failed decides.
pub(crate) fn word_of(answers: &[Answer]) -> CellWord
    ensures { result ≡ word_of answers.now }
{
    for answer in answers {
        if let Some(word) = fault_of(&answer.submitted) {
            return word;
        }
    }
    CellWord::Fine
}
