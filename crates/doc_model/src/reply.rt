use crate::doc::Commits;
use crate::element::Numbered;
use crate::knowledge::Knowledge;
use crate::lock::{Coauthors, LockKind};
use compact_values::{ExGuid, Guid, Octets, Seq, Text};

/// What became of a sub-request: its id and kind, and what its call was answered.
#[derive(Debug, Drop, PartialEq, Eq)]
pub struct Answer {
    pub id: u64,
    pub kind: u64,
    pub submitted: Submitted,
}

/// The answers of a response, in order.
pub type Answers = Seq<Answer>;

/// What became of a call. After each of the last three the document is as it was before.
#[derive(Debug, Drop, PartialEq, Eq)]
pub enum Submitted {
    /// The call was done, or refused by the rules of the document.
    Answered { reply: Reply },
    /// The change could not be kept, since the disk failed.
    DiskFault,
    /// The change could not be kept, since the journal has no room for another body.
    JournalFull,
    /// No memory was left.
    NoMemory,
}

/// The reply of a document.
#[derive(Debug, Drop, PartialEq, Eq)]
pub enum Reply {
    /// What was asked is done.
    Done,
    /// The caller may read and write.
    Access,
    /// The stored index, the elements that the caller lacks, in order of their serial numbers of `guid`, and what it knows
    /// with them.
    Pulled {
        guid: Guid,
        index: ExGuid,
        elements: Numbered,
        knowledge: Knowledge,
    },
    /// What was put is kept; the knowledge has the serial numbers of its elements.
    Stored {
        knowledge: Knowledge,
    },
    /// The numbers `least` to `greatest`, both of them too, of the document's GUID are the caller's.
    Drawn {
        guid: Guid,
        least: u64,
        greatest: u64,
    },
    /// What the lock is now, and how many of those who share it are coauthors.
    Locked {
        guid: Guid,
        kind: LockKind,
        status: Coauthors,
    },
    /// The versions.
    VersionList {
        commits: Commits,
    },
    /// The file.
    File {
        bytes: Octets,
    },
    /// Whether nobody else edits the document.
    Lone {
        alone: bool,
    },
    /// The caller's user.
    Me {
        user: Text,
    },
    /// The rules of the document refuse the call.
    Refused {
        code: Code,
    },
}

/// Why a call was refused. Those that a binary sub-request can meet have a number in the cell error of a response
/// (MS-FSSHTTPB 2.2.3.2).
#[derive(Clone, Copy, Debug, PartialEq, Eq)]
pub enum Code {
    /// An object may not be stored as it was sent: 2.
    InvalidObject,
    /// The call asks for what the host doesn't do: 4.
    NotSupported,
    /// The document has changed since the state that the call was made from: 12.
    Coherency,
    /// A named element isn't there: 16.
    NotFound,
    /// The document has no room for more: 21.
    StorageLimit,
    /// What was sent is no file: 23.
    Unserializable,
    /// A live lock forbids the call: 1001.
    AlreadyLocked,
    /// There is no lock that the step speaks of.
    NotLocked,
    /// The lock is shared by as many clients as may share it.
    TooManyCoauthors,
    /// Other clients share the lock.
    ManyClients,
    /// Other clients share the lock, and the caller has left it.
    LeftOnFailedConversion,
    /// As many clients edit the document as may.
    EditorsFull,
    /// The client doesn't edit the document.
    EditorUnknown,
    /// The editor has as many keys as it may have.
    MetadataFull,
    /// The key or the value is too long.
    MetadataLong,
    /// There is no such version.
    VersionUnknown,
    /// All numbers of extended GUIDs were handed out.
    NoNumbers,
}
