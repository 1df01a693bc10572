use crate::editor::EditorStep;
use crate::element::Elements;
use crate::knowledge::Knowledge;
use crate::lock::LockStep;
use compact_values::{ExGuid, Guid, Text};

/// An upload (Put Changes, MS-FSSHTTPB 2.2.2.1.4): the storage index to commit, the one that it was made from, and the
/// elements. `imply_null` lets any expected index count as null while nothing was committed. A `partial` put that isn't the
/// `last` one of its upload keeps its elements for the others. `carried` is the lock id that the caller names.
#[derive(Debug, Drop, PartialEq, Eq)]
pub struct Put {
    pub index: ExGuid,
    pub expected: ExGuid,
    pub imply_null: bool,
    pub partial: bool,
    pub last: bool,
    pub last_writer_wins: bool,
    pub carried: Option<Guid>,
    pub elements: Elements,
}

/// One call on a document: the moment, in seconds, the caller's user, and what is asked.
#[derive(Debug, Drop, PartialEq, Eq)]
pub struct Call {
    pub moment: u64,
    pub user: Text,
    pub sub: Sub,
}

/// What a call asks of a document.
#[derive(Debug, Drop, PartialEq, Eq)]
pub enum Sub {
    /// Query Access: whether the caller may read and write.
    Access,
    /// Query Changes: what the caller, who knows this, lacks.
    Pull { knowledge: Knowledge },
    /// Put Changes: an upload.
    Put { put: Put },
    /// Allocate Extended GUID Range: so many numbers.
    Draw { count: u64 },
    /// A step of the document's lock (MS-FSSHTTP 3.1.4.3 to 3.1.4.5).
    Lock { step: LockStep },
    /// A step of the table of editors (MS-FSSHTTP 3.1.4.8).
    Editor { step: EditorStep },
    /// The versions.
    Versions,
    /// Commit anew what this version is, the first one being version 1. `carried` is the lock id that the caller names.
    Restore { number: u64, carried: Option<Guid> },
    /// The file.
    ReadFile,
    /// Whether at most one client edits the document.
    AmIAlone,
    /// The caller's user.
    WhoAmI,
}
