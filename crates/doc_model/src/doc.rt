use crate::editor::Editors;
use crate::element::Elements;
use crate::lock::LockRecord;
use compact_values::{ExGuid, Guid, Seq, Text};

/// The versions of a document, the first one first.
pub type Commits = Seq<Commit>;

/// The uploads of a document that aren't complete.
pub type Parts = Seq<Part>;

/// A version of a document: the storage index that describes it, and when and by whom it was committed. The k-th commit is
/// version k.
#[derive(Debug, Drop, PartialEq, Eq)]
pub struct Commit {
    pub index: ExGuid,
    pub moment: u64,
    pub user: Text,
}

/// An upload that isn't complete: the storage index that it is for, the elements that came so far, in order, and the moment
/// of its last put.
#[derive(Debug, Drop, PartialEq, Eq)]
pub struct Part {
    pub index: ExGuid,
    pub elements: Elements,
    pub moment: u64,
}

/// A document. The k-th element of `added` has serial number k. The numbers 1 to `drawn` of extended GUIDs of `guid` were
/// handed out.
#[derive(Debug, Drop, PartialEq, Eq)]
pub struct Doc {
    pub guid: Guid,
    pub added: Elements,
    pub commits: Commits,
    pub lock: LockRecord,
    pub editors: Editors,
    pub parts: Parts,
    pub drawn: u64,
}
