use crate::element::Numbered;
use crate::knowledge::Knowledge;
use compact_values::{ExGuid, Guid, Seq};

/// What the sub-responses of a response say, in order.
pub type Seens = Seq<Seen>;

/// A response as a client reads it (MS-FSSHTTPB 2.2.3): what its sub-responses say, and the data elements that came with
/// it, each with the value of its serial number.
#[derive(Debug, Drop, PartialEq, Eq)]
pub struct CellResponse {
    pub answers: Seens,
    pub elements: Numbered,
}

/// What a sub-response says: the id and the kind of the sub-request that it answers, and the number of the error or what
/// a sub-request of its kind is answered. A part that another kind of answer has is null, empty or 0.
#[derive(Debug, Drop, PartialEq, Eq)]
pub struct Seen {
    pub id: u64,
    pub kind: u64,
    /// The number of the error, where the sub-request failed.
    pub fault: Option<u32>,
    /// The GUID of the numbers that were allocated.
    pub guid: Guid,
    /// The id of the storage index that a query was answered.
    pub index: ExGuid,
    /// What the client knows once it has the answer.
    pub knowledge: Knowledge,
    /// The first number that was allocated.
    pub least: u64,
    /// The last number that was allocated.
    pub greatest: u64,
}

/// How a sub-request is answered, by its kind, where it didn't fail.
#[derive(Clone, Copy, Debug, PartialEq, Eq)]
pub enum ReplyForm {
    /// A cell error, whatever the kind is.
    Failed,
    /// Kind 1, query access.
    Access,
    /// Kind 2, query changes.
    Pulled,
    /// Kind 5, put changes.
    Stored,
    /// Kind 11, allocate extended GUID range.
    Drawn,
}
