use crate::element::Elements;
use crate::knowledge::Knowledge;
use compact_values::{ExGuid, Seq};

/// The sub-requests of a request, in order.
pub type WireSubs = Seq<WireSub>;

/// A binary request (MS-FSSHTTPB 2.2.2): its sub-requests and the elements of its package, both in order.
#[derive(Debug, Drop, PartialEq, Eq)]
pub struct CellRequest {
    pub subs: WireSubs,
    pub elements: Elements,
}

/// A sub-request (MS-FSSHTTPB 2.2.2.1). Its answer repeats its id and its kind.
#[derive(Debug, Drop, PartialEq, Eq)]
pub struct WireSub {
    pub id: u64,
    pub kind: u64,
    pub what: WireKind,
}

/// What a sub-request asks for, by its kind.
#[derive(Debug, Drop, PartialEq, Eq)]
pub enum WireKind {
    /// Kind 1, QueryAccess: whether the client may read and write.
    Access,
    /// Kind 2, QueryChanges: the elements that the client doesn't know yet.
    Pull {
        knowledge: Knowledge,
    },
    /// Kind 5, PutChanges: the storage index `index` is to follow the one that the client expects. The flags say how.
    Put {
        index: ExGuid,
        expected: ExGuid,
        flags: u8,
    },
    /// Kind 11, AllocateExtendedGuidRange: so many numbers of extended GUIDs.
    Draw {
        count: u64,
    },
    /// Any other kind.
    Unknown,
}
