use compact_values::{Guid, Seq};

/// The members of a shared lock.
pub type Members = Seq<Member>;

/// The lock of a document (MS-FSSHTTP 3.1.1): held by one client under an exclusive lock id, or shared by the clients that
/// use one schema lock id. What has expired stays in it until the next change.
#[derive(Debug, Drop, PartialEq, Eq)]
pub enum LockRecord {
    Free,
    Exclusive { id: Guid, until: u64 },
    Shared { schema: Guid, members: Members },
}

/// A client that shares a lock until a moment, and whether it is a coauthor.
#[derive(Clone, Copy, Debug, PartialEq, Eq)]
pub struct Member {
    pub client: Guid,
    pub until: u64,
    pub coauthor: bool,
}

/// What a client asks of a lock. Timeouts are seconds.
#[derive(Clone, Copy, Debug, PartialEq, Eq)]
pub enum LockStep {
    /// Get lock, or refresh one's own (MS-FSSHTTP 3.1.4.5).
    TakeExclusive {
        id: Guid,
        timeout: u64,
    },
    /// Release lock.
    DropExclusive {
        id: Guid,
    },
    /// Refresh lock.
    RefreshExclusive {
        id: Guid,
        timeout: u64,
    },
    /// Check lock availability.
    CheckExclusive {
        id: Guid,
    },
    /// Convert to a schema lock; as a coauthor, or not.
    ToShared {
        id: Guid,
        schema: Guid,
        client: Guid,
        timeout: u64,
        coauthor: bool,
    },
    /// Get lock (MS-FSSHTTP 3.1.4.4), or, as a coauthor, join coauthoring (3.1.4.3).
    TakeShared {
        schema: Guid,
        client: Guid,
        timeout: u64,
        coauthor: bool,
    },
    /// Release lock, exit coauthoring.
    DropShared {
        schema: Guid,
        client: Guid,
    },
    /// Refresh lock, refresh coauthoring.
    RefreshShared {
        schema: Guid,
        client: Guid,
        timeout: u64,
    },
    /// Convert to an exclusive lock; with `release`, leave where other clients share the lock.
    ToExclusive {
        schema: Guid,
        client: Guid,
        id: Guid,
        timeout: u64,
        release: bool,
    },
    /// Check lock availability.
    CheckShared {
        schema: Guid,
    },
    /// Get coauthoring status.
    Status {
        schema: Guid,
        client: Guid,
    },
    /// Mark transition to complete.
    Mark {
        schema: Guid,
        client: Guid,
    },
}

/// What a lock is after a step.
#[derive(Clone, Copy, Debug, PartialEq, Eq)]
pub enum LockKind {
    Exclusive,
    Schema,
}

/// How many of those who share a lock are coauthors: none, one, or more.
#[derive(Clone, Copy, Debug, PartialEq, Eq)]
pub enum Coauthors {
    Nobody,
    Alone,
    Several,
}
