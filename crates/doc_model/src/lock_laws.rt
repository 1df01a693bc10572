//! Laws of locks: each function's contract is one, and it does nothing.
ghost use Rattle.doc_model.specs.laws.Locks.{KeepsExclusive, KeepsMembers};

/// A call leaves a live exclusive lock, but for its holder's own drop and conversion; and its end, but for its
/// holder's own take and refresh.
pub fn a_live_exclusive_lock_stays()
    ensures { KeepsExclusive }
{}

/// A call leaves each live member of a shared lock, but for the member's own drop and conversion; and its end, but for
/// the member's own take and refresh.
pub fn live_members_stay()
    ensures { KeepsMembers }
{}
