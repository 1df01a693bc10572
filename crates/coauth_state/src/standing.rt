ghost use Rattle.coauth_state.specs.Standings.{StandsShared, StandsMember};

use crate::members::{is_member, members};
use compact_values::Guid;
use doc_model::LockRecord;

/// How a lock stands to an id, or to a client of a schema lock id: held by nobody there, by itself, or by others.
#[derive(Clone, Copy, Debug, PartialEq, Eq)]
pub enum Standing {
    Free,
    Own,
    Other,
}

/// How a lock stands to a schema lock id.
pub fn shared_standing(lock: &LockRecord, schema: Guid) -> Standing
    ensures { StandsShared schema lock.now result }
{
    match lock {
        LockRecord::Free => Standing::Free,
        LockRecord::Exclusive { .. } => Standing::Other,
        LockRecord::Shared { schema: held, .. } => {
            if *held == schema {
                Standing::Own
            } else {
                Standing::Other
            }
        }
    }
}

/// How a lock stands to a client of a schema lock id: it has no lock, its own, or others hold the lock.
pub fn member_standing(lock: &LockRecord, schema: Guid, client: Guid) -> Standing
    ensures { StandsMember schema client lock.now result }
{
    match shared_standing(lock, schema) {
        Standing::Free => Standing::Free,
        Standing::Own => {
            if is_member(members(lock), client) {
                Standing::Own
            } else {
                Standing::Free
            }
        }
        Standing::Other => Standing::Other,
    }
}
