ghost use Rattle.doc_model.specs.declared.lock.LockRecord.TheVariants.{Exclusive};
ghost use Rattle.doc_model.specs.declared.reply.Code.TheVariants.{NotLocked};
ghost use Rattle.doc_model.specs.rules.LockSteps.{becomes, stays, refuses, on_exclusive};
ghost use Rattle.coauth_state.specs.PlannedEffects.{IsEffect};
ghost use Rattle.lock_state.specs.Standing.{StandsExclusive};

use coauth_state::{LockPlan, Standing};
use compact_values::Guid;
use doc_model::{Code, LockRecord};

/// How a lock stands to an exclusive lock id.
fn exclusive_standing(lock: &LockRecord, id: Guid) -> Standing
    ensures { StandsExclusive id lock.now result }
{
    match lock {
        LockRecord::Free => Standing::Free,
        LockRecord::Exclusive { id: held, .. } => {
            if *held == id {
                Standing::Own
            } else {
                Standing::Other
            }
        }
        LockRecord::Shared { .. } => Standing::Other,
    }
}

/// Takes the lock, or sets the end of one's own.
pub fn take_exclusive(lock: LockRecord, id: Guid, until: u64) -> LockPlan
    ensures { IsEffect lock (on_exclusive id lock (becomes (Exclusive id until)) (becomes (Exclusive id until))) result }
{
    match exclusive_standing(&lock, id) {
        Standing::Free => LockPlan::change(lock, LockRecord::Exclusive { id, until }),
        Standing::Own => LockPlan::change(lock, LockRecord::Exclusive { id, until }),
        Standing::Other => LockPlan::refuse(lock, Code::AlreadyLocked),
    }
}

/// Changes one's own lock to another.
pub fn change_exclusive(lock: LockRecord, id: Guid, after: LockRecord) -> LockPlan
    ensures { IsEffect lock (on_exclusive id lock (refuses NotLocked) (becomes after)) result }
{
    match exclusive_standing(&lock, id) {
        Standing::Free => LockPlan::refuse(lock, Code::NotLocked),
        Standing::Own => LockPlan::change(lock, after),
        Standing::Other => LockPlan::refuse(lock, Code::AlreadyLocked),
    }
}

/// Whether the lock can be taken under this id.
pub fn check_exclusive(lock: LockRecord, id: Guid) -> LockPlan
    ensures { IsEffect lock (on_exclusive id lock stays stays) result }
{
    match exclusive_standing(&lock, id) {
        Standing::Free => LockPlan::stay(lock),
        Standing::Own => LockPlan::stay(lock),
        Standing::Other => LockPlan::refuse(lock, Code::AlreadyLocked),
    }
}
