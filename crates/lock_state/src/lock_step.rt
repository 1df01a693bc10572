ghost use Rattle.std.specs.Prelude.{◌≡◌, ℕ, ◌+◌, ◌<◌, ◌^◌, IfOk, IfSome};
ghost use Rattle.doc_model.specs.rules.Locks.{live};
ghost use Rattle.doc_model.specs.rules.LockSteps.{lock_effect, timeout_of};
ghost use Rattle.coauth_state.specs.PlannedEffects.{IsEffect};

use crate::exclusive::{change_exclusive, check_exclusive, take_exclusive};
use coauth_state::{LockPlan, live, one_member, shared};
use compact_values::NoMemory;
use doc_model::{LockRecord, LockStep};
use std::alloc::Global;

/// What a step does with the lock at a moment, in seconds.
pub fn step(
    alloc: Global,
    lock: &LockRecord,
    moment: u64,
    step: &LockStep,
) -> Result<LockPlan, NoMemory>
    requires { IfSome (timeout_of step.now) (λ t. moment + t < 2 ^ 64) }
    ensures { IfOk result (λ plan. IsEffect (live lock.now moment) (lock_effect moment step.now (live lock.now moment)) plan) }
{
    match *step {
        LockStep::TakeExclusive { id, timeout } => {
            let lock = live(alloc, lock, moment)?;
            Ok(take_exclusive(lock, id, moment + timeout))
        }
        LockStep::DropExclusive { id } => {
            let lock = live(alloc, lock, moment)?;
            Ok(change_exclusive(lock, id, LockRecord::Free))
        }
        LockStep::RefreshExclusive { id, timeout } => {
            let lock = live(alloc, lock, moment)?;
            let until = moment + timeout;
            Ok(change_exclusive(lock, id, LockRecord::Exclusive { id, until }))
        }
        LockStep::CheckExclusive { id } => {
            let lock = live(alloc, lock, moment)?;
            Ok(check_exclusive(lock, id))
        }
        LockStep::ToShared {
            id,
            schema,
            client,
            timeout,
            coauthor,
        } => {
            let lock = live(alloc, lock, moment)?;
            let members = one_member(alloc, client, moment + timeout, coauthor)?;
            Ok(change_exclusive(lock, id, LockRecord::Shared { schema, members }))
        }
        _ => Ok(shared(alloc, lock, moment, step)?),
    }
}
