ghost use Rattle.std.specs.Prelude.{◌≡◌, ℕ, ◌+◌, ◌<◌, ◌^◌, IfOk, IfSome, IsTrue};
ghost use Rattle.doc_model.specs.rules.Locks.{live};
ghost use Rattle.doc_model.specs.rules.LockSteps.{is_shared_step, lock_effect, timeout_of};
ghost use Rattle.coauth_state.specs.PlannedEffects.{IsEffect};

use crate::live_lock::live;
use crate::plan::LockPlan;
use crate::steps::{
    check_member, check_shared, drop_shared, refresh_shared, take_shared, to_exclusive,
};
use compact_values::NoMemory;
use doc_model::{LockRecord, LockStep};
use std::alloc::Global;

/// Whether a step is one of a shared lock: take, drop, refresh, conversion to an exclusive lock, check, status or mark.
pub fn is_shared_step(step: &LockStep) -> bool
    ensures { result ≡ is_shared_step step.now }
{
    match step {
        LockStep::TakeExclusive { .. } => false,
        LockStep::DropExclusive { .. } => false,
        LockStep::RefreshExclusive { .. } => false,
        LockStep::CheckExclusive { .. } => false,
        LockStep::ToShared { .. } => false,
        _ => true,
    }
}

/// What a step of a shared lock does with the lock at a moment, in seconds.
pub fn shared(
    alloc: Global,
    lock: &LockRecord,
    moment: u64,
    step: &LockStep,
) -> Result<LockPlan, NoMemory>
    requires shared { IsTrue (is_shared_step step.now) }
    requires sums { IfSome (timeout_of step.now) (λ t. moment + t < 2 ^ 64) }
    ensures { IfOk result (λ plan. IsEffect (live lock.now moment) (lock_effect moment step.now (live lock.now moment)) plan) }
{
    let lock = live(alloc, lock, moment)?;
    match *step {
        LockStep::TakeShared {
            schema,
            client,
            timeout,
            coauthor,
        } => Ok(take_shared(alloc, lock, schema, client, moment + timeout, coauthor)?),
        LockStep::DropShared { schema, client } => Ok(drop_shared(alloc, lock, schema, client)?),
        LockStep::RefreshShared {
            schema,
            client,
            timeout,
        } => Ok(refresh_shared(alloc, lock, schema, client, moment + timeout)?),
        LockStep::ToExclusive {
            schema,
            client,
            id,
            timeout,
            release,
        } => Ok(to_exclusive(alloc, lock, schema, client, id, moment + timeout, release)?),
        LockStep::CheckShared { schema } => Ok(check_shared(lock, schema)),
        LockStep::Status { schema, client } => Ok(check_member(lock, schema, client)),
        LockStep::Mark { schema, client } => Ok(check_member(lock, schema, client)),
        _ => unreachable!(),
    }
}
