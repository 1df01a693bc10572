ghost use Rattle.std.specs.Prelude.{◌≡◌, false, IfOk};
ghost use Rattle.doc_model.specs.declared.lock.LockRecord.TheVariants.{Shared};
ghost use Rattle.doc_model.specs.rules.Locks.{shared_by};
ghost use Rattle.doc_model.specs.rules.LockSteps.{becomes, stays, on_shared, on_member, others, with_client, take_shared, to_exclusive};
ghost use Rattle.coauth_state.specs.PlannedEffects.{IsEffect};

use crate::live_lock::shared_by;
use crate::members::{count_others, members, one_member, others, with_client};
use crate::plan::LockPlan;
use crate::standing::{Standing, member_standing, shared_standing};
use compact_values::{Guid, NoMemory};
use doc_model::limits::MOST_SHARING;
use doc_model::{Code, LockRecord};
use std::alloc::Global;

/// The client joins, or refreshes its place.
pub fn take_shared(
    alloc: Global,
    lock: LockRecord,
    schema: Guid,
    client: Guid,
    until: u64,
    coauthor: bool,
) -> Result<LockPlan, NoMemory>
    ensures { IfOk result (λ plan. IsEffect lock (take_shared schema client until coauthor lock) plan) }
{
    match shared_standing(&lock, schema) {
        Standing::Free => {
            let members = one_member(alloc, client, until, coauthor)?;
            Ok(LockPlan::change(lock, LockRecord::Shared { schema, members }))
        }
        Standing::Own => {
            if count_others(members(&lock), client) < MOST_SHARING {
                let members = with_client(alloc, members(&lock), client, until, coauthor)?;
                Ok(LockPlan::change(lock, LockRecord::Shared { schema, members }))
            } else {
                Ok(LockPlan::refuse(lock, Code::TooManyCoauthors))
            }
        }
        Standing::Other => Ok(LockPlan::refuse(lock, Code::AlreadyLocked)),
    }
}

/// The client leaves.
pub fn drop_shared(
    alloc: Global,
    lock: LockRecord,
    schema: Guid,
    client: Guid,
) -> Result<LockPlan, NoMemory>
    ensures { IfOk result (λ plan. IsEffect lock (on_member schema client lock (λ all. becomes (shared_by schema (others client all)))) plan) }
{
    match member_standing(&lock, schema, client) {
        Standing::Free => Ok(LockPlan::refuse(lock, Code::NotLocked)),
        Standing::Own => {
            let rest = others(alloc, members(&lock), client)?;
            Ok(LockPlan::change(lock, shared_by(schema, rest)))
        }
        Standing::Other => Ok(LockPlan::refuse(lock, Code::AlreadyLocked)),
    }
}

/// The client stays until then.
pub fn refresh_shared(
    alloc: Global,
    lock: LockRecord,
    schema: Guid,
    client: Guid,
    until: u64,
) -> Result<LockPlan, NoMemory>
    ensures { IfOk result (λ plan. IsEffect lock (on_member schema client lock (λ all. becomes (Shared schema (with_client client until false all)))) plan) }
{
    match member_standing(&lock, schema, client) {
        Standing::Free => Ok(LockPlan::refuse(lock, Code::NotLocked)),
        Standing::Own => {
            let members = with_client(alloc, members(&lock), client, until, false)?;
            Ok(LockPlan::change(lock, LockRecord::Shared { schema, members }))
        }
        Standing::Other => Ok(LockPlan::refuse(lock, Code::AlreadyLocked)),
    }
}

/// The client changes its lock to an exclusive one of this id, or leaves where others share it and `release` is asked.
pub fn to_exclusive(
    alloc: Global,
    lock: LockRecord,
    schema: Guid,
    client: Guid,
    id: Guid,
    until: u64,
    release: bool,
) -> Result<LockPlan, NoMemory>
    ensures { IfOk result (λ plan. IsEffect lock (to_exclusive schema client id until release lock) plan) }
{
    match member_standing(&lock, schema, client) {
        Standing::Free => Ok(LockPlan::refuse(lock, Code::NotLocked)),
        Standing::Own => {
            if count_others(members(&lock), client) == 0 {
                Ok(LockPlan::change(lock, LockRecord::Exclusive { id, until }))
            } else if release {
                let members = others(alloc, members(&lock), client)?;
                Ok(LockPlan::leave(lock, LockRecord::Shared { schema, members }))
            } else {
                Ok(LockPlan::refuse(lock, Code::ManyClients))
            }
        }
        Standing::Other => Ok(LockPlan::refuse(lock, Code::AlreadyLocked)),
    }
}

/// Whether the lock can be taken under this schema lock id.
pub fn check_shared(lock: LockRecord, schema: Guid) -> LockPlan
    ensures { IsEffect lock (on_shared schema lock stays (λ _. stays)) result }
{
    match shared_standing(&lock, schema) {
        Standing::Free => LockPlan::stay(lock),
        Standing::Own => LockPlan::stay(lock),
        Standing::Other => LockPlan::refuse(lock, Code::AlreadyLocked),
    }
}

/// Whether the client shares the lock.
pub fn check_member(lock: LockRecord, schema: Guid, client: Guid) -> LockPlan
    ensures { IsEffect lock (on_member schema client lock (λ _. stays)) result }
{
    match member_standing(&lock, schema, client) {
        Standing::Free => LockPlan::refuse(lock, Code::NotLocked),
        Standing::Own => LockPlan::stay(lock),
        Standing::Other => LockPlan::refuse(lock, Code::AlreadyLocked),
    }
}
