ghost use Rattle.std.specs.Prelude.{◌≡◌};
ghost use Rattle.doc_model.specs.rules.LockSteps.{lock_kind, tells_lock, lock_reply};

use coauth_state::{LockPlan, coauthors};
use compact_values::Guid;
use doc_model::{LockKind, LockRecord, LockStep, Reply};

fn kind(lock: &LockRecord) -> LockKind
    ensures { result ≡ lock_kind lock.now }
{
    match lock {
        LockRecord::Shared { .. } => LockKind::Schema,
        _ => LockKind::Exclusive,
    }
}

/// Whether a step is answered with what the lock is then: take, refresh, conversion and status.
fn tells_lock(step: &LockStep) -> bool
    ensures { result ≡ tells_lock step.now }
{
    match step {
        LockStep::DropExclusive { .. } => false,
        LockStep::CheckExclusive { .. } => false,
        LockStep::DropShared { .. } => false,
        LockStep::CheckShared { .. } => false,
        LockStep::Mark { .. } => false,
        _ => true,
    }
}

/// What a planned step is answered: its refusal; or the document's GUID, the kind of the lock afterwards and its coauthors;
/// or that it is done.
pub fn reply(guid: Guid, step: &LockStep, plan: &LockPlan) -> Reply
    ensures { result ≡ lock_reply guid step.now plan.now.after plan.now.code }
{
    match plan.code {
        Some(code) => Reply::Refused { code },
        None => {
            if tells_lock(step) {
                Reply::Locked {
                    guid,
                    kind: kind(&plan.after),
                    status: coauthors(&plan.after),
                }
            } else {
                Reply::Done
            }
        }
    }
}
