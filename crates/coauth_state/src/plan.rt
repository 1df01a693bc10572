ghost use Rattle.std.specs.Prelude.{◌≡◌};
ghost use Rattle.doc_model.specs.rules.LockSteps.{becomes, stays, refuses, leaves};
ghost use Rattle.coauth_state.specs.PlannedEffects.{IsEffect};

use doc_model::{Code, LockRecord};

/// What a step does with a lock: whether it changes it, the lock afterwards, and why the step is refused, if it is. In a plan
/// that doesn't move, the lock afterwards is the live lock.
#[derive(Debug, Drop)]
pub struct LockPlan {
    pub moved: bool,
    pub after: LockRecord,
    pub code: Option<Code>,
}

impl LockPlan {
    /// The lock becomes another.
    pub fn change(old: LockRecord, after: LockRecord) -> LockPlan
        ensures { IsEffect old (becomes after) result }
    {
        drop(old);
        LockPlan {
            moved: true,
            after,
            code: None,
        }
    }

    /// The lock stays.
    pub fn stay(lock: LockRecord) -> LockPlan
        ensures { IsEffect lock stays result }
    {
        LockPlan {
            moved: false,
            after: lock,
            code: None,
        }
    }

    /// The step is refused.
    pub fn refuse(lock: LockRecord, code: Code) -> LockPlan
        ensures { IsEffect lock (refuses code) result }
    {
        LockPlan {
            moved: false,
            after: lock,
            code: Some(code),
        }
    }

    /// The client leaves, and is refused.
    pub fn leave(old: LockRecord, after: LockRecord) -> LockPlan
        ensures { IsEffect old (leaves after) result }
    {
        drop(old);
        LockPlan {
            moved: true,
            after,
            code: Some(Code::LeftOnFailedConversion),
        }
    }
}
