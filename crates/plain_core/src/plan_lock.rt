// Planning a step of the lock.
ghost use Rattle.std.specs.Prelude.{◌≡◌, ℕ, ◌+◌, ◌<◌, ◌^◌, IfOk, IfSome};
ghost use Rattle.doc_model.specs.rules.Apply.{IsPlanned};
ghost use Rattle.doc_model.specs.rules.Locking.{do_lock};
ghost use Rattle.doc_model.specs.rules.LockSteps.{timeout_of};
ghost use Rattle.plain_core.specs.Keeping.{doc_of, planned_of};

use crate::plain::{Change, PlainCore};
use compact_values::NoMemory;
use doc_model::{LockStep, Plan};
use lock_state::{reply, step};

impl PlainCore {
    /// Plans a step of the lock.
    pub(crate) fn plan_lock(&self, moment: u64, asked: &LockStep) -> Result<Plan<Change>, NoMemory>
        requires { IfSome (timeout_of asked.now) (λ t. moment + t < 2 ^ 64) }
        ensures { IfOk result (λ p. IsPlanned (do_lock (doc_of self.now) moment asked.now) p (planned_of self.now p.fresh)) }
    {
        let alloc = self.alloc;
        let plan = step(alloc, &self.lock, moment, asked)?;
        let answer = reply(self.guid, asked, &plan);
        if plan.moved {
            Ok(Plan {
                moved: true,
                reply: answer,
                fresh: Change::Lock { lock: plan.after },
            })
        } else {
            Ok(Plan {
                moved: false,
                reply: answer,
                fresh: Change::Nothing,
            })
        }
    }
}
