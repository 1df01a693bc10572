// Planning a step of the table of editors.
ghost use Rattle.std.specs.Prelude.{◌≡◌, ℕ, ◌+◌, ◌<◌, ◌^◌, IfOk, IfSome};
ghost use Rattle.doc_model.specs.rules.Apply.{IsPlanned};
ghost use Rattle.doc_model.specs.rules.Editing.{edit, editor_timeout_of};
ghost use Rattle.plain_core.specs.Keeping.{doc_of, planned_of};

use crate::plain::{Change, PlainCore};
use compact_values::{NoMemory, Text};
use doc_model::{EditorStep, Plan};
use editors_table::{reply, step};

impl PlainCore {
    /// Plans a step of the table of editors.
    pub(crate) fn plan_edit(
        &self,
        moment: u64,
        user: &Text,
        asked: &EditorStep,
    ) -> Result<Plan<Change>, NoMemory>
        requires { IfSome (editor_timeout_of asked.now) (λ t. moment + t < 2 ^ 64) }
        ensures { IfOk result (λ p. IsPlanned (edit (doc_of self.now) moment user.now asked.now) p (planned_of self.now p.fresh)) }
    {
        let alloc = self.alloc;
        let plan = step(alloc, &self.editors, moment, user, asked)?;
        let answer = reply(&plan);
        if plan.moved {
            Ok(Plan {
                moved: true,
                reply: answer,
                fresh: Change::Edit {
                    editors: plan.after,
                },
            })
        } else {
            Ok(Plan {
                moved: false,
                reply: answer,
                fresh: Change::Nothing,
            })
        }
    }
}
