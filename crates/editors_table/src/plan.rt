ghost use Rattle.std.specs.Prelude.{◌≡◌, true, None};
ghost use Rattle.doc_model.specs.rules.Editing.{stays, refuses};
ghost use Rattle.editors_table.specs.PlannedEffects.{IsEffect};

use doc_model::{Code, Editors};

/// What a step does with the table of editors: whether it changes it, the table afterwards, and why the step is refused, if it
/// is. In a plan that doesn't move, the table afterwards is that of the live editors.
#[derive(Debug, Drop)]
pub struct EditorPlan {
    pub moved: bool,
    pub after: Editors,
    pub code: Option<Code>,
}

impl EditorPlan {
    /// The table becomes another, whatever it was.
    pub fn change(after: Editors) -> EditorPlan
        ensures after { result.after ≡ after }
        ensures moved { result.moved ≡ true }
        ensures code { result.code ≡ None }
    {
        EditorPlan {
            moved: true,
            after,
            code: None,
        }
    }

    /// The table stays.
    pub fn stay(editors: Editors) -> EditorPlan
        ensures { IsEffect editors stays result }
    {
        EditorPlan {
            moved: false,
            after: editors,
            code: None,
        }
    }

    /// The step is refused.
    pub fn refuse(editors: Editors, code: Code) -> EditorPlan
        ensures { IsEffect editors (refuses code) result }
    {
        EditorPlan {
            moved: false,
            after: editors,
            code: Some(code),
        }
    }
}
