ghost use Rattle.std.specs.Prelude.{◌≡◌};
ghost use Rattle.doc_model.specs.rules.Editing.{editors_reply};

use crate::plan::EditorPlan;
use doc_model::Reply;

/// What a planned step is answered: its refusal, or that it is done.
pub fn reply(plan: &EditorPlan) -> Reply
    ensures { result ≡ editors_reply plan.now.code }
{
    match plan.code {
        Some(code) => Reply::Refused { code },
        None => Reply::Done,
    }
}
