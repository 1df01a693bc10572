ghost use Rattle.std.specs.Prelude.{◌≡◌, ℕ, ◌+◌, ◌<◌, ◌^◌, IfOk, IfSome};
ghost use Rattle.doc_model.specs.rules.Editing.{editor_timeout_of, editor_effect, live_editors};
ghost use Rattle.editors_table.specs.PlannedEffects.{IsEffect};

use crate::live::live_editors;
use crate::plan::EditorPlan;
use crate::steps::{join, leave, refresh, remove_key, set_key};
use compact_values::{NoMemory, Text};
use doc_model::{EditorStep, Editors};
use std::alloc::Global;

/// What a step by a user does with the table of editors at a moment, in seconds.
pub fn step(
    alloc: Global,
    editors: &Editors,
    moment: u64,
    user: &Text,
    step: &EditorStep,
) -> Result<EditorPlan, NoMemory>
    requires { IfSome (editor_timeout_of step.now) (λ t. moment + t < 2 ^ 64) }
    ensures { IfOk result (λ plan. IsEffect (live_editors editors.now moment) (editor_effect moment user.now step.now (live_editors editors.now moment)) plan) }
{
    let editors = live_editors(alloc, editors, moment)?;
    match step {
        EditorStep::Join { client, timeout } => {
            Ok(join(alloc, editors, *client, user, moment + *timeout)?)
        }
        EditorStep::Leave { client } => Ok(leave(alloc, editors, *client)?),
        EditorStep::Refresh { client, timeout } => {
            Ok(refresh(alloc, editors, *client, moment + *timeout)?)
        }
        EditorStep::SetKey { client, key, value } => {
            Ok(set_key(alloc, editors, *client, key, value)?)
        }
        EditorStep::RemoveKey { client, key } => Ok(remove_key(alloc, editors, *client, key)?),
    }
}
