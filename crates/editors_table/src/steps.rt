ghost use Rattle.std.specs.Prelude.{◌≡◌, IfOk};
ghost use Rattle.doc_model.specs.rules.Editing.{becomes, on_editor, other_editors, edited, join, set_key, remove_key};
ghost use Rattle.editors_table.specs.PlannedEffects.{IsEffect};

use crate::editors::{count_others, others, own_editor, replaced, with_editor};
use crate::entries::{finds_no_place, has_key, is_long, with_entry, without_key};
use crate::plan::EditorPlan;
use compact_values::{Copied, Guid, NoMemory, Octets, Text};
use doc_model::limits::MOST_EDITORS;
use doc_model::{Code, Editor, Editors};
use std::alloc::Global;

/// The client joins, or refreshes its place.
pub fn join(
    alloc: Global,
    editors: Editors,
    client: Guid,
    user: &Text,
    until: u64,
) -> Result<EditorPlan, NoMemory>
    ensures { IfOk result (λ plan. IsEffect editors (join client user.now until editors) plan) }
{
    if count_others(editors.as_slice(), client) < MOST_EDITORS {
        let after = with_editor(alloc, editors, client, user, until)?;
        Ok(EditorPlan::change(after))
    } else {
        Ok(EditorPlan::refuse(editors, Code::EditorsFull))
    }
}

/// The client leaves.
pub fn leave(alloc: Global, editors: Editors, client: Guid) -> Result<EditorPlan, NoMemory>
    ensures { IfOk result (λ plan. IsEffect editors (on_editor client editors (λ e. becomes (other_editors client editors))) plan) }
{
    match own_editor(editors.as_slice(), client) {
        None => Ok(EditorPlan::refuse(editors, Code::EditorUnknown)),
        Some(_) => {
            let after = others(alloc, editors, client)?;
            Ok(EditorPlan::change(after))
        }
    }
}

/// The client stays until then.
pub fn refresh(
    alloc: Global,
    editors: Editors,
    client: Guid,
    until: u64,
) -> Result<EditorPlan, NoMemory>
    ensures { IfOk result (λ plan. IsEffect editors (on_editor client editors (λ e. becomes (edited client (λ x. record x { until = until }) editors))) plan) }
{
    match own_editor(editors.as_slice(), client) {
        None => Ok(EditorPlan::refuse(editors, Code::EditorUnknown)),
        Some(own) => {
            let own = own.copied(alloc)?;
            let after = replaced(editors, client, Editor { until, ..own });
            Ok(EditorPlan::change(after))
        }
    }
}

/// The client sets a key.
pub fn set_key(
    alloc: Global,
    editors: Editors,
    client: Guid,
    key: &Text,
    value: &Octets,
) -> Result<EditorPlan, NoMemory>
    ensures { IfOk result (λ plan. IsEffect editors (on_editor client editors (set_key client key.now value.now editors)) plan) }
{
    match own_editor(editors.as_slice(), client) {
        None => Ok(EditorPlan::refuse(editors, Code::EditorUnknown)),
        Some(own) => {
            if is_long(key.len()) || is_long(value.len()) {
                Ok(EditorPlan::refuse(editors, Code::MetadataLong))
            } else if finds_no_place(key, own.entries.as_slice()) {
                Ok(EditorPlan::refuse(editors, Code::MetadataFull))
            } else {
                let own = own.copied(alloc)?;
                let entries = with_entry(alloc, key, value, own.entries)?;
                let after = replaced(editors, client, Editor { entries, ..own });
                Ok(EditorPlan::change(after))
            }
        }
    }
}

/// The client removes a key.
pub fn remove_key(
    alloc: Global,
    editors: Editors,
    client: Guid,
    key: &Text,
) -> Result<EditorPlan, NoMemory>
    ensures { IfOk result (λ plan. IsEffect editors (on_editor client editors (remove_key client key.now editors)) plan) }
{
    match own_editor(editors.as_slice(), client) {
        None => Ok(EditorPlan::refuse(editors, Code::EditorUnknown)),
        Some(own) => {
            if has_key(key, own.entries.as_slice()) {
                let own = own.copied(alloc)?;
                let entries = without_key(alloc, key, own.entries)?;
                let after = replaced(editors, client, Editor { entries, ..own });
                Ok(EditorPlan::change(after))
            } else {
                Ok(EditorPlan::stay(editors))
            }
        }
    }
}
