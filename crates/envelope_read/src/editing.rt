// The steps of the table of editors, by request words (MS-FSSHTTP 3.1.4.8). None where the word is unknown, or an attribute
// that it needs is absent or in no form.
ghost use Rattle.std.specs.Prelude.{◌≡◌, IfOk};
ghost use Rattle.envelope_read.specs.Editing.{join_of, leave_of, refresh_of, set_key, remove_key, editor_step};

use crate::locking::client_id;
use crate::lookup::{is, timeout_at, value_of};
use compact_values::{Copied, NoMemory, Octets};
use doc_model::EditorStep;
use envelope_grammar::Attribute;
use std::alloc::Global;

#[tactic(auto, unfolding(crate::specs::Editing::join_of))]
fn join_of(attributes: &[Attribute]) -> Option<EditorStep>
    ensures { result ≡ join_of attributes.now }
{
    let client = client_id(attributes)?;
    let timeout = timeout_at(attributes)?;
    Some(EditorStep::Join { client, timeout })
}

#[tactic(auto, unfolding(crate::specs::Editing::leave_of))]
fn leave_of(attributes: &[Attribute]) -> Option<EditorStep>
    ensures { result ≡ leave_of attributes.now }
{
    let client = client_id(attributes)?;
    Some(EditorStep::Leave { client })
}

#[tactic(auto, unfolding(crate::specs::Editing::refresh_of))]
fn refresh_of(attributes: &[Attribute]) -> Option<EditorStep>
    ensures { result ≡ refresh_of attributes.now }
{
    let client = client_id(attributes)?;
    let timeout = timeout_at(attributes)?;
    Some(EditorStep::Refresh { client, timeout })
}

/// The step of UpdateEditorMetadata, whose text means this value.
#[tactic(auto, unfolding(crate::specs::Editing::set_key))]
pub(crate) fn set_key(
    alloc: Global,
    value: Octets,
    attributes: &[Attribute],
) -> Result<Option<EditorStep>, NoMemory>
    ensures { IfOk result (λ step. step ≡ set_key value attributes.now) }
{
    let Some(client) = client_id(attributes) else {
        return Ok(None);
    };
    let Some(key) = value_of(b"Key", attributes) else {
        return Ok(None);
    };
    let key = key.copied(alloc)?;
    Ok(Some(EditorStep::SetKey { client, key, value }))
}

#[tactic(auto, unfolding(crate::specs::Editing::remove_key))]
fn remove_key(alloc: Global, attributes: &[Attribute]) -> Result<Option<EditorStep>, NoMemory>
    ensures { IfOk result (λ step. step ≡ remove_key attributes.now) }
{
    let Some(client) = client_id(attributes) else {
        return Ok(None);
    };
    let Some(key) = value_of(b"Key", attributes) else {
        return Ok(None);
    };
    let key = key.copied(alloc)?;
    Ok(Some(EditorStep::RemoveKey { client, key }))
}

/// The step of any other request word of EditorsTable.
#[tactic(auto, unfolding(crate::specs::Editing::editor_step))]
pub(crate) fn editor_step(
    alloc: Global,
    word: &[u8],
    attributes: &[Attribute],
) -> Result<Option<EditorStep>, NoMemory>
    ensures { IfOk result (λ step. step ≡ editor_step word.now attributes.now) }
{
    if is(word, b"JoinEditingSession") {
        return Ok(join_of(attributes));
    }
    if is(word, b"LeaveEditingSession") {
        return Ok(leave_of(attributes));
    }
    if is(word, b"RefreshEditingSession") {
        return Ok(refresh_of(attributes));
    }
    if is(word, b"RemoveEditorMetadata") {
        return remove_key(alloc, attributes);
    }
    Ok(None)
}
