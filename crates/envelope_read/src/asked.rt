// What a SubRequest asks, by its Type (MS-FSSHTTP 2.2.3). None where its text is to be base64 and is none.
ghost use Rattle.std.specs.Prelude.{◌≡◌, IfOk};
ghost use Rattle.envelope_read.specs.Asked.{asked_or_bad, cell_with, cell_asked, lock_or_bad, editor_or_bad, editor_asked, restore_of, version_asked, exclusive_asked, schema_asked, coauth_asked, table_asked, versions_asked, what_of, data_attributes, data_text, sub_of};

use crate::base::decoded;
use crate::collection::{SubAsk, What};
use crate::depending::depend_of;
use crate::editing::{editor_step, set_key};
use crate::locking::{coauth_step, exclusive_step, schema_step};
use crate::lookup::{bytes_of, carried_at, content_at, is, number_at, text_of};
use compact_values::{NoMemory, Octets};
use doc_model::{EditorStep, LockStep, Sub};
use envelope_grammar::{Attribute, Payload, RawSub};
use std::alloc::Global;

fn asked_or_bad(what: Option<What>) -> What
    ensures { result ≡ asked_or_bad what }
{
    match what {
        Some(what) => what,
        None => What::BadArgument,
    }
}

#[tactic(auto, unfolding(crate::specs::Asked::cell_with))]
fn cell_with(bytes: Octets, attributes: &[Attribute]) -> Option<What>
    ensures { result ≡ cell_with bytes attributes.now }
{
    let content = content_at(attributes)?;
    let carried = carried_at(attributes)?;
    Some(What::Cell {
        bytes,
        content,
        carried,
    })
}

#[tactic(auto, unfolding(crate::specs::Asked::cell_asked))]
fn cell_asked(
    alloc: Global,
    attributes: &[Attribute],
    text: &[u8],
) -> Result<Option<What>, NoMemory>
    ensures { IfOk result (λ what. what ≡ cell_asked attributes.now text.now) }
{
    match decoded(alloc, text)? {
        Some(bytes) => Ok(Some(asked_or_bad(cell_with(bytes, attributes)))),
        None => Ok(None),
    }
}

fn lock_or_bad(step: Option<LockStep>) -> What
    ensures { result ≡ lock_or_bad step }
{
    match step {
        Some(step) => What::Plain {
            sub: Sub::Lock { step },
        },
        None => What::BadArgument,
    }
}

fn editor_or_bad(step: Option<EditorStep>) -> What
    ensures { result ≡ editor_or_bad step }
{
    match step {
        Some(step) => What::Plain {
            sub: Sub::Editor { step },
        },
        None => What::BadArgument,
    }
}

#[tactic(auto, unfolding(crate::specs::Asked::editor_asked))]
fn editor_asked(
    alloc: Global,
    word: &[u8],
    attributes: &[Attribute],
    text: &[u8],
) -> Result<Option<What>, NoMemory>
    ensures { IfOk result (λ what. what ≡ editor_asked word.now attributes.now text.now) }
{
    if is(word, b"UpdateEditorMetadata") {
        let Some(value) = decoded(alloc, text)? else {
            return Ok(None);
        };
        let step = set_key(alloc, value, attributes)?;
        return Ok(Some(editor_or_bad(step)));
    }
    let step = editor_step(alloc, word, attributes)?;
    Ok(Some(editor_or_bad(step)))
}

#[tactic(auto, unfolding(crate::specs::Asked::restore_of))]
fn restore_of(attributes: &[Attribute]) -> Option<What>
    ensures { result ≡ restore_of attributes.now }
{
    let number = number_at(b"Version", attributes)?;
    let carried = carried_at(attributes)?;
    Some(What::Plain {
        sub: Sub::Restore { number, carried },
    })
}

#[tactic(auto, unfolding(crate::specs::Asked::version_asked))]
fn version_asked(word: &[u8], attributes: &[Attribute]) -> What
    ensures { result ≡ version_asked word.now attributes.now }
{
    if is(word, b"GetVersionList") {
        return What::Plain { sub: Sub::Versions };
    }
    if is(word, b"RestoreVersion") {
        return asked_or_bad(restore_of(attributes));
    }
    What::BadArgument
}

#[tactic(auto, unfolding(crate::specs::Asked::exclusive_asked))]
fn exclusive_asked(attributes: &[Attribute]) -> What
    ensures { result ≡ exclusive_asked attributes.now }
{
    let word = bytes_of(b"ExclusiveLockRequestType", attributes);
    lock_or_bad(exclusive_step(word, attributes))
}

#[tactic(auto, unfolding(crate::specs::Asked::schema_asked))]
fn schema_asked(attributes: &[Attribute]) -> What
    ensures { result ≡ schema_asked attributes.now }
{
    let word = bytes_of(b"SchemaLockRequestType", attributes);
    lock_or_bad(schema_step(word, attributes))
}

#[tactic(auto, unfolding(crate::specs::Asked::coauth_asked))]
fn coauth_asked(attributes: &[Attribute]) -> What
    ensures { result ≡ coauth_asked attributes.now }
{
    let word = bytes_of(b"CoauthRequestType", attributes);
    lock_or_bad(coauth_step(word, attributes))
}

#[tactic(auto, unfolding(crate::specs::Asked::table_asked))]
fn table_asked(
    alloc: Global,
    attributes: &[Attribute],
    text: &[u8],
) -> Result<Option<What>, NoMemory>
    ensures { IfOk result (λ what. what ≡ table_asked attributes.now text.now) }
{
    let word = bytes_of(b"EditorsTableRequestType", attributes);
    editor_asked(alloc, word, attributes, text)
}

#[tactic(auto, unfolding(crate::specs::Asked::versions_asked))]
fn versions_asked(attributes: &[Attribute]) -> What
    ensures { result ≡ versions_asked attributes.now }
{
    let word = bytes_of(b"VersioningRequestType", attributes);
    version_asked(word, attributes)
}

#[tactic(auto, unfolding(crate::specs::Asked::what_of))]
fn what_of(
    alloc: Global,
    kind: &[u8],
    attributes: &[Attribute],
    text: &[u8],
) -> Result<Option<What>, NoMemory>
    ensures { IfOk result (λ what. what ≡ what_of kind.now attributes.now text.now) }
{
    if is(kind, b"Cell") {
        return cell_asked(alloc, attributes, text);
    }
    if is(kind, b"ExclusiveLock") {
        return Ok(Some(exclusive_asked(attributes)));
    }
    if is(kind, b"SchemaLock") {
        return Ok(Some(schema_asked(attributes)));
    }
    if is(kind, b"Coauth") {
        return Ok(Some(coauth_asked(attributes)));
    }
    if is(kind, b"EditorsTable") {
        return table_asked(alloc, attributes, text);
    }
    if is(kind, b"Versioning") {
        return Ok(Some(versions_asked(attributes)));
    }
    if is(kind, b"AmIAlone") {
        return Ok(Some(What::Plain { sub: Sub::AmIAlone }));
    }
    if is(kind, b"WhoAmI") {
        return Ok(Some(What::Plain { sub: Sub::WhoAmI }));
    }
    Ok(Some(What::NotSupported))
}

fn data_attributes(payload: &Option<Payload>) -> &[Attribute]
    ensures { result.now ≡ data_attributes payload.now }
{
    match payload {
        Some(payload) => payload.attributes.as_slice(),
        None => &[],
    }
}

fn data_text(payload: &Option<Payload>) -> &[u8]
    ensures { result.now ≡ data_text payload.now }
{
    match payload {
        Some(payload) => payload.text.as_str().as_bytes(),
        None => &[],
    }
}

/// What a SubRequest asks. None where its text is to be base64 and is none.
#[tactic(auto, unfolding(crate::specs::Asked::sub_of))]
pub(crate) fn sub_of(alloc: Global, sub: &RawSub) -> Result<Option<SubAsk>, NoMemory>
    ensures { IfOk result (λ ask. ask ≡ sub_of sub.now) }
{
    let attributes = sub.attributes.as_slice();
    let kind = bytes_of(b"Type", attributes);
    let what = what_of(
        alloc,
        kind,
        data_attributes(&sub.payload),
        data_text(&sub.payload),
    )?;
    let Some(what) = what else {
        return Ok(None);
    };
    let token = text_of(alloc, b"SubRequestToken", attributes)?;
    let depend = depend_of(alloc, attributes)?;
    Ok(Some(SubAsk {
        token,
        depend,
        what,
    }))
}
