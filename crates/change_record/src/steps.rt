// Steps, draws and restores from their bytes.
ghost use Rattle.std.specs.Prelude.{◌≡◌, IfOk};
ghost use Rattle.compact_values.specs.Taking.{if_all};
ghost use Rattle.change_record.specs.Steps.{shared_step, step_by, lock_of, edit_by, edit_of, asked_of};

use crate::kinds::{Carried, Flag, Words};
use compact_values::{Guid, NoMemory, Octets};
use doc_model::{EditorStep, LockStep, Sub};
use std::alloc::Global;
use wire_kinds::Decode;

// The row that all of the bytes are.
fn only<R: Decode>(alloc: Global, bytes: &[u8]) -> Result<Option<R>, NoMemory>
    ensures { IfOk result (λ o. o ≡ if_all (R.takes bytes.now)) }
{
    let Some((row, rest)) = R::decode(alloc, bytes)? else {
        return Ok(None);
    };
    if rest.is_empty() {
        Ok(Some(row))
    } else {
        Ok(None)
    }
}

// A step of a shared lock, by its number.
fn shared_step(alloc: Global, number: u8, rest: &[u8]) -> Result<Option<LockStep>, NoMemory>
    ensures { IfOk result (λ o. o ≡ shared_step number rest.now) }
{
    match number {
        5 => match only::<(Guid, (Guid, (u64, Flag)))>(alloc, rest)? {
            Some((schema, (client, (timeout, coauthor)))) => Ok(Some(LockStep::TakeShared {
                schema,
                client,
                timeout,
                coauthor: coauthor.is_set(),
            })),
            None => Ok(None),
        },
        6 => match only(alloc, rest)? {
            Some((schema, client)) => Ok(Some(LockStep::DropShared { schema, client })),
            None => Ok(None),
        },
        7 => match only(alloc, rest)? {
            Some((schema, (client, timeout))) => Ok(Some(LockStep::RefreshShared {
                schema,
                client,
                timeout,
            })),
            None => Ok(None),
        },
        8 => match only::<(Guid, (Guid, (Guid, (u64, Flag))))>(alloc, rest)? {
            Some((schema, (client, (id, (timeout, release))))) => Ok(Some(LockStep::ToExclusive {
                schema,
                client,
                id,
                timeout,
                release: release.is_set(),
            })),
            None => Ok(None),
        },
        _ => Ok(None),
    }
}

// A step of a lock, by its number.
fn step_by(alloc: Global, number: u8, rest: &[u8]) -> Result<Option<LockStep>, NoMemory>
    ensures { IfOk result (λ o. o ≡ step_by number rest.now) }
{
    match number {
        1 => match only(alloc, rest)? {
            Some((id, timeout)) => Ok(Some(LockStep::TakeExclusive { id, timeout })),
            None => Ok(None),
        },
        2 => match only(alloc, rest)? {
            Some(id) => Ok(Some(LockStep::DropExclusive { id })),
            None => Ok(None),
        },
        3 => match only(alloc, rest)? {
            Some((id, timeout)) => Ok(Some(LockStep::RefreshExclusive { id, timeout })),
            None => Ok(None),
        },
        4 => match only::<(Guid, (Guid, (Guid, (u64, Flag))))>(alloc, rest)? {
            Some((id, (schema, (client, (timeout, coauthor))))) => Ok(Some(LockStep::ToShared {
                id,
                schema,
                client,
                timeout,
                coauthor: coauthor.is_set(),
            })),
            None => Ok(None),
        },
        _ => shared_step(alloc, number, rest),
    }
}

// A step of a lock.
#[tactic(auto, unfolding(crate::specs::Steps::lock_of))]
fn lock_of(alloc: Global, bytes: &[u8]) -> Result<Option<LockStep>, NoMemory>
    ensures { IfOk result (λ o. o ≡ lock_of bytes.now) }
{
    match bytes {
        [] => Ok(None),
        [number, rest @ ..] => step_by(alloc, *number, rest),
    }
}

// A step of the table of editors, by its number.
fn edit_by(alloc: Global, number: u8, rest: &[u8]) -> Result<Option<EditorStep>, NoMemory>
    ensures { IfOk result (λ o. o ≡ edit_by number rest.now) }
{
    match number {
        1 => match only(alloc, rest)? {
            Some((client, timeout)) => Ok(Some(EditorStep::Join { client, timeout })),
            None => Ok(None),
        },
        2 => match only(alloc, rest)? {
            Some(client) => Ok(Some(EditorStep::Leave { client })),
            None => Ok(None),
        },
        3 => match only(alloc, rest)? {
            Some((client, timeout)) => Ok(Some(EditorStep::Refresh { client, timeout })),
            None => Ok(None),
        },
        4 => match only::<(Guid, (Words, Octets))>(alloc, rest)? {
            Some((client, (key, value))) => Ok(Some(EditorStep::SetKey {
                client,
                key: key.into_text(),
                value,
            })),
            None => Ok(None),
        },
        5 => match only::<(Guid, Words)>(alloc, rest)? {
            Some((client, key)) => Ok(Some(EditorStep::RemoveKey {
                client,
                key: key.into_text(),
            })),
            None => Ok(None),
        },
        _ => Ok(None),
    }
}

// A step of the table of editors.
#[tactic(auto, unfolding(crate::specs::Steps::edit_of))]
fn edit_of(alloc: Global, bytes: &[u8]) -> Result<Option<EditorStep>, NoMemory>
    ensures { IfOk result (λ o. o ≡ edit_of bytes.now) }
{
    match bytes {
        [] => Ok(None),
        [number, rest @ ..] => edit_by(alloc, *number, rest),
    }
}

/// What is asked, by the number of the kind, where it is no upload.
#[tactic(auto, unfolding(crate::specs::Steps::asked_of))]
pub fn asked_of(alloc: Global, kind: u8, bytes: &[u8]) -> Result<Option<Sub>, NoMemory>
    ensures { IfOk result (λ o. o ≡ asked_of kind bytes.now) }
{
    match kind {
        2 => match only(alloc, bytes)? {
            Some(count) => Ok(Some(Sub::Draw { count })),
            None => Ok(None),
        },
        3 => match lock_of(alloc, bytes)? {
            Some(step) => Ok(Some(Sub::Lock { step })),
            None => Ok(None),
        },
        4 => match edit_of(alloc, bytes)? {
            Some(step) => Ok(Some(Sub::Editor { step })),
            None => Ok(None),
        },
        5 => match only::<(u64, Carried)>(alloc, bytes)? {
            Some((number, carried)) => Ok(Some(Sub::Restore {
                number,
                carried: carried.id(),
            })),
            None => Ok(None),
        },
        _ => Ok(None),
    }
}
