// The steps of a lock, by request words. None where the word is unknown, or an attribute that it needs is absent or in no form.
ghost use Rattle.std.specs.Prelude.{◌≡◌};
ghost use Rattle.envelope_read.specs.Locking.{exclusive_id, schema_id, client_id, take_exclusive, drop_exclusive, refresh_exclusive, check_exclusive, to_shared, take_shared, drop_shared, refresh_shared, to_exclusive, check_shared, status_of, mark_of, exclusive_step, schema_step, coauth_step};

use crate::lookup::{flag_at, guid_at, is, timeout_at};
use compact_values::Guid;
use doc_model::LockStep;
use envelope_grammar::Attribute;

fn exclusive_id(attributes: &[Attribute]) -> Option<Guid>
    ensures { result ≡ exclusive_id attributes.now }
{
    guid_at(b"ExclusiveLockID", attributes)
}

fn schema_id(attributes: &[Attribute]) -> Option<Guid>
    ensures { result ≡ schema_id attributes.now }
{
    guid_at(b"SchemaLockID", attributes)
}

/// The id of the client that asks.
pub(crate) fn client_id(attributes: &[Attribute]) -> Option<Guid>
    ensures { result ≡ client_id attributes.now }
{
    guid_at(b"ClientID", attributes)
}

#[tactic(auto, unfolding(crate::specs::Locking::take_exclusive))]
fn take_exclusive(attributes: &[Attribute]) -> Option<LockStep>
    ensures { result ≡ take_exclusive attributes.now }
{
    let id = exclusive_id(attributes)?;
    let timeout = timeout_at(attributes)?;
    Some(LockStep::TakeExclusive { id, timeout })
}

#[tactic(auto, unfolding(crate::specs::Locking::drop_exclusive))]
fn drop_exclusive(attributes: &[Attribute]) -> Option<LockStep>
    ensures { result ≡ drop_exclusive attributes.now }
{
    let id = exclusive_id(attributes)?;
    Some(LockStep::DropExclusive { id })
}

#[tactic(auto, unfolding(crate::specs::Locking::refresh_exclusive))]
fn refresh_exclusive(attributes: &[Attribute]) -> Option<LockStep>
    ensures { result ≡ refresh_exclusive attributes.now }
{
    let id = exclusive_id(attributes)?;
    let timeout = timeout_at(attributes)?;
    Some(LockStep::RefreshExclusive { id, timeout })
}

#[tactic(auto, unfolding(crate::specs::Locking::check_exclusive))]
fn check_exclusive(attributes: &[Attribute]) -> Option<LockStep>
    ensures { result ≡ check_exclusive attributes.now }
{
    let id = exclusive_id(attributes)?;
    Some(LockStep::CheckExclusive { id })
}

#[tactic(auto, unfolding(crate::specs::Locking::to_shared))]
fn to_shared(coauthor: bool, attributes: &[Attribute]) -> Option<LockStep>
    ensures { result ≡ to_shared coauthor attributes.now }
{
    let id = exclusive_id(attributes)?;
    let schema = schema_id(attributes)?;
    let client = client_id(attributes)?;
    let timeout = timeout_at(attributes)?;
    Some(LockStep::ToShared {
        id,
        schema,
        client,
        timeout,
        coauthor,
    })
}

#[tactic(auto, unfolding(crate::specs::Locking::take_shared))]
fn take_shared(coauthor: bool, attributes: &[Attribute]) -> Option<LockStep>
    ensures { result ≡ take_shared coauthor attributes.now }
{
    let schema = schema_id(attributes)?;
    let client = client_id(attributes)?;
    let timeout = timeout_at(attributes)?;
    Some(LockStep::TakeShared {
        schema,
        client,
        timeout,
        coauthor,
    })
}

#[tactic(auto, unfolding(crate::specs::Locking::drop_shared))]
fn drop_shared(attributes: &[Attribute]) -> Option<LockStep>
    ensures { result ≡ drop_shared attributes.now }
{
    let schema = schema_id(attributes)?;
    let client = client_id(attributes)?;
    Some(LockStep::DropShared { schema, client })
}

#[tactic(auto, unfolding(crate::specs::Locking::refresh_shared))]
fn refresh_shared(attributes: &[Attribute]) -> Option<LockStep>
    ensures { result ≡ refresh_shared attributes.now }
{
    let schema = schema_id(attributes)?;
    let client = client_id(attributes)?;
    let timeout = timeout_at(attributes)?;
    Some(LockStep::RefreshShared {
        schema,
        client,
        timeout,
    })
}

#[tactic(auto, unfolding(crate::specs::Locking::to_exclusive))]
fn to_exclusive(attributes: &[Attribute]) -> Option<LockStep>
    ensures { result ≡ to_exclusive attributes.now }
{
    let schema = schema_id(attributes)?;
    let client = client_id(attributes)?;
    let id = exclusive_id(attributes)?;
    let timeout = timeout_at(attributes)?;
    let release = flag_at(b"ReleaseLockOnConversionToExclusiveFailure", attributes);
    Some(LockStep::ToExclusive {
        schema,
        client,
        id,
        timeout,
        release,
    })
}

#[tactic(auto, unfolding(crate::specs::Locking::check_shared))]
fn check_shared(attributes: &[Attribute]) -> Option<LockStep>
    ensures { result ≡ check_shared attributes.now }
{
    let schema = schema_id(attributes)?;
    Some(LockStep::CheckShared { schema })
}

#[tactic(auto, unfolding(crate::specs::Locking::status_of))]
fn status_of(attributes: &[Attribute]) -> Option<LockStep>
    ensures { result ≡ status_of attributes.now }
{
    let schema = schema_id(attributes)?;
    let client = client_id(attributes)?;
    Some(LockStep::Status { schema, client })
}

#[tactic(auto, unfolding(crate::specs::Locking::mark_of))]
fn mark_of(attributes: &[Attribute]) -> Option<LockStep>
    ensures { result ≡ mark_of attributes.now }
{
    let schema = schema_id(attributes)?;
    let client = client_id(attributes)?;
    Some(LockStep::Mark { schema, client })
}

/// The step of a request word of ExclusiveLock (MS-FSSHTTP 3.1.4.5).
#[tactic(auto, unfolding(crate::specs::Locking::exclusive_step))]
pub(crate) fn exclusive_step(word: &[u8], attributes: &[Attribute]) -> Option<LockStep>
    ensures { result ≡ exclusive_step word.now attributes.now }
{
    if is(word, b"GetLock") {
        return take_exclusive(attributes);
    }
    if is(word, b"ReleaseLock") {
        return drop_exclusive(attributes);
    }
    if is(word, b"RefreshLock") {
        return refresh_exclusive(attributes);
    }
    if is(word, b"CheckLockAvailability") {
        return check_exclusive(attributes);
    }
    if is(word, b"ConvertToSchema") {
        return to_shared(false, attributes);
    }
    if is(word, b"ConvertToSchemaJoinCoauth") {
        return to_shared(true, attributes);
    }
    None
}

/// The step of a request word of SchemaLock (MS-FSSHTTP 3.1.4.4).
#[tactic(auto, unfolding(crate::specs::Locking::schema_step))]
pub(crate) fn schema_step(word: &[u8], attributes: &[Attribute]) -> Option<LockStep>
    ensures { result ≡ schema_step word.now attributes.now }
{
    if is(word, b"GetLock") {
        return take_shared(false, attributes);
    }
    if is(word, b"ReleaseLock") {
        return drop_shared(attributes);
    }
    if is(word, b"RefreshLock") {
        return refresh_shared(attributes);
    }
    if is(word, b"ConvertToExclusive") {
        return to_exclusive(attributes);
    }
    if is(word, b"CheckLockAvailability") {
        return check_shared(attributes);
    }
    None
}

/// The step of a request word of Coauth (MS-FSSHTTP 3.1.4.3).
#[tactic(auto, unfolding(crate::specs::Locking::coauth_step))]
pub(crate) fn coauth_step(word: &[u8], attributes: &[Attribute]) -> Option<LockStep>
    ensures { result ≡ coauth_step word.now attributes.now }
{
    if is(word, b"JoinCoauthoring") {
        return take_shared(true, attributes);
    }
    if is(word, b"ExitCoauthoring") {
        return drop_shared(attributes);
    }
    if is(word, b"RefreshCoauthoring") {
        return refresh_shared(attributes);
    }
    if is(word, b"ConvertToExclusive") {
        return to_exclusive(attributes);
    }
    if is(word, b"CheckLockAvailability") {
        return check_shared(attributes);
    }
    if is(word, b"GetCoauthoringStatus") {
        return status_of(attributes);
    }
    if is(word, b"MarkTransitionComplete") {
        return mark_of(attributes);
    }
    None
}
