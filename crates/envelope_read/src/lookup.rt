// The values of attributes, and what they write.
ghost use Rattle.std.specs.Prelude.{◌≡◌, Some, None, IfOk, codes};
ghost use Rattle.std.specs.Str.{bytes_eq};
ghost use Rattle.envelope_grammar.specs.Answers.{Finds};
ghost use Rattle.envelope_read.specs.Lookup.{is_called, value_of, bytes_of, text_of, guid_at, carried_value, carried_at, is_zero, content_from, content_at, number_at, clamped, timeout_at, is_true, flag_at};

use crate::number::number_in;
use compact_values::{Copied, Guid, NoMemory, Text, guid_of_text};
use envelope_grammar::{Attribute, Name};
use std::alloc::Global;

/// Seconds that a lock or an editor lasts where no Timeout is said; the least that they last, and the most.
const USUAL_TIMEOUT: u64 = 3_600;

const LEAST_TIMEOUT: u64 = 60;

const MOST_TIMEOUT: u64 = 86_400;

/// Whether it is this word.
pub(crate) fn is(bytes: &[u8], word: &[u8]) -> bool
    ensures { result ≡ bytes_eq bytes.now word.now }
{
    bytes == word
}

fn is_called(word: &[u8], name: &Name) -> bool
    ensures { result ≡ is_called word.now name.now }
{
    is(name.local.as_slice(), word) && !is(name.prefix.as_slice(), b"xmlns")
}

/// The value of the first attribute with this local name.
pub(crate) fn value_of<'a>(word: &[u8], attributes: &'a [Attribute]) -> Option<&'a Text>
    ensures { Finds (λ t. t.now) result (value_of word.now attributes.now) }
{
    for attribute in attributes {
        if is_called(word, &attribute.name) {
            return Some(&attribute.value);
        }
    }
    None
}

/// The UTF-8 of that value, empty where there is none.
pub(crate) fn bytes_of<'a>(word: &[u8], attributes: &'a [Attribute]) -> &'a [u8]
    ensures { result.now ≡ bytes_of word.now attributes.now }
{
    match value_of(word, attributes) {
        Some(value) => value.as_str().as_bytes(),
        None => &[],
    }
}

/// A copy of that value, empty where there is none.
pub(crate) fn text_of(
    alloc: Global,
    word: &[u8],
    attributes: &[Attribute],
) -> Result<Text, NoMemory>
    ensures { IfOk result (λ t. t ≡ text_of word.now attributes.now) }
{
    match value_of(word, attributes) {
        Some(value) => value.copied(alloc),
        None => Ok(Text::new(alloc)),
    }
}

/// The GUID that the attribute writes. None where it is absent, or is no GUID.
#[tactic(auto, unfolding(crate::specs::Lookup::guid_at))]
pub(crate) fn guid_at(word: &[u8], attributes: &[Attribute]) -> Option<Guid>
    ensures { result ≡ guid_at word.now attributes.now }
{
    let value = value_of(word, attributes)?;
    guid_of_text(value.as_str())
}

/// The value of the first attribute that carries a lock id.
fn carried_value(attributes: &[Attribute]) -> Option<&Text>
    ensures { Finds (λ t. t.now) result (carried_value attributes.now) }
{
    match value_of(b"BypassLockID", attributes) {
        Some(value) => Some(value),
        None => match value_of(b"ExclusiveLockID", attributes) {
            Some(value) => Some(value),
            None => value_of(b"SchemaLockID", attributes),
        },
    }
}

/// The lock id that is carried, if one is. None where it is no GUID.
#[tactic(auto, unfolding(crate::specs::Lookup::carried_at))]
pub(crate) fn carried_at(attributes: &[Attribute]) -> Option<Option<Guid>>
    ensures { result ≡ carried_at attributes.now }
{
    match carried_value(attributes) {
        Some(value) => {
            let guid = guid_of_text(value.as_str())?;
            Some(Some(guid))
        }
        None => Some(None),
    }
}

fn is_zero(guid: Guid) -> bool
    ensures { result ≡ is_zero guid }
{
    guid.number == 0
}

fn content_in(value: &Text) -> Option<bool>
    ensures { result ≡ content_from (Some value.now) }
{
    match guid_of_text(value.as_str()) {
        Some(guid) => Some(is_zero(guid)),
        None => None,
    }
}

/// Whether the content partition is asked for: none is named, or the zero GUID. None where it is no GUID.
#[tactic(auto, unfolding(crate::specs::Lookup::content_at))]
pub(crate) fn content_at(attributes: &[Attribute]) -> Option<bool>
    ensures { result ≡ content_at attributes.now }
{
    match value_of(b"PartitionID", attributes) {
        Some(value) => content_in(value),
        None => Some(true),
    }
}

/// The number that the attribute writes. None where it is absent, or isn't 1 to 10 digits.
#[tactic(auto, unfolding(crate::specs::Lookup::number_at))]
pub(crate) fn number_at(word: &[u8], attributes: &[Attribute]) -> Option<u64>
    ensures { result ≡ number_at word.now attributes.now }
{
    let value = value_of(word, attributes)?;
    number_in(value.as_str().as_bytes())
}

#[tactic(auto, unfolding(crate::specs::Lookup::clamped))]
fn clamped(seconds: u64) -> u64
    ensures { result ≡ clamped seconds }
{
    if seconds < LEAST_TIMEOUT {
        LEAST_TIMEOUT
    } else if seconds > MOST_TIMEOUT {
        MOST_TIMEOUT
    } else {
        seconds
    }
}

/// The Timeout in seconds, brought into 60 to 86,400, and 3,600 where it is absent. None where it is no number.
#[tactic(auto, unfolding(crate::specs::Lookup::timeout_at))]
pub(crate) fn timeout_at(attributes: &[Attribute]) -> Option<u64>
    ensures { result ≡ timeout_at attributes.now }
{
    match value_of(b"Timeout", attributes) {
        Some(value) => {
            let seconds = number_in(value.as_str().as_bytes())?;
            Some(clamped(seconds))
        }
        None => Some(USUAL_TIMEOUT),
    }
}

fn is_true(bytes: &[u8]) -> bool
    ensures { result ≡ is_true bytes.now }
{
    bytes.eq_ignore_ascii_case(b"true") || is(bytes, b"1")
}

/// Whether the attribute is `true` in any case, or 1.
pub(crate) fn flag_at(word: &[u8], attributes: &[Attribute]) -> bool
    ensures { result ≡ flag_at word.now attributes.now }
{
    is_true(bytes_of(word, attributes))
}
