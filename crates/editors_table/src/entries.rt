ghost use Rattle.std.specs.Prelude.{◌≡◌, nat_lt, IfOk};
ghost use Rattle.std.specs.List.{list_any};
ghost use Rattle.doc_model.specs.rules.Editing.{entry, finds_no_place, is_key, with_entry, without_key};
ghost use Rattle.doc_model.specs.rules.Limits.{most_key_bytes};

use compact_values::{Copied, NoMemory, Octets, Same, Seq, Text};
use doc_model::limits::{MOST_KEY_BYTES, MOST_KEYS};
use doc_model::{Entries, Entry};
use std::alloc::Global;

fn is_key(key: &Text, entry: &Entry) -> bool
    ensures { result ≡ is_key key.now entry.now }
{
    entry.key.same(key)
}

pub fn has_key(key: &Text, entries: &[Entry]) -> bool
    ensures { result ≡ list_any (is_key key.now) entries.now }
{
    for x in entries {
        if is_key(key, x) {
            return true;
        }
    }
    false
}

/// Whether a key or a value of so many bytes has too many.
pub fn is_long(bytes: usize) -> bool
    ensures { result ≡ nat_lt most_key_bytes bytes }
{
    bytes > MOST_KEY_BYTES
}

/// Whether the key isn't there, and no other can be added.
pub fn finds_no_place(key: &Text, entries: &[Entry]) -> bool
    ensures { result ≡ finds_no_place key.now entries.now }
{
    !has_key(key, entries) && entries.len() >= MOST_KEYS
}

fn entry(alloc: Global, key: &Text, value: &Octets) -> Result<Entry, NoMemory>
    ensures { IfOk result (λ x. x ≡ entry key.now value.now) }
{
    Ok(Entry {
        key: key.copied(alloc)?,
        value: value.copied(alloc)?,
    })
}

/// The entries with this value of the key, at its place or else at the end.
pub fn with_entry(
    alloc: Global,
    key: &Text,
    value: &Octets,
    entries: Entries,
) -> Result<Entries, NoMemory>
    ensures { IfOk result (λ all. all ≡ with_entry key.now value.now entries) }
{
    let mut all = Seq::new(alloc);
    let mut found = false;
    for x in entries.into_vec() {
        if !found && is_key(key, &x) {
            found = true;
            all.push(entry(alloc, key, value)?)?;
        } else {
            all.push(x)?;
        }
    }
    if !found {
        all.push(entry(alloc, key, value)?)?;
    }
    Ok(all)
}

/// The entries without the key.
pub fn without_key(alloc: Global, key: &Text, entries: Entries) -> Result<Entries, NoMemory>
    ensures { IfOk result (λ all. all ≡ without_key key.now entries) }
{
    let mut all = Seq::new(alloc);
    for x in entries.into_vec() {
        if !is_key(key, &x) {
            all.push(x)?;
        }
    }
    Ok(all)
}
