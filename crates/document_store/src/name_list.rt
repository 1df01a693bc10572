// Lists of names in ascending order.
ghost use Rattle.std.specs.Prelude.{◌≡◌, ◌⊎◌, ◌↔◌, ◌<◌, List, [], ℕ, map, length, slice_index_or, Contains, IsTrue, OnOk, encode_utf8_all};
ghost use Rattle.document_store.specs.Names.{AreAscending, place_of, first_from};

use compact_values::{NoMemory, Text};
use std::alloc::Global;

// A list without names.
pub(crate) fn no_names(alloc: Global) -> Vec<Text>
    ensures none { result.items ≡ [] }
    ensures ascending { AreAscending (map encode_utf8_all result.items) }
{
    let names = Vec::new(alloc);
    names
}

// Adds the name at its place among names that ascend, unless it is there.
pub(crate) fn add_name(names: &mut Vec<Text>, name: Text) -> Result<(), NoMemory>
    requires { AreAscending (map encode_utf8_all names.old.items) }
    ensures ascending { OnOk result (AreAscending (map encode_utf8_all names.new.items)) }
    ensures added { (other : List ℕ) → OnOk result ((Contains (map encode_utf8_all names.new.items) other)
        ↔ (Contains (map encode_utf8_all names.old.items) other ⊎ (encode_utf8_all name ≡ other))) }
{
    let at = place_of(names, name.as_str());
    if is_at(names, at, name.as_str()) {
        return Ok(());
    }
    names.insert(at, name)?;
    Ok(())
}

// Whether the name stands at the place.
fn is_at(names: &[Text], at: usize, name: &str) -> bool
    ensures { IsTrue result ↔ ((at < length names.now) × (encode_utf8_all (slice_index_or names.now at []) ≡ name.now)) }
{
    match names.get(at) {
        Some(text) => text.as_str() == name,
        None => false,
    }
}

// The place of the first that does not come before this name, or the end.
fn place_of(names: &[Text], name: &str) -> usize
    ensures { result ≡ place_of name.now names.now }
{
    match first_from(names, name) {
        Some(at) => at,
        None => names.len(),
    }
}

fn first_from(names: &[Text], name: &str) -> Option<usize>
    ensures { result ≡ first_from name.now names.now }
{
    names.iter().position(|text| text.as_str() >= name)
}
