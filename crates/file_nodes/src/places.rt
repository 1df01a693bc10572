//! Where the first object with an id stands.

ghost use Rattle.std.specs.Prelude.{◌≡◌, IfOk, length, map};
ghost use Rattle.file_nodes.specs.Index.{key_of, place_in, IsIndex};
ghost use Rattle.file_nodes.specs.Links.{place_of};

use crate::object_map::StoredObject;
use compact_values::{ExGuid, NoMemory, Seq};
use std::alloc::Global;
use std::collections::BTreeMap;

/// The places of objects by their ids, as pairs of numbers.
pub(crate) type Index = BTreeMap<(u128, u64), usize>;

// An id as a pair of numbers.
fn key_of(id: ExGuid) -> (u128, u64)
    ensures { result ≡ key_of id }
{
    match id {
        ExGuid::Null => (0, 0),
        ExGuid::Id { guid, value } => (guid.number, value as u64 + 1),
    }
}

/// An index of the first object with each id.
pub(crate) fn index_of(alloc: Global, objects: &[StoredObject<'_>]) -> Result<Index, NoMemory>
    ensures { IfOk result (λ index. IsIndex objects.now index) }
{
    let mut index = BTreeMap::new(alloc);
    let mut left = objects.len();
    while left > 0 {
        left -= 1;
        let Ok(_) = index.insert(key_of(objects[left].id()), left) else {
            return Err(NoMemory);
        };
    }
    Ok(index)
}

/// The place of an id, or `absent` where the index has none.
pub(crate) fn place_in(index: &Index, absent: usize, id: ExGuid) -> usize
    ensures { result ≡ place_in index.now absent id }
{
    match index.get(&key_of(id)) {
        Some(place) => *place,
        None => absent,
    }
}

/// The places of these ids.
pub(crate) fn places_in(
    alloc: Global,
    index: &Index,
    absent: usize,
    ids: &[ExGuid],
) -> Result<Seq<usize>, NoMemory>
    ensures { IfOk result (λ places. places ≡ map (place_in index.now absent) ids.now) }
{
    let mut places = Seq::new(alloc);
    for id in ids {
        places.push(place_in(index, absent, *id))?;
    }
    Ok(places)
}
