// A list of extended GUIDs that finds an id without looking through the list.
ghost use Rattle.std.specs.Prelude.{◌≡◌, [], ◌∷◌, ◌++◌, OnOk, OnErr, fold};
ghost use Rattle.std.specs.List.{list_any};
ghost use Rattle.compact_values.specs.IdPlaces.{place_of, key_of, with_new};
ghost use Rattle.compact_values.specs.SameIds.{same_id};

use crate::fault::NoMemory;
use crate::ids::{ExGuid, Ids};
use crate::seq::Seq;
use std::alloc::Global;
use std::collections::BTreeMap;
use std::marker::Model;

/// What stands for an extended GUID in a map.
pub type IdKey = Option<(u128, u32)>;

/// A list of extended GUIDs that finds the first place of an id without looking through the list. The ids are those of
/// clients, who could choose them so that a hash of theirs is the same: so they stand in order and aren't hashed, and no
/// choice makes a search long.
#[derive(Drop)]
pub struct IdIndex {
    ids: Ids,
    places: BTreeMap<IdKey, usize>,
}

impl Model for IdIndex {
    ghost use Rattle.std.specs.Prelude.{List};
    ghost use Rattle.compact_values.specs.declared.ids.ExGuid.{ExGuid};
    ghost use Rattle.compact_values.specs.IdPlaces.{HasPlaces};

    ghost Value = { List ExGuid };

    ghost view = { λ s. s.ids };

    ghost invariant = { λ s. HasPlaces s.ids s.places };
}

/// An id as a key of a map: its order is that of keys.
pub fn key_of(id: ExGuid) -> IdKey
    ensures { result ≡ key_of id }
{
    match id {
        ExGuid::Null => None,
        ExGuid::Id { guid, value } => Some((guid.number, value)),
    }
}

impl IdIndex {
    /// No ids.
    pub fn new(alloc: Global) -> IdIndex
        ensures { result ≡ [] }
    {
        IdIndex {
            ids: Seq::new(alloc),
            places: BTreeMap::new(alloc),
        }
    }

    /// The first place of the id, None exactly where it isn't in the list. It takes no memory.
    pub fn place(&self, id: ExGuid) -> Option<usize>
        ensures { result ≡ place_of self.now id }
    {
        self.places.get(&key_of(id)).copied()
    }

    /// Whether the id is in the list. It takes no memory.
    pub fn contains(&self, id: ExGuid) -> bool
        ensures { result ≡ list_any (same_id id) self.now }
    {
        self.place(id).is_some()
    }

    /// The ids.
    pub fn as_slice(&self) -> &[ExGuid]
        ensures { result.now ≡ self.now }
    {
        self.ids.as_slice()
    }

    /// Adds the id at the end, or leaves the list as it was.
    pub fn push(&mut self, id: ExGuid) -> Result<(), NoMemory>
        ensures ok { OnOk result (self.new ≡ self.old ++ id ∷ []) }
        ensures err { OnErr result (self.new ≡ self.old) }
    {
        let place = self.ids.len();
        self.ids.push(id)?;
        let key = key_of(id);
        match self.places.insert(key, place) {
            Ok(None) => Ok(()),
            // The id was there already, and its first place counts.
            Ok(Some(first)) => match self.places.insert(key, first) {
                Ok(_) => Ok(()),
                Err(_) => unreachable!(),
            },
            Err(_) => {
                self.ids.truncate(place);
                Err(NoMemory)
            }
        }
    }

    /// Adds the id at the end unless it is there, or leaves the list as it was. A new id is looked for once.
    pub fn join(&mut self, id: ExGuid) -> Result<(), NoMemory>
        ensures ok { OnOk result (self.new ≡ with_new same_id self.old id) }
        ensures err { OnErr result (self.new ≡ self.old) }
    {
        let place = self.ids.len();
        self.ids.push(id)?;
        let key = key_of(id);
        match self.places.insert(key, place) {
            Ok(None) => Ok(()),
            Ok(Some(first)) => {
                self.ids.truncate(place);
                match self.places.insert(key, first) {
                    Ok(_) => Ok(()),
                    Err(_) => unreachable!(),
                }
            }
            Err(_) => {
                self.ids.truncate(place);
                Err(NoMemory)
            }
        }
    }

    /// Adds those of the ids that aren't there, in order.
    pub fn join_all(&mut self, ids: &[ExGuid]) -> Result<(), NoMemory>
        ensures { OnOk result (self.new ≡ fold (with_new same_id) self.old ids.now) }
    {
        for id in ids {
            self.join(*id)?;
        }
        Ok(())
    }
}
