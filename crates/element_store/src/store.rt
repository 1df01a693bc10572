// The elements of a document, found by their serial numbers and by their ids.
ghost use Rattle.std.specs.Prelude.{◌≡◌, ◌+◌, ◌-◌, ◌<◌, ◌≤◌, [], ◌∷◌, ◌++◌, length, map, None, Some, OnOk, IfSome, slice_get, vec_len, vec_capacity, is_some, get_or};
ghost use Rattle.std.specs.List.{All, IsDistinct, insert};
ghost use Rattle.compact_values.specs.SameIds.{same_id};
ghost use Rattle.doc_model.specs.rules.Finding.{find_element};
ghost use Rattle.doc_model.specs.rules.Limits.{most_objects};
ghost use Rattle.doc_model.specs.rules.Weights.{weight, weight_of, objects_written};
ghost use Rattle.element_store.specs.Kept.{at_most_all};
ghost use Rattle.element_store.specs.Stored.{serial_of};

use crate::order::{place, rank};
use crate::weights::kept_weight;
use compact_values::{ExGuid, NoMemory, Seq};
use doc_model::Element;
use std::alloc::Global;
use std::marker::Model;

/// Serial numbers of elements.
pub type Serials = Seq<u64>;

/// The elements of a document in the order of their serial numbers, which begin at 1. Contracts see them and for how many
/// more there is room. Each is kept with its weight.
///
/// An id is found among the places in the order of their ids, by halving. Ids are those of clients, who could choose them
/// so that a hash of theirs is the same. A map in order takes memory for each of its entries when it is added; the places
/// have room that was taken before.
#[derive(Drop)]
pub struct ElementStore {
    elements: Vec<Element>,
    weights: Vec<u128>,
    order: Vec<usize>,
    whole: u128,
}

impl Model for ElementStore {
    ghost use Rattle.std.specs.Prelude.{◌≡◌, ◌-◌, min, map, vec_len, vec_capacity};
    ghost use Rattle.std.specs.List.{IsDistinct};
    ghost use Rattle.compact_values.specs.SameIds.{same_id};
    ghost use Rattle.element_store.specs.Kept.{kept_weight, whole_weight};
    ghost use Rattle.element_store.specs.Ordered.{IsOrderOf};
    ghost use Rattle.element_store.specs.Stored.{Stored};

    ghost Value = { Stored };

    ghost view = { λ s. record { elements = s.elements.items; spare = min (vec_capacity s.elements - vec_len s.elements) (min (vec_capacity s.weights - vec_len s.weights) (vec_capacity s.order - vec_len s.order)) } };

    ghost invariant = { λ s. IsOrderOf s.elements.items s.order.items × (s.weights.items ≡ map kept_weight s.elements.items) × (s.whole ≡ whole_weight s.elements.items) × IsDistinct same_id (map (λ e. e.id) s.elements.items) };
}

// Adds an item for which there is room, and takes no memory.
fn push_within<T: Drop>(items: &mut Vec<T>, item: T)
    requires { vec_len items.old < vec_capacity items.old }
    ensures items { items.new.items ≡ items.old.items ++ item ∷ [] }
    ensures len { vec_len items.new ≡ vec_len items.old + 1 }
    ensures capacity { vec_capacity items.new ≡ vec_capacity items.old }
{
    let end = items.len();
    match items.insert(end, item) {
        Ok(()) => {}
        Err(_) => unreachable!(),
    }
}

// Puts a place among the others, for which there is room, and takes no memory.
fn insert_within(places: &mut Vec<usize>, rank: usize, place: usize)
    requires room { vec_len places.old < vec_capacity places.old }
    requires within { rank ≤ vec_len places.old }
    ensures items { places.new.items ≡ insert places.old.items rank place }
    ensures len { vec_len places.new ≡ vec_len places.old + 1 }
    ensures capacity { vec_capacity places.new ≡ vec_capacity places.old }
{
    match places.insert(rank, place) {
        Ok(()) => {}
        Err(_) => unreachable!(),
    }
}

impl ElementStore {
    /// No elements.
    pub fn new(alloc: Global) -> ElementStore
        ensures { result.elements ≡ [] }
    {
        ElementStore {
            elements: Vec::new(alloc),
            weights: Vec::new(alloc),
            order: Vec::new(alloc),
            whole: 0,
        }
    }

    /// Takes room for so many more elements.
    pub fn reserve(&mut self, count: usize) -> Result<(), NoMemory>
        ensures elements { self.new.elements ≡ self.old.elements }
        ensures spare { OnOk result (count ≤ self.new.spare) }
    {
        self.order.reserve(count)?;
        self.weights.reserve(count)?;
        self.elements.reserve(count)?;
        Ok(())
    }

    /// Adds an element behind the others, and gives its serial number. It takes no memory: there is room for one, which is
    /// used up. None of the others has its id.
    pub fn add(&mut self, element: Element) -> u64
        requires room { 1 ≤ self.old.spare }
        requires fresh { find_element self.old.elements element.id ≡ None }
        ensures serial { result ≡ length self.new.elements }
        ensures elements { self.new.elements ≡ self.old.elements ++ element ∷ [] }
        ensures spare { self.new.spare + 1 ≡ self.old.spare }
    {
        let place = self.elements.len();
        let rank = rank(self.elements.as_slice(), self.order.as_slice(), element.id);
        let weight = kept_weight(&element);
        insert_within(&mut self.order, rank, place);
        push_within(&mut self.weights, weight);
        push_within(&mut self.elements, element);
        self.whole = self.whole.saturating_add(weight);
        place as u64 + 1
    }

    /// The serial number of the element with this id, None exactly where none has it. It takes no memory.
    pub fn find(&self, id: &ExGuid) -> Option<u64>
        ensures serial { result ≡ serial_of self.now.elements id.now }
        ensures there { is_some result ≡ is_some (find_element self.now.elements id.now) }
        ensures within { IfSome result (λ serial. (1 ≤ serial) × (serial ≤ length self.now.elements)) }
        ensures element { IfSome result (λ serial. slice_get self.now.elements (serial - 1) ≡ find_element self.now.elements id.now) }
    {
        match place(self.elements.as_slice(), self.order.as_slice(), *id) {
            None => None,
            Some(place) => Some(place as u64 + 1),
        }
    }

    /// The element with this serial number. It takes no memory.
    pub fn at(&self, serial: u64) -> &Element
        requires some { 1 ≤ serial }
        requires within { serial ≤ length self.now.elements }
        ensures { Some result.now ≡ slice_get self.now.elements (serial - 1) }
    {
        &self.elements[serial as usize - 1]
    }

    /// The elements in the order of their serial numbers. Their ids differ. It takes no memory.
    pub fn as_slice(&self) -> &[Element]
        ensures elements { result.now ≡ self.now.elements }
        ensures distinct { IsDistinct same_id (map (λ e. e.id) self.now.elements) }
    {
        self.elements.as_slice()
    }

    /// How many elements there are. It takes no memory.
    pub fn length(&self) -> u64
        ensures { result ≡ length self.now.elements }
    {
        self.elements.len() as u64
    }

    /// What the element with this serial number weighs. It takes no memory, and the element isn't looked at.
    pub fn weight_at(&self, serial: u64) -> u128
        requires some { 1 ≤ serial }
        requires within { serial ≤ length self.now.elements }
        ensures { IfSome (slice_get self.now.elements (serial - 1)) (λ e. objects_written e ≤ most_objects → result ≡ weight e) }
    {
        self.weights[serial as usize - 1]
    }

    /// What all elements weigh together, at most the greatest number that it can give. It takes no memory, and the elements
    /// aren't looked at.
    pub fn weight(&self) -> u128
        requires { All (λ e. objects_written e ≤ most_objects) self.now.elements }
        ensures { result ≡ at_most_all (weight_of self.now.elements) }
    {
        self.whole
    }
}
