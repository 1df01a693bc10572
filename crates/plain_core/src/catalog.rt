// The elements of a document, found by their ids, and what they say.
ghost use Rattle.std.specs.Prelude.{◌≡◌, [], ◌∷◌, ◌++◌, map, fold, IfOk, OnOk, option_map, option_copied, slice_get};
ghost use Rattle.std.specs.List.{list_any};
ghost use Rattle.compact_values.specs.SameIds.{same_id};
ghost use Rattle.doc_model.specs.rules.Puts.{same_ids};
ghost use Rattle.compact_values.specs.IdPlaces.{with_new};
ghost use Rattle.doc_model.specs.rules.Finding.{find_element, said, as_storage, as_cell, as_group, as_blob, as_index, as_revision};

use crate::sayings::{Manifest, Mappings};
use compact_values::{Copied, ExGuid, IdIndex, NoMemory, Octets, Seq};
use doc_model::{Body, Element, Elements, Objects, Roots};
use std::alloc::Global;

/// The elements that a document has, and those that a call adds behind them, found by their ids.
#[derive(Drop)]
pub struct Catalog<'a> {
    added: &'a [Element],
    fresh: Elements,
    index: IdIndex,
    ghost indexed: { index ≡ map (λ e. e.id) (added.now ++ fresh) },
}

// An index of the ids of these elements.
fn index_of(alloc: Global, elements: &[Element]) -> Result<IdIndex, NoMemory>
    ensures { IfOk result (λ index. index ≡ map (λ e. e.id) elements.now) }
{
    let mut index = IdIndex::new(alloc);
    for element in elements {
        index.push(element.id)?;
    }
    Ok(index)
}

// The element at this place in both together.
fn at<'a>(added: &'a [Element], fresh: &'a [Element], place: usize) -> Option<&'a Element>
    ensures { option_copied result ≡ slice_get (added.now ++ fresh.now) place }
{
    if place < added.len() {
        added.get(place)
    } else {
        fresh.get(place - added.len())
    }
}

impl<'a> Catalog<'a> {
    ghost use Rattle.plain_core.specs.Cataloging.{listed};
    ghost use Rattle.plain_core.specs.Sayings.{seen_mappings, seen_manifest};

    /// These elements, with none behind them.
    pub fn new(alloc: Global, added: &'a [Element]) -> Result<Catalog<'a>, NoMemory>
        ensures listed { IfOk result (λ c. listed c ≡ added.now) }
        ensures added { IfOk result (λ c. c.added.now ≡ added.now) }
    {
        let index = index_of(alloc, added)?;
        Ok(Catalog {
            added,
            fresh: Seq::new(alloc),
            index,
        })
    }

    /// The element with this id.
    pub fn find(&self, id: ExGuid) -> Option<&Element>
        ensures { option_copied result ≡ find_element (listed self.now) id }
    {
        match self.index.place(id) {
            None => None,
            Some(place) => at(self.added, self.fresh.as_slice(), place),
        }
    }

    /// Whether there is an element with this id.
    pub fn contains(&self, id: ExGuid) -> bool
        ensures { result ≡ list_any (λ e. same_id id e.id) (listed self.now) }
    {
        self.index.contains(id)
    }

    /// Adds the element at the end. Without memory it is dropped.
    pub fn push(&mut self, element: Element) -> Result<(), NoMemory>
        ensures listed { OnOk result (listed self.new ≡ listed self.old ++ element ∷ []) }
        ensures added { self.new.added.now ≡ self.old.added.now }
    {
        let id = element.id;
        let before = self.fresh.len();
        self.fresh.push(element)?;
        match self.index.push(id) {
            Ok(()) => Ok(()),
            Err(NoMemory) => {
                self.fresh.truncate(before);
                Err(NoMemory)
            }
        }
    }

    // Adds a copy of the element, unless one with its id is there.
    fn add_new(&mut self, alloc: Global, element: &Element) -> Result<(), NoMemory>
        ensures listed { OnOk result (listed self.new ≡ with_new same_ids (listed self.old) element.now) }
        ensures added { self.new.added.now ≡ self.old.added.now }
    {
        if self.contains(element.id) {
            Ok(())
        } else {
            self.push(element.copied(alloc)?)
        }
    }

    /// Adds copies of those of the elements whose ids aren't there yet.
    pub fn grow(&mut self, alloc: Global, elements: &[Element]) -> Result<(), NoMemory>
        ensures listed { OnOk result (listed self.new ≡ fold (with_new same_ids) (listed self.old) elements.now) }
        ensures added { self.new.added.now ≡ self.old.added.now }
    {
        for element in elements {
            self.add_new(alloc, element)?;
        }
        Ok(())
    }

    /// The elements that it was made with.
    pub fn added(&self) -> &[Element]
        ensures { result.now ≡ self.now.added.now }
    {
        self.added
    }

    /// The elements that were added behind them.
    pub fn fresh(&self) -> &[Element]
        ensures { result.now ≡ self.now.fresh }
    {
        self.fresh.as_slice()
    }

    /// What was added behind.
    pub fn into_fresh(self) -> Elements
        ensures { result ≡ self.entry.fresh }
    {
        let Catalog { fresh, .. } = self;
        fresh
    }

    /// The roots of a storage manifest.
    pub fn storage_at(&self, id: ExGuid) -> Option<&Roots>
        ensures { option_copied result ≡ said as_storage (listed self.now) id }
    {
        match self.find(id) {
            None => None,
            Some(element) => match &element.body {
                Body::Storage { roots, .. } => Some(roots),
                _ => None,
            },
        }
    }

    /// The current revision of a cell manifest.
    pub fn cell_at(&self, id: ExGuid) -> Option<ExGuid>
        ensures { result ≡ said as_cell (listed self.now) id }
    {
        match self.find(id) {
            None => None,
            Some(element) => match &element.body {
                Body::Cell { current } => Some(*current),
                _ => None,
            },
        }
    }

    /// The objects of a group.
    pub fn group_at(&self, id: ExGuid) -> Option<&Objects>
        ensures { option_copied result ≡ said as_group (listed self.now) id }
    {
        match self.find(id) {
            None => None,
            Some(element) => match &element.body {
                Body::Group { objects } => Some(objects),
                _ => None,
            },
        }
    }

    /// The bytes of a blob.
    pub fn blob_at(&self, id: ExGuid) -> Option<&Octets>
        ensures { option_copied result ≡ said as_blob (listed self.now) id }
    {
        match self.find(id) {
            None => None,
            Some(element) => match &element.body {
                Body::Blob { bytes } => Some(bytes),
                _ => None,
            },
        }
    }

    /// The mappings of an index.
    pub fn index_at(&self, id: ExGuid) -> Option<Mappings<'_>>
        ensures { option_map seen_mappings result ≡ said as_index (listed self.now) id }
    {
        match self.find(id) {
            None => None,
            Some(element) => match &element.body {
                Body::Index {
                    manifests,
                    cells,
                    revisions,
                } => Some(Mappings {
                    manifests,
                    cells,
                    revisions,
                }),
                _ => None,
            },
        }
    }

    /// What a revision manifest says.
    pub fn revision_at(&self, id: ExGuid) -> Option<Manifest<'_>>
        ensures { option_map seen_manifest result ≡ said as_revision (listed self.now) id }
    {
        match self.find(id) {
            None => None,
            Some(element) => match &element.body {
                Body::Revision {
                    base,
                    roots,
                    groups,
                    ..
                } => Some(Manifest {
                    base: *base,
                    roots,
                    groups,
                }),
                _ => None,
            },
        }
    }
}
