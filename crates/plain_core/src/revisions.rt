// The revisions that an index maps, found by their ids.
ghost use Rattle.std.specs.Prelude.{◌≡◌, map, IfOk, option_map, option_copied, slice_get};
ghost use Rattle.doc_model.specs.rules.Reached.{base_of, manifest_of, mapping_of};
ghost use Rattle.plain_core.specs.Cataloging.{listed};
ghost use Rattle.plain_core.specs.Sayings.{seen_manifest};

use crate::catalog::Catalog;
use crate::sayings::Manifest;
use compact_values::{ExGuid, IdIndex, NoMemory};
use doc_model::RevisionMap;
use std::alloc::Global;

/// The mappings of revisions, found by their revisions. Of several of one revision the first counts.
#[derive(Drop)]
pub struct Revisions<'a> {
    pub maps: &'a [RevisionMap],
    places: IdIndex,
    ghost placed: { places ≡ map (λ m. m.revision) maps.now },
}

// An index of the revisions that these map.
fn index_of(alloc: Global, maps: &[RevisionMap]) -> Result<IdIndex, NoMemory>
    ensures { IfOk result (λ index. index ≡ map (λ m. m.revision) maps.now) }
{
    let mut index = IdIndex::new(alloc);
    for m in maps {
        index.push(m.revision)?;
    }
    Ok(index)
}

// The mapping at a place.
fn at(maps: &[RevisionMap], place: usize) -> Option<&RevisionMap>
    ensures { option_copied result ≡ slice_get maps.now place }
{
    maps.get(place)
}

impl<'a> Revisions<'a> {
    /// These mappings.
    pub fn new(alloc: Global, maps: &'a [RevisionMap]) -> Result<Revisions<'a>, NoMemory>
        ensures { IfOk result (λ r. r.maps.now ≡ maps.now) }
    {
        let places = index_of(alloc, maps)?;
        Ok(Revisions { maps, places })
    }

    /// The mapping of a revision.
    pub fn mapping(&self, revision: ExGuid) -> Option<&RevisionMap>
        ensures { option_copied result ≡ mapping_of self.now.maps.now revision }
    {
        match self.places.place(revision) {
            None => None,
            Some(place) => at(self.maps, place),
        }
    }

    /// The manifest of a revision that is mapped and there.
    pub fn manifest<'b>(&self, catalog: &'b Catalog<'_>, revision: ExGuid) -> Option<Manifest<'b>>
        ensures { option_map seen_manifest result ≡ manifest_of (listed catalog.now) self.now.maps.now revision }
    {
        match self.mapping(revision) {
            None => None,
            Some(m) => catalog.revision_at(m.target),
        }
    }

    /// The base of a revision, null where it has no manifest.
    pub fn base(&self, catalog: &Catalog<'_>, revision: ExGuid) -> ExGuid
        ensures { result ≡ base_of (manifest_of (listed catalog.now) self.now.maps.now revision) }
    {
        match self.manifest(catalog, revision) {
            None => ExGuid::Null,
            Some(m) => m.base,
        }
    }
}
