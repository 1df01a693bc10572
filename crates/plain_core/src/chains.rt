// The chains of bases of an index.
ghost use Rattle.std.specs.Prelude.{◌≡◌, IfOk, OnOk, is_some};
ghost use Rattle.std.specs.List.{list_all};
ghost use Rattle.doc_model.specs.rules.Puts.{has_chains};
ghost use Rattle.doc_model.specs.rules.Reached.{chain, longest};
ghost use Rattle.plain_core.specs.Cataloging.{listed};
ghost use Rattle.plain_core.specs.Chaining.{chain_length, TellsLengths};

use crate::catalog::Catalog;
use crate::naming::{cells_of, currents_of};
use crate::revisions::Revisions;
use compact_values::{ExGuid, IdKey, NoMemory, key_of};
use doc_model::limits::MOST_REVISIONS;
use std::alloc::Global;
use std::collections::BTreeMap;

/// The lengths of chains that end, by the revisions with which they begin.
type Lengths = BTreeMap<IdKey, usize>;

/// Whether the index is there, and each of its chains of bases ends.
pub fn has_chains(alloc: Global, catalog: &Catalog<'_>, index: ExGuid) -> Result<bool, NoMemory>
    ensures { IfOk result (λ b. b ≡ has_chains (listed catalog.now) index) }
{
    let Some(maps) = catalog.index_at(index) else {
        return Ok(false);
    };
    let cells = cells_of(alloc, maps.cells.as_slice())?;
    let currents = currents_of(alloc, catalog, cells.as_slice())?;
    let revisions = Revisions::new(alloc, maps.revisions.as_slice())?;
    all_end(alloc, catalog, &revisions, currents.as_slice())
}

// Whether the chains of these revisions end.
fn all_end(
    alloc: Global,
    catalog: &Catalog<'_>,
    revisions: &Revisions<'_>,
    currents: &[ExGuid],
) -> Result<bool, NoMemory>
    ensures { IfOk result (λ b. b ≡ list_all (λ r. is_some (chain (listed catalog.now) revisions.now.maps.now longest r)) currents.now) }
{
    let mut lengths = BTreeMap::new(alloc);
    for revision in currents {
        if chain_length(catalog, revisions, &mut lengths, *revision, MOST_REVISIONS)?.is_none() {
            return Ok(false);
        }
    }
    Ok(true)
}

// How many revisions the chain of a revision has, None where it has no end or more than these. A revision whose length is noted
// isn't walked again.
fn chain_length(
    catalog: &Catalog<'_>,
    revisions: &Revisions<'_>,
    lengths: &mut Lengths,
    revision: ExGuid,
    most: usize,
) -> Result<Option<usize>, NoMemory>
    requires { TellsLengths (listed catalog.now) revisions.now.maps.now lengths.old }
    ensures length { IfOk result (λ n. n ≡ chain_length (listed catalog.now) revisions.now.maps.now most revision) }
    ensures told { OnOk result (TellsLengths (listed catalog.now) revisions.now.maps.now lengths.new) }
{
    if let ExGuid::Null = revision {
        return Ok(Some(0));
    }
    let key = key_of(revision);
    if let Some(length) = lengths.get(&key).copied() {
        return Ok(if length <= most { Some(length) } else { None });
    }
    if most == 0 {
        return Ok(None);
    }
    let Some(manifest) = revisions.manifest(catalog, revision) else {
        return Ok(None);
    };
    let Some(below) = chain_length(catalog, revisions, lengths, manifest.base, most - 1)? else {
        return Ok(None);
    };
    let length = below + 1;
    match lengths.insert(key, length) {
        Ok(_) => Ok(Some(length)),
        Err(_) => Err(NoMemory),
    }
}
