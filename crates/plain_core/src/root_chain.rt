// The revisions of the root cell at an index.
ghost use Rattle.std.specs.Prelude.{◌≡◌, map, IfOk, option_map, option_copied, option_and_then, find};
ghost use Rattle.compact_values.specs.SameIds.{same_cell};
ghost use Rattle.doc_model.specs.rules.Files.{current_revision, root_chain};
ghost use Rattle.doc_model.specs.rules.Finding.{said, as_cell};
ghost use Rattle.doc_model.specs.rules.Reached.{chain, longest};
ghost use Rattle.plain_core.specs.Cataloging.{listed};
ghost use Rattle.plain_core.specs.Sayings.{seen_mappings, seen_manifest};

use crate::catalog::Catalog;
use crate::revisions::Revisions;
use crate::sayings::{Manifest, Mappings};
use compact_values::{CellId, ExGuid, NoMemory};
use doc_model::CellMap;
use doc_model::limits::MOST_REVISIONS;
use std::alloc::Global;

/// The manifests of the root cell's revisions, the current one first.
pub fn root_chain<'a>(
    alloc: Global,
    catalog: &'a Catalog<'_>,
    index: ExGuid,
) -> Result<Option<Vec<Manifest<'a>>>, NoMemory>
    ensures { IfOk result (λ all. option_map (λ ms. map seen_manifest ms.items) all ≡ root_chain (listed catalog.now) index) }
{
    let Some(maps) = catalog.index_at(index) else {
        return Ok(None);
    };
    match current_revision(catalog, maps) {
        None => Ok(None),
        Some(revision) => {
            let revisions = Revisions::new(alloc, maps.revisions.as_slice())?;
            let manifests = chain(alloc, catalog, &revisions, revision)?;
            Ok(manifests)
        }
    }
}

// The root cell's current revision.
fn current_revision(catalog: &Catalog<'_>, maps: Mappings<'_>) -> Option<ExGuid>
    ensures { result ≡ current_revision (listed catalog.now) (seen_mappings maps.entry) }
{
    let mapping = maps.manifests.as_slice().first()?;
    let roots = catalog.storage_at(mapping.target)?;
    let root = roots.as_slice().first()?;
    current_of_cell(catalog, maps.cells.as_slice(), root.cell)
}

// The mapping of a cell: of several the first counts.
fn mapping_of_cell(cells: &[CellMap], cell: CellId) -> Option<&CellMap>
    ensures { option_copied result ≡ find (λ c. same_cell c.cell cell) cells.now }
{
    cells.iter().find(|c| c.cell.is(cell))
}

// The current revision of a cell that is mapped.
fn current_of_cell(catalog: &Catalog<'_>, cells: &[CellMap], cell: CellId) -> Option<ExGuid>
    ensures { result ≡ option_and_then (λ c. said as_cell (listed catalog.now) c.target) (find (λ c. same_cell c.cell cell) cells.now) }
{
    match mapping_of_cell(cells, cell) {
        None => None,
        Some(c) => catalog.cell_at(c.target),
    }
}

// The manifests of a revision and of its bases, where all are there and they are at most 1,024.
fn chain<'a>(
    alloc: Global,
    catalog: &'a Catalog<'_>,
    revisions: &Revisions<'_>,
    revision: ExGuid,
) -> Result<Option<Vec<Manifest<'a>>>, NoMemory>
    ensures { IfOk result (λ all. option_map (λ ms. map seen_manifest ms.items) all ≡ chain (listed catalog.now) revisions.now.maps.now longest revision) }
{
    let mut all = Vec::new(alloc);
    let mut left = MOST_REVISIONS;
    let mut at = revision;
    while left > 0 {
        match at {
            ExGuid::Null => return Ok(Some(all)),
            ExGuid::Id { .. } => match revisions.manifest(catalog, at) {
                None => return Ok(None),
                Some(m) => {
                    let Ok(()) = all.push(m) else {
                        return Err(NoMemory);
                    };
                    at = m.base;
                    left -= 1;
                }
            },
        }
    }
    match at {
        ExGuid::Null => Ok(Some(all)),
        ExGuid::Id { .. } => Ok(None),
    }
}
