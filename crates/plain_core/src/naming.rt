// What an index names, in the order of naming.
ghost use Rattle.std.specs.Prelude.{◌≡◌, ◌+◌, ◌<◌, ◌^◌, [], ◌∷◌, ◌++◌, Some, IfOk, OnOk, length, map, fold, flat_map, take, option_map, unwrap_or, option_copied, find, is_some};
ghost use Rattle.std.specs.List.{list_any};
ghost use Rattle.compact_values.specs.IdPlaces.{with_new};
ghost use Rattle.doc_model.specs.rules.Finding.{said, firsts, as_index, as_storage, as_cell, as_group, as_blob};
ghost use Rattle.doc_model.specs.rules.Reached.{manifest_of, base_of, named_along, enough, named_revisions, name, revision_name, mapping_of, groups_of, blobs_of, blob_of, same_cells, cells_of, current_of, currents_of, storage_name, cell_name, group_name, blob_name, names_below, names};
ghost use Rattle.plain_core.specs.Cataloging.{listed};
ghost use Rattle.plain_core.specs.Naming.{IsBelow, names_of};
ghost use Rattle.plain_core.specs.Sayings.{seen_mappings, seen_manifest};

use crate::catalog::Catalog;
use crate::cells::CellsOnce;
use crate::links::{name_blobs, name_groups, name_revisions};
use crate::revisions::Revisions;
use crate::sayings::Mappings;
use compact_values::{ExGuid, IdIndex, Ids, NoMemory, Seq};
use doc_model::{CellMap, CellMaps, ManifestMap, Name, Namings};
use std::alloc::Global;

/// Of two mappings of one cell the first.
pub fn cells_of(alloc: Global, cells: &[CellMap]) -> Result<CellMaps, NoMemory>
    ensures { IfOk result (λ kept. kept ≡ firsts same_cells cells.now) }
{
    let mut once = CellsOnce::new(alloc);
    for c in cells {
        once.join(c)?;
    }
    Ok(once.into_maps())
}

/// The current revisions of the cells.
pub fn currents_of(alloc: Global, catalog: &Catalog<'_>, cells: &[CellMap]) -> Result<Ids, NoMemory>
    ensures { IfOk result (λ ids. ids ≡ map (current_of (listed catalog.now)) cells.now) }
{
    let mut ids = Seq::new(alloc);
    for c in cells {
        ids.push(current_of(catalog, c))?;
    }
    Ok(ids)
}

fn current_of(catalog: &Catalog<'_>, c: &CellMap) -> ExGuid
    ensures { result ≡ current_of (listed catalog.now) c.now }
{
    catalog.cell_at(c.target).unwrap_or(ExGuid::Null)
}

fn storage_name(catalog: &Catalog<'_>, m: &ManifestMap) -> Name
    ensures { result ≡ storage_name (listed catalog.now) m.now }
{
    Name {
        id: m.target,
        found: catalog.storage_at(m.target).is_some(),
    }
}

fn cell_name(catalog: &Catalog<'_>, c: &CellMap) -> Name
    ensures { result ≡ cell_name (listed catalog.now) c.now }
{
    Name {
        id: c.target,
        found: catalog.cell_at(c.target).is_some(),
    }
}

fn group_name(catalog: &Catalog<'_>, group: ExGuid) -> Name
    ensures { result ≡ group_name (listed catalog.now) group }
{
    Name {
        id: group,
        found: catalog.group_at(group).is_some(),
    }
}

fn blob_name(catalog: &Catalog<'_>, blob: ExGuid) -> Name
    ensures { result ≡ blob_name (listed catalog.now) blob }
{
    Name {
        id: blob,
        found: catalog.blob_at(blob).is_some(),
    }
}

fn revision_name(catalog: &Catalog<'_>, revisions: &Revisions<'_>, revision: ExGuid) -> Name
    ensures { result ≡ revision_name (listed catalog.now) revisions.now.maps.now revision }
{
    let found = revisions.manifest(catalog, revision).is_some();
    match revisions.mapping(revision) {
        None => Name {
            id: revision,
            found,
        },
        Some(m) => Name {
            id: m.target,
            found,
        },
    }
}

/// Names the storage manifest of the first mapping.
fn name_storage(
    catalog: &Catalog<'_>,
    manifests: &[ManifestMap],
    all: &mut Namings,
) -> Result<(), NoMemory>
    ensures { OnOk result (all.new ≡ all.old ++ map (storage_name (listed catalog.now)) (take 1 manifests.now)) }
{
    match manifests.first() {
        None => Ok(()),
        Some(m) => all.push(storage_name(catalog, m)),
    }
}

fn name_cells(catalog: &Catalog<'_>, cells: &[CellMap], all: &mut Namings) -> Result<(), NoMemory>
    ensures { OnOk result (all.new ≡ all.old ++ map (cell_name (listed catalog.now)) cells.now) }
{
    for c in cells {
        all.push(cell_name(catalog, c))?;
    }
    Ok(())
}

fn add_revisions(
    catalog: &Catalog<'_>,
    revisions: &Revisions<'_>,
    named: &[ExGuid],
    all: &mut Namings,
) -> Result<(), NoMemory>
    ensures { OnOk result (all.new ≡ all.old ++ map (revision_name (listed catalog.now) revisions.now.maps.now) named.now) }
{
    for revision in named {
        all.push(revision_name(catalog, revisions, *revision))?;
    }
    Ok(())
}

fn add_groups(catalog: &Catalog<'_>, groups: &[ExGuid], all: &mut Namings) -> Result<(), NoMemory>
    ensures { OnOk result (all.new ≡ all.old ++ map (group_name (listed catalog.now)) groups.now) }
{
    for group in groups {
        all.push(group_name(catalog, *group))?;
    }
    Ok(())
}

fn add_blobs(catalog: &Catalog<'_>, blobs: &[ExGuid], all: &mut Namings) -> Result<(), NoMemory>
    ensures { OnOk result (all.new ≡ all.old ++ map (blob_name (listed catalog.now)) blobs.now) }
{
    for blob in blobs {
        all.push(blob_name(catalog, *blob))?;
    }
    Ok(())
}

/// What an index names below itself, each kind once.
#[derive(Drop)]
struct Below<'a> {
    revisions: Revisions<'a>,
    cells: CellMaps,
    named: IdIndex,
    groups: IdIndex,
    blobs: IdIndex,
}

// What these mappings name.
fn gathered<'a>(
    alloc: Global,
    catalog: &Catalog<'_>,
    maps: Mappings<'a>,
) -> Result<Below<'a>, NoMemory>
    ensures { IfOk result (λ all. IsBelow (listed catalog.now) (seen_mappings maps.entry) all) }
{
    let cells = cells_of(alloc, maps.cells.as_slice())?;
    let currents = currents_of(alloc, catalog, cells.as_slice())?;
    let revisions = Revisions::new(alloc, maps.revisions.as_slice())?;
    let named = name_revisions(alloc, catalog, &revisions, currents.as_slice())?;
    let groups = name_groups(alloc, catalog, &revisions, named.as_slice())?;
    let blobs = name_blobs(alloc, catalog, groups.as_slice())?;
    Ok(Below {
        revisions,
        cells,
        named,
        groups,
        blobs,
    })
}

// Adds the names of what is below an index, kind by kind.
fn add_below(
    catalog: &Catalog<'_>,
    manifests: &[ManifestMap],
    below: &Below<'_>,
    all: &mut Namings,
) -> Result<(), NoMemory>
    ensures { OnOk result (all.new ≡ all.old ++ names_of (listed catalog.now) manifests.now below.now) }
{
    name_storage(catalog, manifests, all)?;
    name_cells(catalog, below.cells.as_slice(), all)?;
    add_revisions(catalog, &below.revisions, below.named.as_slice(), all)?;
    add_groups(catalog, below.groups.as_slice(), all)?;
    add_blobs(catalog, below.blobs.as_slice(), all)
}

/// Names all that an index maps.
fn names_below(
    alloc: Global,
    catalog: &Catalog<'_>,
    maps: Mappings<'_>,
    all: &mut Namings,
) -> Result<(), NoMemory>
    ensures { OnOk result (all.new ≡ all.old ++ names_below (listed catalog.now) (seen_mappings maps.entry)) }
{
    let below = gathered(alloc, catalog, maps)?;
    add_below(catalog, maps.manifests.as_slice(), &below, all)
}

/// All that is named from an index.
pub fn names(alloc: Global, catalog: &Catalog<'_>, index: ExGuid) -> Result<Namings, NoMemory>
    ensures { IfOk result (λ all. all ≡ names (listed catalog.now) index) }
{
    let mut all = Seq::new(alloc);
    match catalog.index_at(index) {
        None => {
            all.push(Name {
                id: index,
                found: false,
            })?;
            Ok(all)
        }
        Some(maps) => {
            all.push(Name {
                id: index,
                found: true,
            })?;
            names_below(alloc, catalog, maps, &mut all)?;
            Ok(all)
        }
    }
}
