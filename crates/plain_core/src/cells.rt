// Mappings of cells, each cell once.
ghost use Rattle.std.specs.Prelude.{◌≡◌, [], OnOk};
ghost use Rattle.compact_values.specs.IdPlaces.{with_new};
ghost use Rattle.doc_model.specs.rules.Reached.{same_cells};

use crate::keys::cell_key;
use compact_values::{IdKey, NoMemory, Seq};
use doc_model::{CellMap, CellMaps};
use std::alloc::Global;
use std::collections::BTreeMap;
use std::marker::Model;

/// Mappings of cells, in the order in which they came, and of each cell the first. A cell that comes again isn't looked for
/// in the list.
#[derive(Drop)]
pub struct CellsOnce {
    maps: CellMaps,
    known: BTreeMap<(IdKey, IdKey), ()>,
}

impl Model for CellsOnce {
    ghost use Rattle.std.specs.Prelude.{List};
    ghost use Rattle.doc_model.specs.declared.element.CellMap.{CellMap};
    ghost use Rattle.plain_core.specs.Keys.{HasCells};

    ghost Value = { List CellMap };

    ghost view = { λ s. s.maps };

    ghost invariant = { λ s. HasCells s.maps s.known };
}

impl CellsOnce {
    /// No mappings.
    pub fn new(alloc: Global) -> CellsOnce
        ensures { result ≡ [] }
    {
        CellsOnce {
            maps: Seq::new(alloc),
            known: BTreeMap::new(alloc),
        }
    }

    /// Adds the mapping at the end, unless one of its cell is there.
    pub fn join(&mut self, map: &CellMap) -> Result<(), NoMemory>
        ensures { OnOk result (self.new ≡ with_new same_cells self.old map.now) }
    {
        let key = cell_key(map.cell);
        if self.known.contains_key(&key) {
            return Ok(());
        }
        let before = self.maps.len();
        self.maps.push(*map)?;
        match self.known.insert(key, ()) {
            Ok(_) => Ok(()),
            Err(_) => {
                self.maps.truncate(before);
                Err(NoMemory)
            }
        }
    }

    /// The mappings.
    pub fn into_maps(self) -> CellMaps
        ensures { result ≡ self }
    {
        let CellsOnce { maps, .. } = self;
        maps
    }
}
