// What is named by GUIDs: extended GUIDs, serial numbers, cell ids, and their lists.
ghost use Rattle.std.specs.Prelude.{◌≡◌};
ghost use Rattle.compact_values.specs.SameIds.{same_id, same_cell};

use crate::fault::NoMemory;
use crate::guid::Guid;
use crate::seq::{Copied, Same, Seq};
use std::alloc::Global;

/// An extended GUID: a GUID with a number, or null (MS-FSSHTTPB 2.2.1.7).
#[derive(Clone, Copy, Debug, PartialEq, Eq)]
pub enum ExGuid {
    Null,
    Id { guid: Guid, value: u32 },
}

/// A serial number: a GUID with a number, or null (MS-FSSHTTPB 2.2.1.9).
#[derive(Clone, Copy, Debug, PartialEq, Eq)]
pub enum Serial {
    Null,
    Number { guid: Guid, value: u64 },
}

/// A cell id: two extended GUIDs (MS-FSSHTTPB 2.2.1.10).
#[derive(Clone, Copy, Debug, PartialEq, Eq)]
pub struct CellId {
    pub first: ExGuid,
    pub second: ExGuid,
}

/// A list of extended GUIDs.
pub type Ids = Seq<ExGuid>;

/// A list of cell ids.
pub type CellIds = Seq<CellId>;

impl ExGuid {
    /// Whether it is the same extended GUID.
    pub fn is(self, other: ExGuid) -> bool
        ensures { result ≡ same_id self other }
    {
        match self {
            ExGuid::Null => match other {
                ExGuid::Null => true,
                ExGuid::Id { .. } => false,
            },
            ExGuid::Id { guid, value } => match other {
                ExGuid::Null => false,
                ExGuid::Id { guid: g, value: v } => guid.is(g) && value == v,
            },
        }
    }
}

impl CellId {
    /// Whether it is the same cell id.
    pub fn is(self, other: CellId) -> bool
        ensures { result ≡ same_cell self other }
    {
        self.first.is(other.first) && self.second.is(other.second)
    }
}

impl Same for ExGuid {
    fn same(&self, other: &ExGuid) -> bool {
        *self == *other
    }
}

impl Same for Serial {
    fn same(&self, other: &Serial) -> bool {
        *self == *other
    }
}

impl Same for CellId {
    fn same(&self, other: &CellId) -> bool {
        self.first.same(&other.first) && self.second.same(&other.second)
    }
}

impl Copied for ExGuid {
    fn copied(&self, _alloc: Global) -> Result<ExGuid, NoMemory> {
        Ok(*self)
    }
}

impl Copied for Serial {
    fn copied(&self, _alloc: Global) -> Result<Serial, NoMemory> {
        Ok(*self)
    }
}

impl Copied for CellId {
    fn copied(&self, _alloc: Global) -> Result<CellId, NoMemory> {
        Ok(*self)
    }
}
