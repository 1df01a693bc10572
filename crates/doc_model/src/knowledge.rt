use compact_values::{Guid, Seq};

/// Ranges of serial numbers.
pub type Ranges = Seq<Range>;

/// The serial numbers of a GUID with the values `from` to `to`, both of them too; none where `from` is above `to`.
#[derive(Clone, Copy, Debug, PartialEq, Eq)]
pub struct Range {
    pub guid: Guid,
    pub from: u64,
    pub to: u64,
}

/// Which elements a client knows, by their serial numbers (MS-FSSHTTPB 2.2.1.13).
#[derive(Debug, Drop, PartialEq, Eq)]
pub struct Knowledge {
    pub ranges: Ranges,
}
