use compact_values::Text;
use host_edge::MemDisk;

/// A name of a store in memory, and the disk that stands under it. It is lent where none does.
#[derive(Drop)]
pub(crate) struct Slot {
    pub(crate) name: Text,
    pub(crate) disk: Option<MemDisk>,
}
