// Why bytes are no request, or no response.
ghost use Rattle.std.specs.Prelude.{◌≡◌, ◌↔◌, IsTrue};

use stream_objects::TreeFault;
use thiserror::Error;

/// Why bytes are no request (MS-FSSHTTPB 2.2.2) or no response (2.2.3). Of several causes the first of this list counts.
#[derive(Clone, Copy, Debug, PartialEq, Eq, Error)]
pub enum WireFault {
    /// There are fewer than 12 bytes, or the versions at the front are no versions that are read.
    #[error("no front")]
    BadFront,
    /// The signature is another.
    #[error("another signature")]
    BadSignature,
    /// No tree of objects follows the front.
    #[error("{fault}")]
    TreeFault { fault: TreeFault },
    /// Bytes follow the tree, from `place` on.
    #[error("more behind the objects, from byte {place} on")]
    Extra { place: usize },
    /// An object isn't in its form; its fields start at `place`. It is the first such object in reading order.
    #[error("an object out of form at byte {place}")]
    SchemaFault { place: usize },
    /// There are more data elements than are read at once.
    #[error("too many data elements")]
    TooMany,
    /// No memory was left.
    #[error("no memory")]
    NoMemory,
}

impl WireFault {
    /// Whether memory was wanting, so that nothing is said of the bytes.
    pub fn is_no_memory(self) -> bool
        ensures { IsTrue result ↔ (self ≡ WireFault.NoMemory) }
    {
        matches!(self, WireFault::NoMemory)
    }
}
