use thiserror::Error;

/// Why a document could not be opened.
#[derive(Clone, Copy, Debug, PartialEq, Eq, Error)]
pub enum OpenFault {
    /// The disk failed. Its count of faults rose in this call.
    #[error("the disk failed")]
    DiskFault,
    /// The bytes are no journal, or a body is no change, or its call doesn't move where it stands: `place` is the first place
    /// where the form fails, or the body's first byte.
    #[error("no document's journal from byte {place} on")]
    NotAJournal { place: u64 },
    /// No memory was left.
    #[error("no memory")]
    NoMemory,
}
