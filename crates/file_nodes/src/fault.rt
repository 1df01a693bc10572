use compact_values::ExGuid;
use thiserror::Error;

/// Why objects stand for no file: the first fault of a walk through them in file order.
#[derive(Clone, Copy, Debug, PartialEq, Eq, Error)]
pub enum NodeFault {
    /// No object has this id.
    #[error("an object isn't there")]
    Absent { object: ExGuid },
    /// On a path from the root down this is the ninth object.
    #[error("a path has more than 8 objects")]
    TooHigh,
    /// The object has references, and its bytes are no node.
    #[error("an object with references is no node")]
    NotANode { object: ExGuid },
    /// The node says another length than the files of its references have together.
    #[error("a node says {said} bytes, and has {found}")]
    SizeDiffers { said: u64, found: u128 },
    /// The file is there, and has more than 16 MiB.
    #[error("the file has more than 16 MiB")]
    TooLarge,
    /// No memory was left.
    #[error("no memory")]
    NoMemory,
}
