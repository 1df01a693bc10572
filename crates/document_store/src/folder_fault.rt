// Why a folder refused.
use compact_values::NoMemory;
use host_edge::OpenFault;
use std::alloc::AllocError;
use std::io;
use std::io::ErrorKind;
use thiserror::Error;

/// Why a store over a folder refused a call.
#[derive(Clone, Copy, Debug, Error)]
pub enum FolderFault {
    /// Another program has the folder, or somebody the file.
    #[error("the folder or the file is in use")]
    InUse,
    /// The text is no name of a document.
    #[error("no name of a document")]
    NoName,
    /// The disk to be published has a name.
    #[error("the disk has a name")]
    HasName,
    /// The disk to be published couldn't be synced.
    #[error("the disk failed")]
    Disk,
    /// No memory was left.
    #[error("no memory")]
    NoMemory,
    /// What the system answered.
    #[error("{0}")]
    System(io::Error),
}

impl From<io::Error> for FolderFault {
    fn from(error: io::Error) -> FolderFault {
        match error.kind() {
            ErrorKind::OutOfMemory => FolderFault::NoMemory,
            _ => FolderFault::System(error),
        }
    }
}

impl From<OpenFault> for FolderFault {
    fn from(fault: OpenFault) -> FolderFault {
        match fault {
            OpenFault::InUse => FolderFault::InUse,
            OpenFault::System(error) => FolderFault::from(error),
        }
    }
}

impl From<NoMemory> for FolderFault {
    fn from(_: NoMemory) -> FolderFault {
        FolderFault::NoMemory
    }
}

impl From<AllocError> for FolderFault {
    fn from(_: AllocError) -> FolderFault {
        FolderFault::NoMemory
    }
}
