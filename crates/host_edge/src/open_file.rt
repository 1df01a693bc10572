// How a disk's file is opened on a system: alone, and with what is read of it brought together with the medium.
use std::fs::{File, OpenOptions, TryLockError};
use std::io;
use std::os::fd::AsRawFd;
use thiserror::Error;

/// Why a file was not opened as a disk.
#[derive(Clone, Copy, Debug, Error)]
pub enum OpenFault {
    /// Another process has it, or another disk of this one.
    #[error("the file is in use")]
    InUse,
    /// What the system answered.
    #[error("{0}")]
    System(io::Error),
}

impl From<io::Error> for OpenFault {
    fn from(error: io::Error) -> OpenFault {
        OpenFault::System(error)
    }
}

// The file at the path, for reading and writing where it stands. A new one is made only where none is there and one is
// asked for.
pub(crate) fn open_file(rt: &HostRuntime, path: &str, make: bool) -> Result<File, OpenFault> {
    let file = OpenOptions::new()
        .read(true)
        .write(true)
        .create_new(make)
        .open(rt, path)?;
    lock(&file)?;
    settle(&file, &File::open(rt, folder_of(path))?)?;
    Ok(file)
}

// The lock is the open file's own, and goes with it.
fn lock(file: &File) -> Result<(), OpenFault> {
    match file.try_lock() {
        Ok(()) => Ok(()),
        Err(TryLockError::WouldBlock) => Err(OpenFault::InUse),
        Err(TryLockError::Error(error)) => Err(OpenFault::System(error)),
    }
}

// Syncs the file and drops the system's copies of its pages: after a sync that failed in an earlier process some of them
// may never have reached the medium. Syncs the folder, so that a new file's name stays.
fn settle(file: &File, folder: &File) -> io::Result<()> {
    file.sync_all()?;
    let advised = libc::posix_fadvise(file.as_raw_fd(), 0, 0, libc::POSIX_FADV_DONTNEED);
    if advised != 0 {
        return Err(io::Error::from_raw_os_error(advised));
    }
    folder.sync_all()
}

// The path of the folder that the file stands in.
pub(crate) fn folder_of(path: &str) -> &str {
    match path.rsplit_once('/') {
        Some(("", _)) => "/",
        Some((folder, _)) => folder,
        None => ".",
    }
}
