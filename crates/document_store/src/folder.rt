// A folder of documents on a system. The document NAME is the file `NAME.cells`; a disk without a name is a file whose
// name begins with a dot, so that it is no document.
ghost use Rattle.std.specs.Prelude.{◌≡◌, map, IfOk, encode_utf8_all};
ghost use Rattle.document_store.specs.Names.{AreAscending};

use crate::folder_fault::FolderFault;
use crate::lent_disk::LentDisk;
use crate::name::is_name;
use crate::name_list::{add_name, no_names};
use compact_values::Text;
use host_edge::{Disk, FileDisk};
use std::alloc::Global;
use std::fs::{DirEntry, File, OpenOptions, TryLockError};
use std::io::ErrorKind;
use std::{fs, io};

const ENDING: &str = ".cells";

// The folder that the folder of documents stands in.
const WORKING_FOLDER: &str = ".";

/// Where the folder has a disk.
#[derive(Drop)]
pub enum Place {
    /// Under the name of a document.
    Named,
    /// In a file of its own, without a name.
    Begun { path: String },
}

/// A disk that a folder lends.
pub type FolderDisk = LentDisk<FileDisk, Place>;

/// A folder. From the first call on it is this program's alone, as long as this value lives.
#[derive(Drop)]
pub(crate) struct Folder {
    rt: HostRuntime,
    path: &'static str,
    lock: Option<File>,
    begun: u64,
}

impl Folder {
    pub(crate) fn new(rt: HostRuntime, path: &'static str) -> Folder {
        Folder {
            rt,
            path,
            lock: None,
            begun: 0,
        }
    }

    // Makes the folder where there is none, and takes it for this program.
    fn enter(&mut self) -> Result<(), FolderFault> {
        if self.lock.is_none() {
            make_folder(&self.rt, self.path)?;
            self.lock = Some(lock_folder(&self.rt, self.path)?);
        }
        Ok(())
    }

    /// The names of its documents, in ascending order.
    pub(crate) fn names(&mut self, alloc: Global) -> Result<Vec<Text>, FolderFault>
        ensures { IfOk result (λ names. AreAscending (map encode_utf8_all names.items)) }
    {
        self.enter()?;
        let mut names = no_names(alloc);
        for entry in fs::read_dir(&self.rt, self.path)? {
            if let Some(name) = document_name(alloc, entry)? {
                add_name(&mut names, name)?;
            }
        }
        Ok(names)
    }

    // The path of the document's file.
    fn path_of(&self, name: &str) -> Result<String, FolderFault> {
        if !is_name(name) {
            return Err(FolderFault::NoName);
        }
        let folder = self.path;
        Ok(format!(in self.rt.alloc(); "{folder}/{name}{ENDING}")?)
    }

    /// The disk over the document's file.
    pub(crate) fn fetch(&mut self, name: &str) -> Result<FolderDisk, FolderFault>
        ensures { IfOk result (λ disk. disk.faults ≡ 0) }
    {
        self.enter()?;
        let path = self.path_of(name)?;
        let file = FileDisk::open(&self.rt, path.as_str())?;
        Ok(LentDisk::new(file, Place::Named))
    }

    /// A disk over a new file without a name. What an earlier program left there is gone.
    pub(crate) fn begin(&mut self, alloc: Global) -> Result<FolderDisk, FolderFault>
        ensures { IfOk result (λ disk. disk.faults ≡ 0) }
    {
        self.enter()?;
        let folder = self.path;
        let number = self.begun;
        let path = format!(in alloc; "{folder}/.begun-{number}")?;
        self.begun = number.wrapping_add(1);
        let _ = fs::remove_file(&self.rt, path.as_str());
        let file = FileDisk::create(&self.rt, path.as_str())?;
        Ok(LentDisk::new(file, Place::Begun { path }))
    }

    // Syncs the file of a disk without a name, and gives it the name. The file that had it is gone.
    fn name_file(
        &mut self,
        file: &mut FileDisk,
        path: &str,
        name: &str,
    ) -> Result<(), FolderFault> {
        self.enter()?;
        let named = self.path_of(name)?;
        if file.sync().is_err() {
            return Err(FolderFault::Disk);
        }
        fs::rename(&self.rt, path, named.as_str())?;
        Ok(())
    }

    /// Gives a disk without a name this name, and syncs the folder. Where it is refused before the folder is synced, the
    /// disk's file is gone.
    pub(crate) fn publish(
        &mut self,
        name: &str,
        disk: FolderDisk,
    ) -> Result<FolderDisk, FolderFault>
        ensures { IfOk result (λ on. on.faults ≡ disk.faults) }
    {
        let LentDisk {
            disk: mut file,
            place,
            faults,
        } = disk;
        let Place::Begun { path } = place else {
            return Err(FolderFault::HasName);
        };
        match self.name_file(&mut file, path.as_str(), name) {
            Ok(()) => {}
            Err(fault) => {
                let _ = fs::remove_file(&self.rt, path.as_str());
                return Err(fault);
            }
        }
        sync_folder(&self.rt, self.path)?;
        Ok(LentDisk {
            disk: file,
            place: Place::Named,
            faults,
        })
    }

    /// Removes the file of a disk without a name. Where the system refuses that, the file stays: it is no document.
    pub(crate) fn discard(&mut self, disk: FolderDisk) {
        let LentDisk { place, .. } = disk;
        if let Place::Begun { path } = place {
            let _ = fs::remove_file(&self.rt, path.as_str());
        }
    }
}

// Makes the folder where there is none, so that it stays there after a crash.
fn make_folder(rt: &HostRuntime, path: &str) -> io::Result<()> {
    match fs::create_dir(rt, path) {
        Ok(()) => sync_folder(rt, WORKING_FOLDER),
        Err(error) if error.kind() == ErrorKind::AlreadyExists => Ok(()),
        Err(error) => Err(error),
    }
}

fn sync_folder(rt: &HostRuntime, path: &str) -> io::Result<()> {
    File::open(rt, path)?.sync_all()
}

// Takes the lock of the folder, which goes with the open file.
fn lock_folder(rt: &HostRuntime, folder: &str) -> Result<File, FolderFault> {
    let path = format!(in rt.alloc(); "{folder}/.lock")?;
    let file = OpenOptions::new()
        .read(true)
        .write(true)
        .create(true)
        .open(rt, path.as_str())?;
    match file.try_lock() {
        Ok(()) => Ok(file),
        Err(TryLockError::WouldBlock) => Err(FolderFault::InUse),
        Err(TryLockError::Error(error)) => Err(FolderFault::from(error)),
    }
}

// The name of the document that an entry of the folder is, if it is one.
fn document_name(alloc: Global, entry: io::Result<DirEntry>) -> Result<Option<Text>, FolderFault> {
    let entry = match entry {
        Ok(entry) => entry,
        // A name that isn't UTF-8 is no document's.
        Err(error) if error.kind() == ErrorKind::InvalidFilename => return Ok(None),
        Err(error) => return Err(FolderFault::from(error)),
    };
    let Some(name) = entry.file_name().strip_suffix(ENDING) else {
        return Ok(None);
    };
    if !is_name(name) || !entry.file_type()?.is_file() {
        return Ok(None);
    }
    Ok(Some(Text::from_str(alloc, name)?))
}
