// The store over a folder.
ghost use Rattle.std.specs.Prelude.{◌≡◌, ◌≤◌, None, Some};
ghost use Rattle.std.proofs.Common.{refl};
ghost use Rattle.document_store.specs.Causes.{ShowsIn, TakesOver};

use crate::fault::StoreFault;
use crate::folder::{Folder, FolderDisk};
use crate::folder_fault::FolderFault;
use crate::store::Store;
use compact_values::{Names, Seq};
use std::alloc::Global;

const FOLDER: &str = "cells";

/// The store over the folder `cells` of the working folder, which is made where there is none. Each document is a file
/// `NAME.cells`; other files are none. It does not tell what is under a name, so its contract says nothing of content. Each
/// failure is counted.
///
/// From its first call on the folder is this program's. Where another has it, each call fails.
#[derive(Drop)]
pub struct FolderStore {
    folder: Folder,
    faults: u64,
    fault: Option<FolderFault>,
}

impl FolderStore {
    /// The store, of which no call was made.
    pub fn new(rt: HostRuntime) -> FolderStore
        ensures { result.faults ≡ 0 }
    {
        FolderStore::in_folder(rt, FOLDER)
    }

    // The store over another folder of the working folder.
    pub(crate) fn in_folder(rt: HostRuntime, path: &'static str) -> FolderStore
        ensures { result.faults ≡ 0 }
    {
        FolderStore {
            folder: Folder::new(rt, path),
            faults: 0,
            fault: None,
        }
    }

    /// How often it has failed, and how many of its disks had failed when they came back.
    pub fn failures(&self) -> u64
        ensures { result ≡ self.now.faults }
    {
        self.faults
    }

    /// Why a call was refused last.
    pub fn last_fault(&self) -> Option<FolderFault>
        ensures { result ≡ self.now.fault }
    {
        self.fault
    }

    // Takes over the faults of a disk that came back.
    fn take_over(&mut self, faults: u64)
        ensures { TakesOver faults self.old.faults self.new.faults }
    {
        if faults > 0 {
            self.faults = self.faults.saturating_add(1);
        }
    }

    // Counts a failure, and keeps why it was one. A disk with so many faults was in hand.
    fn refuse(&mut self, faults: u64, fault: FolderFault) -> StoreFault
        ensures later { self.old.faults ≤ self.new.faults }
        ensures why { ShowsIn faults self.old.faults self.new.faults result }
    {
        self.fault = Some(fault);
        match fault {
            FolderFault::NoMemory => {
                self.take_over(faults);
                StoreFault::NoMemory
            }
            _ => {
                self.faults = self.faults.saturating_add(1);
                StoreFault::Failed
            }
        }
    }
}

impl Store for FolderStore {
    type Disk = FolderDisk;

    ghost shelf = { λ s. None };

    ghost anew = { λ l. record { disk = l.disk; place = l.place; faults = 0 } };

    ghost left_inside = { λ s t name u. ⊥ };

    ghost faults = { λ s. s.faults };

    ghost same_disk = { λ l. record { reads = refl; images = λ c. (λ left. left, λ left. left); time = refl; since = λ t c. (λ left. left, λ left. left) } };

    ghost has_not_failed = { λ l. refl };

    fn names(&mut self, alloc: Global) -> Result<Names, StoreFault> {
        match self.folder.names(alloc) {
            Ok(names) => Ok(Seq::from_vec(names)),
            Err(fault) => Err(self.refuse(0, fault)),
        }
    }

    fn fetch(&mut self, name: &str) -> Result<FolderDisk, StoreFault> {
        match self.folder.fetch(name) {
            Ok(disk) => Ok(disk),
            Err(fault) => Err(self.refuse(0, fault)),
        }
    }

    fn begin(&mut self, alloc: Global) -> Result<FolderDisk, StoreFault> {
        match self.folder.begin(alloc) {
            Ok(disk) => Ok(disk),
            Err(fault) => Err(self.refuse(0, fault)),
        }
    }

    fn publish(&mut self, name: &str, disk: FolderDisk) -> Result<FolderDisk, StoreFault> {
        let faults = disk.failures();
        match self.folder.publish(name, disk) {
            Ok(disk) => Ok(disk),
            Err(fault) => Err(self.refuse(faults, fault)),
        }
    }

    fn give_back(&mut self, _name: &str, disk: FolderDisk) {
        self.take_over(disk.failures());
    }

    fn discard(&mut self, disk: FolderDisk) {
        self.take_over(disk.failures());
        self.folder.discard(disk);
    }
}
