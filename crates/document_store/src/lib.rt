//! Where documents are kept: disks under names, which are lent and given back.
//!
//! - `store`: the trait, with what is under each name as its meaning; `fault` has why it refuses
//! - `lent_disk`: a disk that is lent, which counts its faults from then on
//! - `mem_store`: a store in memory, of which a `slot` has a name; `slots` lends out of them
//! - `folder_store`: a store over a `folder` of files; `folder_fault` has why that refuses
//! - `name`, `name_list`: which texts are names, and lists of names
#![tactic(auto)]

mod fault;
mod folder;
mod folder_fault;
mod folder_store;
mod lent_disk;
mod mem_store;
mod name;
mod name_list;
mod slot;
mod slots;
mod store;

pub use fault::StoreFault;
pub use folder::{FolderDisk, Place};
pub use folder_fault::FolderFault;
pub use folder_store::FolderStore;
pub use lent_disk::LentDisk;
pub use mem_store::MemStore;
pub use name::{MOST_BYTES, is_name};
pub use store::Store;

#[cfg(test)]
mod folder_tests;
#[cfg(test)]
mod mem_tests;
