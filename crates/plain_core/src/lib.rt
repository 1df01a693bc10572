//! A document kept as its lists: each call looks through them.
//!
//! - `catalog`: the elements, found by their ids, and what they say
//! - `cells`: mappings of cells, each cell once
//! - `chains`: whether the chains of bases of an index end
//! - `checking`: whether the elements of an upload may be added
//! - `content`: why what an index says refuses an upload
//! - `file`: the file at an index
//! - `file_length`: how long it is
//! - `file_objects`: the objects that it is made of
//! - `keys`: ids as keys of a map
//! - `known`: which serials a client knows
//! - `links`: the revisions, groups and blobs that an index names, each once
//! - `naming`: what an index names
//! - `plain`: the document, its plans and what settles them
//! - `plan_edit`: planning a step of the table of editors
//! - `plan_lock`: planning a step of the lock
//! - `plan_put`: planning an upload
//! - `plan_read`: planning what only reads
//! - `plan_restore`: planning what restores a version
//! - `pull`: what a client lacks, and what it knows then
//! - `put`: what an upload meets, and the first reasons to refuse it
//! - `reaching`: what is reached from an index, and whether it is too much
//! - `revisions`: the mappings of revisions, found by their revisions
//! - `root_chain`: the revisions of the root cell
//! - `sayings`: what elements say, borrowed
//! - `serials`: the serial numbers of what was sent
//! - `uploads`: the uploads that aren't complete
//! - `weighing`: what elements weigh, against a limit
#![tactic(auto)]

mod catalog;
mod cells;
mod chains;
mod checking;
mod content;
mod file;
mod file_length;
mod file_objects;
mod keys;
mod known;
mod links;
mod naming;
mod plain;
mod plan_edit;
mod plan_lock;
mod plan_put;
mod plan_read;
mod plan_restore;
mod pull;
mod put;
mod reaching;
mod revisions;
mod root_chain;
mod sayings;
mod serials;
mod uploads;
mod weighing;

pub use plain::{Change, PlainCore};
