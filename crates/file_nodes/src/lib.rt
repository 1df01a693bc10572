//! Files as nodes (MS-FSSHTTPD 2.2): the file that objects stand for, and the objects that a file is cut into.
//!
//! - `object_map`: the objects that a file is made of
//! - `file`: the file that they stand for
//! - `lengths`: how long it is
//! - `fault`: why they stand for none
//! - `node`: nodes as they are read
//! - `places`, `links`: what each object refers to, by places
//! - `walks`: the length of each object's file, or the first fault of a walk through it
//! - `join`: the bytes of a file, joined from those of its objects
//! - `chunking`: a file cut into objects and data elements
//! - `file_objects`: its root node, leaves and intermediate nodes
//! - `file_elements`: the data elements round them
//! - `laws`: what holds of files that objects stand for, and of a file that is cut
#![tactic(auto)]

mod chunking;
mod fault;
mod file;
mod file_elements;
mod file_objects;
mod join;
pub mod laws;
mod lengths;
mod links;
mod node;
mod object_map;
mod places;
mod walks;

pub use chunking::{Chunked, chunk};
pub use fault::NodeFault;
pub use file::file_of;
pub use lengths::file_length;
pub use object_map::ObjectMap;
