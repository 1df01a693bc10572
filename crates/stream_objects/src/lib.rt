//! Stream objects (MS-FSSHTTPB 2.2.1.5): the headers that open and close an object, and trees of objects.
//!
//! - `object_types`: the types of objects, by name
//! - `limits`: how large a tree may be
//! - `headers`: start and end headers, written and read
//! - `tree`: an object with its children, as it was read
//! - `fault`: why no tree could be read
//! - `reading`: reading a tree from left to right
//! - `objects`: the fields of an object that was read, and its children of a type
//! - `written`: objects as they are written
//! - `laws`: what holds of the spellings themselves
#![tactic(auto)]

mod fault;
mod headers;
pub mod laws;
mod limits;
pub mod object_types;
mod objects;
mod reading;
mod tree;
mod written;

pub use fault::TreeFault;
pub use headers::{finish, start};
pub use limits::{MOST_LEVELS, MOST_OBJECTS};
pub use objects::{compound_fields, fields_of, has_no_child, only_child, simple_fields};
pub use reading::read_tree;
pub use tree::{Tree, Trees};
pub use written::begin;
