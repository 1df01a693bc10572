//! Data elements, packages of them and knowledge on the wire (MS-FSSHTTPB 2.2.1.12 and 2.2.1.13), both ways.
//!
//! - `package`: reading the elements of a package
//! - `numbered`: reading them with their serial numbers
//! - `body`: reading what an element says, by its kind
//! - `group`: reading the objects of a group
//! - `check`: which child of an element is the first that isn't in its form
//! - `collect`: what the children of a type say
//! - `rows`: the fields of the children of elements
//! - `members`: the fields of the declarations and data of a group
//! - `knowledge`: reading knowledge
//! - `fault`: why objects are no package and no knowledge
//! - `wire_fault`: why bytes are no request and no response
//! - `write_group`: the objects of a group as they are written
//! - `write`: writing elements, packages and knowledge
//! - `laws`: what is written stands in its form
#![tactic(auto)]

mod body;
mod check;
mod collect;
mod fault;
mod group;
mod knowledge;
pub mod laws;
mod members;
mod numbered;
mod package;
mod rows;
mod wire_fault;
mod write;
mod write_group;

pub use fault::ElementFault;
pub use knowledge::{guid_row, read_knowledge};
pub use numbered::read_numbered;
pub use package::{read_element, read_package};
pub use rows::{has_no_fields, package_row};
pub use wire_fault::WireFault;
pub use write::{write_element, write_knowledge, write_package};
