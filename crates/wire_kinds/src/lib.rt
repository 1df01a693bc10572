//! Values of the wire by their kinds, and objects without children whose fields are of one kind.
//!
//! A kind (`specs/Kind`) says which values have a place in a field, and the bytes of each. Kinds are put together as fields
//! are; a type of objects (`specs/Row`) is a number and the kind of its fields. What is read, what is written, how long it
//! is and the laws of these follow from the kind, once for all types.
//!
//! - `wire`: the traits `Encode` and `Decode`, also for two values one behind the other
//! - `values`: single values
//! - `arrays`: binary items, and arrays of any kind of value
//! - `row`: objects whose fields are a value: read, written and counted
#![tactic(auto)]

mod arrays;
mod row;
mod values;
mod wire;

pub use arrays::{encode_each, size_of_each};
pub use row::{read_row, row_size, size_of_rows, write_row, write_rows};
pub use wire::{Decode, Encode};
