//! Bytes as tests write them: two hexadecimal digits a byte, spaced by object as docs/PROTOCOL.md has them, and a letter
//! for a run of bytes that stands often.
//!
//! - `forms`: the bytes that a form names
//! - `runs`: the runs of bytes that have a letter, and the values in them
#![tactic(auto)]

mod forms;
mod runs;

pub use forms::{add_form, bytes_of};
pub use runs::{client, guid, id, schema};
