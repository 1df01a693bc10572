//! Binary responses (MS-FSSHTTPB 2.2.3), written and read.
//!
//! - `front`: the bytes in front of a response
//! - `error_guids`: which error an error object has
//! - `rows`: the fields of the objects of a response
//! - `reply`: what a sub-response holds
//! - `sub_response`: reading a sub-response
//! - `read`: reading a response
//! - `write_reply`: writing what a sub-response holds
//! - `room`: how much room a response takes
//! - `write`: writing a response
//! - `laws`: what holds of responses themselves
#![tactic(auto)]

mod error_guids;
mod front;
pub mod laws;
mod read;
mod reply;
mod room;
mod rows;
mod sub_response;
mod write;
mod write_reply;

pub use read::read_cell_response;
pub use write::{write_cell_failure, write_cell_response};
