//! The answer to an envelope (SOAP 1.1, MS-FSSHTTP 2.2.3), as its text.
//!
//! - `write`: writing an answer
//! - `sub_response`: what is said of one subrequest
//! - `words`: the words of error codes, locks and coauthors
//! - `xml`: tags, attributes and their values
//! - `base`: base64
//! - `room`: how much room an answer takes
//! - `laws`: what holds of the text itself
#![tactic(auto)]

mod base;
pub mod laws;
mod room;
mod sub_response;
mod words;
mod write;
mod xml;

pub use write::write_envelope;
