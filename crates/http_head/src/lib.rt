//! The parts of HTTP/1.1 (RFC 9110, RFC 9112) that the host speaks.
//!
//! - `head`: where the head of a request ends
//! - `words`, `fields`: words compared in any case, and the values of header fields
//! - `target`: where the target of a request leads
//! - `request`: what a head asks for, or the status that refuses it
//! - `body`: the body of a request, which comes in pieces
//! - `answer`: the text of an answer
//! - `laws`: what holds of the definitions themselves
#![tactic(auto)]

mod answer;
mod body;
mod fields;
mod head;
pub mod laws;
mod request;
mod target;
mod words;

pub use answer::{Media, write_answer};
pub use body::{BODY_LIMIT, BodyReader, Fed, Framing, LINE_LIMIT, Place};
pub use head::{HEAD_LIMIT, HeadEnd, head_end};
pub use request::{Head, read_head};
pub use target::{Route, place_of};
