//! The grammar of the envelope in which requests come (SOAP 1.1, MS-FSSHTTP 2.2.2), and its text as a tree: Requests and
//! SubRequests with their attributes as they are written. What they ask for is no matter of this crate.
//!
//! - `raw`: the tree
//! - `tag`: names, attributes and tags
//! - `document`: reading an envelope, from the outermost element down
//! - `elements`: elements among white space
//! - `skipping`: elements whose content is skipped, and the characters round them
//! - `tags`, `value`, `lexical`: tags; values with their references; names, white space and single bytes
//! - `front`: what may stand before the envelope
//! - `fault`: why a text is not read
//! - `laws`: what holds of the grammar itself
#![tactic(auto)]

mod document;
mod elements;
mod fault;
mod front;
pub mod laws;
mod lexical;
mod raw;
mod skipping;
mod tag;
mod tags;
mod value;

pub use document::read_requests;
pub use fault::ReadFault;
pub use raw::{Payload, RawRequest, RawRequests, RawSub, RawSubs};
pub use tag::{Attribute, Attributes, Name, Tag};
