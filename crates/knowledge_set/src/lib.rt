//! What a client knows of a document's elements, as a set of serial numbers: for each GUID ranges of values, in order and
//! as few as can be, so that a number is found among them by halving.
//!
//! - `set`: the set
//! - `joining`: a range put among ranges
//! - `laws`: a set has one such list of ranges
#![tactic(auto)]

mod joining;
pub mod laws;
mod set;

pub use set::KnowledgeSet;
