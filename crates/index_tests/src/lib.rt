//! The tests of the index over a document: sets of serial numbers, and elements by serial number and by id.
//!
//! They stand apart from the crates that they test, so that their proof isn't another proof of those.
#![tactic(auto)]

#[cfg(test)]
mod knowledge_tests;
#[cfg(test)]
mod store_tests;
