//! The tests of a document and its parts: weights, files, shared locks and editors.
//!
//! They stand apart from the crates that they test, so that their proof isn't another proof of those.
#![tactic(auto)]

#[cfg(test)]
mod coauthor_tests;
#[cfg(test)]
mod editor_tests;
#[cfg(test)]
mod file_tests;
#[cfg(test)]
mod node_tests;
#[cfg(test)]
mod weight_tests;
