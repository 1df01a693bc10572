//! The tests of single values, and of headers and trees of stream objects.
//!
//! They stand apart from the crates that they test, so that their proof isn't another proof of those.
#![tactic(auto)]

#[cfg(test)]
mod tree_tests;
#[cfg(test)]
mod value_tests;
