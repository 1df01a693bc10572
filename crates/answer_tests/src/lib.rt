//! The tests of answers to envelopes.
//!
//! They stand apart from the crate that they test, so that their proof isn't another proof of it.
#![tactic(auto)]

#[cfg(test)]
mod large_tests;
#[cfg(test)]
mod row_tests;
#[cfg(test)]
mod test_answers;
#[cfg(test)]
mod word_tests;
