//! The tests of a document that is kept: what a crash at any call of its disk leaves, what is opened again, and what isn't.
//!
//! They stand apart from the crates that they test, so that their proof isn't another proof of those.
#![tactic(auto)]

#[cfg(test)]
mod crash_tests;
#[cfg(test)]
mod generated_calls;
#[cfg(test)]
mod large_tests;
#[cfg(test)]
mod opening_tests;
#[cfg(test)]
mod restart_tests;
#[cfg(test)]
mod test_documents;
