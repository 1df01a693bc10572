//! The tests of a document that is kept as its lists: each kind of call, and histories of calls.
//!
//! They stand apart from the crates that they test, so that their proof isn't another proof of those.
#![tactic(auto)]

#[cfg(test)]
mod editor_tests;
#[cfg(test)]
mod history_tests;
#[cfg(test)]
mod link_tests;
#[cfg(test)]
mod lock_tests;
#[cfg(test)]
mod plan_tests;
#[cfg(test)]
mod test_calls;
#[cfg(test)]
mod test_files;
#[cfg(test)]
mod test_table;
#[cfg(test)]
mod upload_tests;
#[cfg(test)]
mod version_tests;
