//! The tests of envelopes that are run on documents: each with the whole text of its answer.
//!
//! They stand apart from the crates that they test, so that their proof isn't another proof of those.
#![tactic(auto)]

#[cfg(test)]
mod cell_tests;
#[cfg(test)]
mod depend_tests;
#[cfg(test)]
mod editor_tests;
#[cfg(test)]
mod fault_tests;
#[cfg(test)]
mod lock_tests;
#[cfg(test)]
mod request_tests;
#[cfg(test)]
mod test_documents;
#[cfg(test)]
mod test_envelopes;
#[cfg(test)]
mod test_host;
#[cfg(test)]
mod test_saves;
#[cfg(test)]
mod version_tests;
