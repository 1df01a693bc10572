//! The tests of what goes over the wire: elements, knowledge, requests and responses.
//!
//! They stand apart from the crates that they test, so that their proof isn't another proof of those.
#![tactic(auto)]

#[cfg(test)]
mod element_tests;
#[cfg(test)]
mod knowledge_tests;
#[cfg(test)]
mod request_tests;
#[cfg(test)]
mod response_tests;
#[cfg(test)]
mod test_bodies;
#[cfg(test)]
mod test_lists;
