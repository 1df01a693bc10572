//! The tests of sessions.
//!
//! They stand apart from the crate that they test, so that their proof isn't another proof of it.
#![tactic(auto)]

#[cfg(test)]
mod end_tests;
#[cfg(test)]
mod envelope_tests;
#[cfg(test)]
mod refusal_tests;
#[cfg(test)]
mod test_driver;
#[cfg(test)]
mod test_texts;
