//! The tests of the bodies of changes.
//!
//! They stand apart from the crate that they test, so that their proof isn't another proof of it.
#![tactic(auto)]

#[cfg(test)]
mod body_tests;
#[cfg(test)]
mod large_tests;
#[cfg(test)]
mod refused_tests;
#[cfg(test)]
mod test_reading;
