//! The tests of heads, bodies and answers of HTTP/1.1.
//!
//! They stand apart from the crates that they test, so that their proof isn't another proof of those.
#![tactic(auto)]

#[cfg(test)]
mod head_tests;
