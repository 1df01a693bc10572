//! The tests of turns on a board, by several threads.
//!
//! They stand apart from the crates that they test, so that their proof isn't another proof of those.
#![tactic(auto)]

#[cfg(test)]
mod board_tests;
