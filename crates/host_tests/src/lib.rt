//! Calls of several passes of one host, side by side: that documents of any kind may be shared between threads, what two calls
//! together promise, and what is made of one document by many.
//!
//! They stand apart from the crate that they test, so that their proof isn't another proof of it.
//!
//! - `side_by_side`: two calls, each in a thread of its own
//! - `replies`: whether what callers were told can have been told by one thread
//! - `test_hosts`: hosts of documents on disks in memory, and calls on them
//! - `many_tests`: four threads on one document, many times
//! - `saving_tests`: two threads that save and lock, and read what they save
//! - `apart_tests`: a call under way, and calls on another document
#![tactic(auto)]

#[cfg(test)]
mod apart_tests;
#[cfg(test)]
mod many_tests;
#[cfg(test)]
mod replies;
#[cfg(test)]
mod saving_tests;
mod side_by_side;
#[cfg(test)]
mod test_hosts;

pub use side_by_side::{submit_in_two_threads, submit_side_by_side};
