//! One envelope is run and answered (MS-FSSHTTP 3.1.4): its calls on documents, one after the other, and its answer's text.
//!
//! - `runner`: takes a collection through its calls
//! - `progress`: how far a collection is
//! - `beginning`: how a subrequest begins
//! - `cell`: how far the binary request of a Cell is
//! - `asking`: the calls of binary sub-requests
//! - `opening`: the binary request that a Cell is
//! - `copying`: copies of what a subrequest asks
//! - `url`: the document of an address
//! - `laws`: what holds of the definitions themselves
#![tactic(auto)]

mod asking;
mod beginning;
mod cell;
mod copying;
pub mod laws;
mod opening;
mod progress;
mod runner;
mod url;

pub use runner::Runner;
