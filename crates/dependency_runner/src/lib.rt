//! Whether a subrequest of an envelope is run, by those before it in its Request (MS-FSSHTTP 2.2.3, DependsOn and
//! DependencyType).
//!
//! - `state`: what is known of an earlier subrequest
//! - `deciding`: whether a subrequest is run
#![tactic(auto)]

mod deciding;
mod state;

pub use deciding::{Decision, decide};
pub use state::{Before, Befores, State, state_of};
