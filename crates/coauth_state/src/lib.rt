//! The lock that the clients of one schema lock id share (MS-FSSHTTP 3.1.4.3 and 3.1.4.4), as a plan over the lock that a
//! document has.
//!
//! - `plan`: what a step does with a lock
//! - `live_lock`: the lock at a moment, and its coauthors
//! - `standing`: how a lock stands to an id
//! - `members`: the members of a shared lock
//! - `steps`: the steps, each on the live lock
//! - `shared_step`: a step on the lock as it is kept
#![tactic(auto)]

mod live_lock;
mod members;
mod plan;
mod shared_step;
mod standing;
mod steps;

pub use live_lock::{coauthors, live, status};
pub use members::one_member;
pub use plan::LockPlan;
pub use shared_step::{is_shared_step, shared};
pub use standing::Standing;
