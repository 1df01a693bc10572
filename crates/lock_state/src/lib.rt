//! The lock of a document (MS-FSSHTTP 3.1.4.3 to 3.1.4.5): what a step does with it, what the step is answered, and whether
//! the lock lets content be changed.
//!
//! - `exclusive`: the steps of an exclusive lock, each on the live lock
//! - `lock_step`: any step on the lock as it is kept
//! - `lock_reply`: what a step is answered
//! - `allowing`: whether a call may change content
#![tactic(auto)]

mod allowing;
mod exclusive;
mod lock_reply;
mod lock_step;

pub use allowing::allows;
pub use coauth_state::LockPlan;
pub use lock_reply::reply;
pub use lock_step::step;
