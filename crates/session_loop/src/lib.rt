//! One connection (RFC 9112, 9.3): from the bytes of its requests to those of its answers, one after the other.
//!
//! - `want`: what a session wants next, and how it ends
//! - `stage`: how far a session is
//! - `session`: the session itself, without input or output: what it is told and given
//! - `input`: the bytes that came and are not used yet
//! - `reading`: heads and bodies of requests
//! - `running`: envelopes and files, by their calls
//! - `answering`: answers and refusals
//! - `user`: the user of a request
//! - `documents`: documents that are kept in memory alone
//! - `driving`: a session over a source, a sink, a clock and those documents
//! - `laws`: what holds of the definitions themselves
#![tactic(auto)]

mod answering;
mod documents;
mod driving;
mod input;
pub mod laws;
mod reading;
mod running;
mod session;
mod stage;
mod user;
mod want;

pub use documents::{CoreDoc, CoreDocs, LoneDocs};
pub use driving::drive_lone;
pub use session::{REQUEST_LIMIT, Session};
pub use stage::Stage;
pub use want::{SessionEnd, Want};
