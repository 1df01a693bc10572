//! Documents that threads share: each behind a board of its own, and passes with a seat at each.
//!
//! - `host`: documents behind boards, and the calls of passes on them
//! - `pass`: a right to make calls on each document of a host
//! - `document`: a document that is kept in a journal, as a host takes it
//! - `journaled`: what it owes to a host
//! - `laws`: what holds of all callers of a host together
//! - `limits`: how many documents and passes a host may have
//! - `shared`: a document as a board keeps it
//! - `turn`: one call, in a turn of its own
//! - `room`: the room in which the documents of a host come back
#![tactic(auto)]

mod document;
mod host;
mod journaled;
pub mod laws;
pub mod limits;
mod pass;
mod room;
mod shared;
mod turn;

pub use document::Document;
pub use host::Host;
pub use journaled::{Journaled, Opening};
pub use pass::Pass;
pub use shared::Shared;
