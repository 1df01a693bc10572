//! What an envelope asks for (SOAP 1.1, MS-FSSHTTP 2.2.2 and 2.2.3), from its text.
//!
//! - `collection`: what an envelope asks for
//! - `outcome`: what became of a subrequest
//! - `fault`: why an envelope is refused
//! - `read`: reading an envelope
//! - `asked`: what a SubRequest asks, by its Type
//! - `locking`, `editing`: the request words of locks and of the table of editors
//! - `depending`: on which subrequest one depends
//! - `lookup`: attributes, and the GUIDs, numbers and flags that they write
//! - `number`: numbers from their digits
//! - `base`: base64 with white space
//! - `laws`: what holds of the definitions themselves
#![tactic(auto)]

mod asked;
mod base;
mod collection;
mod depending;
mod editing;
mod fault;
pub mod laws;
mod locking;
mod lookup;
mod number;
mod outcome;
mod read;

pub use collection::{Ask, Asks, Collection, Depend, DependWord, SubAsk, SubAsks, What};
pub use fault::EnvelopeFault;
pub use outcome::{CellWord, Outcome, Outcomes, Skip};
pub use read::{MOST_SUBS, read_envelope};
