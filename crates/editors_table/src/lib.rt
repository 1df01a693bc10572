//! The table of those who edit a document (MS-FSSHTTP 3.1.4.8): what a step does with it, what the step is answered, and
//! whether somebody edits alone.
//!
//! - `live`: the editors at a moment
//! - `plan`: what a step does with the table
//! - `entries`: the keys of an editor
//! - `editors`: the editor of a client among the live ones
//! - `steps`: the steps, each on the live editors
//! - `editor_step`: any step on the table as it is kept
//! - `editor_reply`: what a step is answered
#![tactic(auto)]

mod editor_reply;
mod editor_step;
mod editors;
mod entries;
mod live;
mod plan;
mod steps;

pub use editor_reply::reply;
pub use editor_step::step;
pub use live::is_alone;
pub use plan::EditorPlan;
