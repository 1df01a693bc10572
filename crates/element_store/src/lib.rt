//! The elements of a document, found by their serial numbers and by their ids. Room for elements can be taken before they
//! are added, so that adding them can't fail.
//!
//! - `store`: the elements
//! - `order`: the places of elements in the order of their ids, in which an id is found by halving
//! - `weights`: what an element weighs, as it is kept with it
#![tactic(auto)]

mod order;
mod store;
mod weights;

pub use store::{ElementStore, Serials};
