//! Binary requests (MS-FSSHTTPB 2.2.2), read and written.
//!
//! - `request`: reading a request
//! - `subs`: reading its sub-requests
//! - `fields`: the fields of the objects in a sub-request
//! - `walk`: the first object of a type below another
//! - `front`: the versions and the signature in front of a request
//! - `fault`: the faults of objects in a request
//! - `write`: writing a request, for clients
//! - `laws`: what holds of requests themselves
#![tactic(auto)]

mod fault;
mod fields;
mod front;
pub mod laws;
mod request;
mod subs;
mod walk;
mod write;

pub use data_elements::WireFault;
pub use request::read_cell_request;
pub use write::write_cell_request;
