//! The values that the binary format is made of, and the list type that plain data is made of.
//!
//! - `seq`: `Seq<T>`, the one list type, with `Octets`; exact comparison and copying
//! - `fault`: why no value could be had
//! - `text`: `Text`, a text seen as its characters, and `Names`
//! - `guid`: GUIDs, their 16 bytes and their texts
//! - `ids`: extended GUIDs, serial numbers, cell ids, and their lists
//! - `id_index`: a list of extended GUIDs that finds an id without looking through the list
//! - `span`: a part of the input
//! - `form`: numbers in fields whose low bits say in which form they are
//! - `numbers`: numbers as bytes, the least first
//! - `compact`: compact integers both ways
//! - `exguid`, `serial`: GUIDs, extended GUIDs and serial numbers both ways
//! - `cell_id`, `item`, `arrays`: cell ids, binary items and arrays both ways
//! - `take`: values from the front of bytes, each with what is behind it
//! - `laws`: what holds of the spellings themselves
#![tactic(auto)]

mod arrays;
mod cell_id;
mod compact;
mod exguid;
mod fault;
mod form;
mod guid;
mod id_index;
mod ids;
mod item;
pub mod laws;
mod numbers;
mod seq;
mod serial;
mod span;
mod take;
mod text;

pub use arrays::{read_cells, read_ids, write_cells, write_ids};
pub use cell_id::{read_cell_id, write_cell_id};
pub use compact::{read_compact, write_compact};
pub use exguid::{read_exguid, read_guid, write_exguid, write_guid};
pub use fault::{NoMemory, ValueFault};
pub use guid::{Guid, guid_bytes, guid_of, guid_of_text, guid_text};
pub use id_index::{IdIndex, IdKey, key_of};
pub use ids::{CellId, CellIds, ExGuid, Ids, Serial};
pub use item::{read_item, write_item};
pub use numbers::{append_low_bytes, number_of};
pub use seq::{Copied, Octets, Same, Seq};
pub use serial::{read_serial, write_serial};
pub use span::Span;
pub use take::{
    take_byte, take_cell_id, take_cells, take_compact, take_exguid, take_guid, take_ids, take_item,
    take_long, take_serial,
};
pub use text::{Names, Text};
