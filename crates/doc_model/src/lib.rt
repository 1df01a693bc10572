//! The document as plain data, what its calls do, and the forms that requests and responses have on the wire.
//!
//! The definitions stand in `specs/`; every crate above proves its code against them.
//!
//! - `doc`: the document, its versions and its incomplete uploads
//! - `element`: data elements and the objects in them
//! - `knowledge`: which elements a client knows
//! - `lock`: the lock of a document, and its steps
//! - `editor`: the editors of a document, and their steps
//! - `call`: what a call asks of a document
//! - `core_trait`: a document, however it is kept
//! - `copied`, `same`: copies of plain data, and exact comparison
//! - `laws`, `lock_laws`, `history_laws`: what holds of the definitions themselves
//! - `limits`: the limits of a document
//! - `request`: what a request asks for
//! - `element_rows`: the regular objects of elements as tuples of their fields
//! - `sizes`: how many bytes the values of a written element take
//! - `weighing`: how many bytes a written element takes
//! - `reply`: what became of a call
//! - `made`: the same with the disk's counts of faults round it
//! - `response`: what a client reads of a response
#![tactic(auto)]

mod call;
mod copied;
mod core_trait;
mod doc;
mod editor;
mod element;
mod element_rows;
pub mod history_laws;
mod knowledge;
pub mod laws;
pub mod limits;
mod lock;
pub mod lock_laws;
mod made;
mod reply;
mod request;
mod response;
mod same;
mod sizes;
mod weighing;

pub use call::{Call, Put, Sub};
pub use core_trait::{Core, Plan};
pub use doc::{Commit, Commits, Doc, Part, Parts};
pub use editor::{Editor, EditorStep, Editors, Entries, Entry};
pub use element::{
    Body, CellMap, CellMaps, Content, Element, Elements, ManifestMap, ManifestMaps, Name, Namings,
    Numbered, NumberedElement, Object, Objects, RevisionMap, RevisionMaps, RevisionRoot,
    RevisionRoots, Root, Roots,
};
pub use knowledge::{Knowledge, Range, Ranges};
pub use lock::{Coauthors, LockKind, LockRecord, LockStep, Member, Members};
pub use made::Made;
pub use reply::{Answer, Answers, Code, Reply, Submitted};
pub use request::{CellRequest, WireKind, WireSub, WireSubs};
pub use response::{CellResponse, ReplyForm, Seen, Seens};
pub use sizes::{
    cell_id_size, cells_size, compact_size, data_size, declaration_size, exguid_size, ids_size,
    item_size, serial_size, size_if_any_size, started_size,
};
pub use weighing::weight;
