//! A file cut into the objects and data elements by which it is saved (MS-FSSHTTPD 2.4).

ghost use Rattle.std.specs.Prelude.{◌≡◌, ◌≤◌, length, IfOk, Some};
ghost use Rattle.doc_model.specs.rules.Files.{file};
ghost use Rattle.file_nodes.specs.Chunks.{chunked};

use crate::file_elements::file_elements;
use crate::file_objects::file_objects;
use compact_values::{ExGuid, Guid, NoMemory};
use doc_model::Elements;
use std::alloc::Global;

/// A file as data elements: the index from which it is reached, the elements in order of their ids, and how many ids they use.
#[derive(Debug, Drop, PartialEq, Eq)]
pub struct Chunked {
    pub index: ExGuid,
    pub elements: Elements,
    pub used: u32,
}

/// Cuts a file of at most 16 MiB into leaves of 65,536 bytes, with nodes above them of at most 64 references each, and puts them into
/// one group of one revision of one cell. The ids have the GUID and consecutive values from `first` on: storage index, storage
/// manifest, cell manifest, revision manifest, object group, revision, root node, the leaves in order, then the intermediate nodes.
pub fn chunk(alloc: Global, bytes: &[u8], guid: Guid, first: u32) -> Result<Chunked, NoMemory>
    requires short { length bytes.now ≤ 16777216 }
    requires positive { 1 ≤ first }
    requires room { first ≤ 4000000000 }
    ensures chunked { IfOk result (λ c. c ≡ chunked bytes.now guid first) }
    // From the index the elements have the file again.
    ensures file { IfOk result (λ c. file c.elements c.index ≡ Some bytes.now) }
{
    let objects = file_objects(alloc, bytes, guid, first + 6)?;
    let used = 6 + objects.len() as u32;
    let elements = file_elements(alloc, objects, guid, first)?;
    Ok(Chunked {
        index: ExGuid::Id { guid, value: first },
        elements,
        used,
    })
}
