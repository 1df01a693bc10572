//! How long the file is that objects stand for.

ghost use Rattle.std.specs.Prelude.{◌≡◌, map, slice_get, Some, Ok, Err};
ghost use Rattle.file_nodes.specs.FileAnswers.{IsLengthResult, IsOrNoMemory};
ghost use Rattle.file_nodes.specs.Links.{link_of, below_table, node_length, length_answer};

use crate::fault::NodeFault;
use crate::links::{Link, links_of};
use crate::object_map::{ObjectMap, StoredObject};
use crate::places::{index_of, place_in};
use crate::walks::{Walked, node_by, walks_below};
use compact_values::ExGuid;
use doc_model::limits::MOST_FILE;
use std::alloc::Global;

/// How long the file of a root is, where `file_of` answers it, and the same fault where it doesn't. Nothing is joined for it.
pub fn file_length(alloc: Global, objects: &ObjectMap<'_>, root: &ExGuid) -> Result<u64, NodeFault>
    ensures { IsLengthResult objects.now root.now result }
{
    stored_length(alloc, objects.as_slice(), *root)
}

// The same as one function of the objects, if memory allows it.
fn stored_length(
    alloc: Global,
    objects: &[StoredObject<'_>],
    root: ExGuid,
) -> Result<u64, NodeFault>
    ensures { IsOrNoMemory result (length_answer objects.now root) }
{
    let Ok(index) = index_of(alloc, objects) else {
        return Err(NodeFault::NoMemory);
    };
    let place = place_in(&index, objects.len(), root);
    let Some(top) = objects.get(place) else {
        return Err(NodeFault::Absent { object: root });
    };
    if top.references().is_empty() {
        return Ok(0);
    }
    let Ok(links) = links_of(alloc, objects, &index) else {
        return Err(NodeFault::NoMemory);
    };
    length_of_node(alloc, objects, links.as_slice(), top, place)
}

// The length of the file of a root with references.
fn length_of_node(
    alloc: Global,
    objects: &[StoredObject<'_>],
    links: &[Link],
    top: &StoredObject<'_>,
    place: usize,
) -> Result<u64, NodeFault>
    requires top { slice_get objects.now place ≡ Some top.now }
    requires links { links.now ≡ map (link_of objects.now) objects.now }
    ensures { IsOrNoMemory result (node_length objects.now top.now) }
{
    let Ok(walks) = walks_below(alloc, objects, links) else {
        return Err(NodeFault::NoMemory);
    };
    let Some(link) = links.get(place) else {
        unreachable!()
    };
    let size = node_by(walks.as_slice(), top, link)?;
    if size > MOST_FILE {
        return Err(NodeFault::TooLarge);
    }
    Ok(size)
}
