//! The file that objects stand for.

ghost use Rattle.std.specs.Prelude.{◌≡◌, ℕ, List, map, slice_get, Some, Ok, Err, IfOk};
ghost use Rattle.compact_values.specs.declared.ids.ExGuid.{ExGuid};
ghost use Rattle.file_nodes.specs.FileWalks.{first_fault};
ghost use Rattle.file_nodes.specs.FileAnswers.{IsFile, IsTooLarge, IsOrNoMemory, Exactly};
ghost use Rattle.file_nodes.specs.Links.{link_of, filled, file_from, node_answer, file_answer};
ghost use Rattle.file_nodes.specs.declared.fault.NodeFault.TheVariants as faults;

use crate::fault::NodeFault;
use crate::join::{all_filled, append_file};
use crate::links::{Link, links_of};
use crate::object_map::{ObjectMap, StoredObject};
use crate::places::{index_of, place_in};
use crate::walks::{Walked, node_by, walks_below};
use compact_values::{ExGuid, NoMemory, Octets};
use doc_model::limits::{MOST_FILE, MOST_HIGH};
use std::alloc::Global;

/// The file of a root: empty without references, else that of a node. The file of another object without references
/// is its bytes; an object with references is a node (MS-FSSHTTPD 2.2), and its file is that of its references, joined in
/// order, which is as long as the node says. No path from the root down has more than 8 objects.
///
/// The objects are walked in file order, and the first fault is answered: on arrival at an object `Absent` or `TooHigh`,
/// after its references `NotANode` or `SizeDiffers`. `TooLarge` comes exactly where there is no such fault and the file has
/// more than 16 MiB. The length of each object is worked out once for each height, so that an object to which many refer
/// isn't walked many times.
pub fn file_of(alloc: Global, objects: &ObjectMap<'_>, root: &ExGuid) -> Result<Octets, NodeFault>
    // Ok comes exactly with the file, where it is there and isn't too large.
    ensures file { (file : List ℕ) → Exactly result (Ok file) (IsFile objects.now root.now file) }
    ensures too_large { Exactly result (Err faults.TooLarge) (IsTooLarge objects.now root.now) }
    // Each other fault comes exactly where it is the first of the walk.
    ensures absent { (id : ExGuid) → Exactly result (Err (faults.Absent id)) (first_fault objects.now root.now ≡ Some (faults.Absent id)) }
    ensures too_high { Exactly result (Err faults.TooHigh) (first_fault objects.now root.now ≡ Some faults.TooHigh) }
    ensures not_a_node { (id : ExGuid) → Exactly result (Err (faults.NotANode id)) (first_fault objects.now root.now ≡ Some (faults.NotANode id)) }
    ensures size_differs { (said found : ℕ) → Exactly result (Err (faults.SizeDiffers said found)) (first_fault objects.now root.now ≡ Some (faults.SizeDiffers said found)) }
{
    stored_file(alloc, objects.as_slice(), *root)
}

// The same as one function of the objects, if memory allows it.
fn stored_file(
    alloc: Global,
    objects: &[StoredObject<'_>],
    root: ExGuid,
) -> Result<Octets, NodeFault>
    ensures { IsOrNoMemory result (file_answer objects.now root) }
{
    let Ok(index) = index_of(alloc, objects) else {
        return Err(NodeFault::NoMemory);
    };
    let place = place_in(&index, objects.len(), root);
    let Some(top) = objects.get(place) else {
        return Err(NodeFault::Absent { object: root });
    };
    if top.references().is_empty() {
        return Ok(Octets::new(alloc));
    }
    let Ok(links) = links_of(alloc, objects, &index) else {
        return Err(NodeFault::NoMemory);
    };
    file_of_node(alloc, objects, links.as_slice(), top, place)
}

// The file of a root with references.
fn file_of_node(
    alloc: Global,
    objects: &[StoredObject<'_>],
    links: &[Link],
    top: &StoredObject<'_>,
    place: usize,
) -> Result<Octets, NodeFault>
    requires top { slice_get objects.now place ≡ Some top.now }
    requires links { links.now ≡ map (link_of objects.now) objects.now }
    ensures { IsOrNoMemory result (node_answer objects.now place top.now) }
{
    let Ok(walks) = walks_below(alloc, objects, links) else {
        return Err(NodeFault::NoMemory);
    };
    let Some(link) = links.get(place) else {
        unreachable!()
    };
    let size = node_by(walks.as_slice(), top, link)?;
    if size > MOST_FILE {
        return Err(NodeFault::TooLarge);
    }
    match joined(alloc, objects, links, walks.as_slice(), place) {
        Ok(file) => Ok(file),
        Err(NoMemory) => Err(NodeFault::NoMemory),
    }
}

// The file of the object at a place, joined.
fn joined(
    alloc: Global,
    objects: &[StoredObject<'_>],
    links: &[Link],
    walks: &[Walked],
    place: usize,
) -> Result<Octets, NoMemory>
    ensures { IfOk result (λ file. file ≡ file_from objects.now (map (filled walks.now) links.now) 8 place) }
{
    let children = all_filled(alloc, walks, links)?;
    let mut file = Octets::new(alloc);
    append_file(&mut file, objects, children.as_slice(), MOST_HIGH, place)?;
    Ok(file)
}
