//! The walks of all objects of a file, worked out once for each height.

ghost use Rattle.std.specs.Prelude.{◌≡◌, IfOk, length, map, slice_get};
ghost use Rattle.file_nodes.specs.FileWalks.{arrived, judged, walk};
ghost use Rattle.file_nodes.specs.Links.{link_of, total_by, node_by, walk_by};

use crate::fault::NodeFault;
use crate::links::Link;
use crate::object_map::StoredObject;
use compact_values::{ExGuid, NoMemory, Seq};
use std::alloc::Global;

/// How long a file is, or the first fault of the walk through it.
pub(crate) type Walked = Result<u64, NodeFault>;

/// How many objects a path may have below a root.
const BELOW: usize = 7;

// The walk of the object at a place, which an id refers to.
fn arrived(id: ExGuid, place: usize, table: &[Walked]) -> Walked
    ensures { result ≡ arrived id (slice_get table.now place) }
{
    match table.get(place) {
        Some(walked) => *walked,
        None => Err(NodeFault::Absent { object: id }),
    }
}

// How long the files of these ids are together.
fn total_by(table: &[Walked], ids: &[ExGuid], places: &[usize]) -> Result<u128, NodeFault>
    requires { length places.now ≡ length ids.now }
    ensures { result ≡ total_by table.now ids.now places.now }
{
    let mut sum: u128 = 0;
    for i in 0..ids.len() {
        let size = arrived(ids[i], places[i], table)?;
        sum += size as u128;
    }
    Ok(sum)
}

// An object with references is a node that says the length that was found.
fn judged(object: &StoredObject<'_>, said: Option<u64>, found: u128) -> Walked
    ensures { result ≡ judged object.now said found }
{
    match said {
        None => Err(NodeFault::NotANode {
            object: object.id(),
        }),
        Some(said) => {
            if said as u128 == found {
                Ok(said)
            } else {
                Err(NodeFault::SizeDiffers { said, found })
            }
        }
    }
}

/// The walk of a node, by the walks of one level less.
pub(crate) fn node_by(table: &[Walked], object: &StoredObject<'_>, link: &Link) -> Walked
    requires { length link.now.places ≡ length object.now.references }
    ensures { result ≡ node_by table.now object.now link.now }
{
    let found = total_by(table, object.references(), link.places.as_slice())?;
    judged(object, link.said, found)
}

// The walk of an object, by the walks of one level less.
fn walk_by(table: &[Walked], object: &StoredObject<'_>, link: &Link) -> Walked
    requires { length link.now.places ≡ length object.now.references }
    ensures { result ≡ walk_by table.now object.now link.now }
{
    if object.references().is_empty() {
        Ok(object.bytes().len() as u64)
    } else {
        node_by(table, object, link)
    }
}

// The walks of all objects, by those of one level less.
fn next_walks(
    alloc: Global,
    objects: &[StoredObject<'_>],
    links: &[Link],
    table: &[Walked],
) -> Result<Seq<Walked>, NoMemory>
    requires { links.now ≡ map (link_of objects.now) objects.now }
    ensures { IfOk result (λ walks. walks ≡ map (λ o. walk_by table.now o (link_of objects.now o)) objects.now) }
{
    let mut walks = Seq::new(alloc);
    for i in 0..objects.len() {
        walks.push(walk_by(table, &objects[i], &links[i]))?;
    }
    Ok(walks)
}

// The walks where no object may be met.
#[tactic(auto, unfolding(crate::specs::FileWalks::walk))]
fn no_walks(alloc: Global, objects: &[StoredObject<'_>]) -> Result<Seq<Walked>, NoMemory>
    ensures { IfOk result (λ walks. walks ≡ map (walk objects.now 0) objects.now) }
{
    let mut walks = Seq::new(alloc);
    for _object in objects {
        walks.push(Err(NodeFault::TooHigh))?;
    }
    Ok(walks)
}

/// The walks of all objects as references of a root.
pub(crate) fn walks_below(
    alloc: Global,
    objects: &[StoredObject<'_>],
    links: &[Link],
) -> Result<Seq<Walked>, NoMemory>
    requires { links.now ≡ map (link_of objects.now) objects.now }
    ensures { IfOk result (λ walks. walks ≡ map (walk objects.now 7) objects.now) }
{
    let mut walks = no_walks(alloc, objects)?;
    let mut height = 0;
    while height < BELOW {
        walks = next_walks(alloc, objects, links, walks.as_slice())?;
        height += 1;
    }
    Ok(walks)
}
