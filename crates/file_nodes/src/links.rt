//! What each object of a file refers to, and the length that it says.

ghost use Rattle.std.specs.Prelude.{◌≡◌, IfOk, length, map};
ghost use Rattle.file_nodes.specs.Index.{IsIndex};
ghost use Rattle.file_nodes.specs.Links.{said_by, link_of};

use crate::node::node_size;
use crate::object_map::StoredObject;
use crate::places::{Index, places_in};
use compact_values::{NoMemory, Seq};
use std::alloc::Global;

/// The places of an object's references, and the data size that it says if it has some and is a node.
#[derive(Debug, Drop)]
pub(crate) struct Link {
    pub places: Seq<usize>,
    pub said: Option<u64>,
}

// The data size that an object with references says.
fn said_by(alloc: Global, object: &StoredObject<'_>) -> Result<Option<u64>, NoMemory>
    ensures { IfOk result (λ said. said ≡ said_by object.now) }
{
    if object.references().is_empty() {
        Ok(None)
    } else {
        node_size(alloc, object.bytes())
    }
}

// What an object among these refers to.
fn link_of(
    alloc: Global,
    objects: &[StoredObject<'_>],
    index: &Index,
    object: &StoredObject<'_>,
) -> Result<Link, NoMemory>
    requires { IsIndex objects.now index.now }
    ensures { IfOk result (λ link. link ≡ link_of objects.now object.now) }
{
    let places = places_in(alloc, index, objects.len(), object.references())?;
    let said = said_by(alloc, object)?;
    Ok(Link { places, said })
}

/// What each object refers to.
pub(crate) fn links_of(
    alloc: Global,
    objects: &[StoredObject<'_>],
    index: &Index,
) -> Result<Seq<Link>, NoMemory>
    requires { IsIndex objects.now index.now }
    ensures { IfOk result (λ links. links ≡ map (link_of objects.now) objects.now) }
{
    let mut links = Seq::new(alloc);
    for object in objects {
        links.push(link_of(alloc, objects, index, object)?)?;
    }
    Ok(links)
}
