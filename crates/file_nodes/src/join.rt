//! The bytes of a file, joined from those of its objects.

ghost use Rattle.std.specs.Prelude.{◌≡◌, ◌++◌, IfOk, OnOk, map, slice_get};
ghost use Rattle.file_nodes.specs.Links.{has_bytes, filled, file_from};

use crate::links::Link;
use crate::object_map::StoredObject;
use crate::walks::Walked;
use compact_values::{NoMemory, Octets, Seq};
use std::alloc::Global;

/// Places, in order.
pub(crate) type Places = Seq<usize>;

// Whether the object at a place has a file with bytes.
fn has_bytes(table: &[Walked], place: usize) -> bool
    ensures { result ≡ has_bytes (slice_get table.now place) }
{
    match table.get(place) {
        Some(Ok(size)) => *size > 0,
        _ => false,
    }
}

// The places of an object's references that have bytes.
fn filled(alloc: Global, table: &[Walked], link: &Link) -> Result<Places, NoMemory>
    ensures { IfOk result (λ places. places ≡ filled table.now link.now) }
{
    let mut places = Seq::new(alloc);
    for place in link.places.as_slice() {
        if has_bytes(table, *place) {
            places.push(*place)?;
        }
    }
    Ok(places)
}

/// The places of each object's references that have bytes, so that the others aren't gone through again and again.
pub(crate) fn all_filled(
    alloc: Global,
    table: &[Walked],
    links: &[Link],
) -> Result<Seq<Places>, NoMemory>
    ensures { IfOk result (λ children. children ≡ map (filled table.now) links.now) }
{
    let mut children = Seq::new(alloc);
    for link in links {
        children.push(filled(alloc, table, link)?)?;
    }
    Ok(children)
}

/// Adds the file of the object at a place, from which so many levels go down.
pub(crate) fn append_file(
    out: &mut Octets,
    objects: &[StoredObject<'_>],
    children: &[Places],
    levels: usize,
    place: usize,
) -> Result<(), NoMemory>
    ensures { OnOk result (out.new ≡ out.old ++ file_from objects.now children.now levels place) }
{
    if levels == 0 {
        return Ok(());
    }
    let Some(object) = objects.get(place) else {
        return Ok(());
    };
    let Some(places) = children.get(place) else {
        return Ok(());
    };
    if object.references().is_empty() {
        return out.extend_from_slice(object.bytes());
    }
    for child in places.as_slice() {
        append_file(out, objects, children, levels - 1, *child)?;
    }
    Ok(())
}
