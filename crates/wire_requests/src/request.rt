// Reading a request.
ghost use Rattle.std.specs.Prelude.{◌≡◌, [], option_map};
ghost use Rattle.doc_model.specs.wire.Fronts.{HasVersions, HasSignature};
ghost use Rattle.data_elements.specs.Reading.{package_at};
ghost use Rattle.wire_requests.specs.RequestAnswers.{IsResult, IsOnlyResult, GivesElements, GivesRequest};
ghost use Rattle.wire_requests.specs.RequestOf.{Computes, request_of};
ghost use Rattle.wire_requests.specs.RequestReading.{split, parts_at, request_at};

use crate::fault::{fault, wire_fault};
use crate::front::{has_signature, has_versions};
use crate::subs::read_subs;
use compact_values::Seq;
use data_elements::{WireFault, read_package};
use doc_model::{CellRequest, Elements};
use std::alloc::Global;
use stream_objects::{Tree, TreeFault, object_types, only_child, read_tree};

// The objects before the package, the package, and the objects behind it.
fn split(trees: &[Tree]) -> Option<(&[Tree], (&Tree, &[Tree]))>
    ensures { option_map (λ x. (x.0.now, (x.1.0.now, x.1.1.now))) result ≡ split trees.now }
{
    for at in 0..trees.len() {
        if trees[at].kind == object_types::DATA_ELEMENT_PACKAGE {
            return Some((&trees[..at], (&trees[at], &trees[at + 1..])));
        }
    }
    None
}

// The elements of a package, if there are not too many.
fn read_elements(alloc: Global, bytes: &[u8], tree: &Tree) -> Result<Elements, WireFault>
    ensures { GivesElements result (package_at bytes.now tree.now) }
{
    match read_package(alloc, bytes, tree) {
        Ok(elements) => Ok(elements),
        Err(fault) => Err(wire_fault(fault)),
    }
}

// The request whose package stands between these objects. That there are too many elements is told last.
fn read_parts(
    alloc: Global,
    bytes: &[u8],
    before: &[Tree],
    package_object: &Tree,
    behind: &[Tree],
) -> Result<CellRequest, WireFault>
    ensures { GivesRequest result (parts_at bytes.now before.now package_object.now behind.now) }
{
    let mut subs = Seq::new(alloc);
    read_subs(alloc, bytes, &mut subs, before)?;
    match read_elements(alloc, bytes, package_object) {
        Ok(elements) => {
            read_subs(alloc, bytes, &mut subs, behind)?;
            Ok(CellRequest { subs, elements })
        }
        Err(WireFault::TooMany) => {
            read_subs(alloc, bytes, &mut subs, behind)?;
            Err(WireFault::TooMany)
        }
        Err(fault) => Err(fault),
    }
}

// The request that a tree is.
#[tactic(auto, unfolding(crate::specs::RequestReading::request_at))]
fn read_form(alloc: Global, bytes: &[u8], tree: &Tree) -> Result<CellRequest, WireFault>
    ensures { GivesRequest result (request_at bytes.now tree.now) }
{
    if tree.kind != object_types::REQUEST
        || !tree.compound
        || only_child(tree, object_types::DATA_ELEMENT_PACKAGE).is_none()
    {
        return Err(fault(tree));
    }
    match split(tree.children.as_slice()) {
        Some((before, (package_object, behind))) => read_parts(
            alloc,
            bytes,
            before,
            package_object,
            behind,
        ),
        None => Err(fault(tree)),
    }
}

// What follows the front.
fn read_behind(alloc: Global, bytes: &[u8]) -> Result<CellRequest, WireFault>
    requires versions { HasVersions bytes.now }
    requires signature { HasSignature bytes.now }
    ensures { IsResult bytes.now result }
{
    match read_tree(alloc, bytes, 12) {
        Ok((tree, next)) => {
            if next < bytes.len() {
                Err(WireFault::Extra { place: next })
            } else {
                read_form(alloc, bytes, &tree)
            }
        }
        Err(TreeFault::NoMemory) => Err(WireFault::NoMemory),
        Err(fault) => Err(WireFault::TreeFault { fault }),
    }
}

// The request, or why the bytes are none.
fn find_request(alloc: Global, bytes: &[u8]) -> Result<CellRequest, WireFault>
    ensures { IsResult bytes.now result }
{
    if !has_versions(bytes) {
        return Err(WireFault::BadFront);
    }
    if !has_signature(bytes) {
        return Err(WireFault::BadSignature);
    }
    read_behind(alloc, bytes)
}

/// Reads a request (MS-FSSHTTPB 2.2.2): its sub-requests, at most 64 and among them at most 4 puts, and the elements of
/// its package. Objects without a place in it are skipped, and the serial numbers of the elements are dropped.
///
/// Each refusal comes exactly by its cause, of several causes the first: `BadFront`, `BadSignature`, `TreeFault`, `Extra`
/// for bytes behind the request, `SchemaFault` for the first object in reading order that isn't in its form, as the 65th
/// sub-request and the fields of the fifth put, and `TooMany` for more than 8,192 elements. `NoMemory` may come in place
/// of any answer.
pub fn read_cell_request(alloc: Global, bytes: &[u8]) -> Result<CellRequest, WireFault>
    // It is the request that the bytes are, or the refusal with its cause.
    ensures answer { IsResult bytes.now result }
    // There is no other answer, unless memory runs out.
    ensures only { IsOnlyResult bytes.now result }
    // The reading on lists gives the same.
    ensures computed { Computes result (request_of bytes.now) }
{
    find_request(alloc, bytes)
}
