// Reading a response.
ghost use Rattle.std.specs.Prelude.{◌≡◌};
ghost use Rattle.doc_model.specs.wire.SeenResponses.{HasVersions, HasSignature};
ghost use Rattle.wire_responses.specs.ResponseAnswers.{IsResult, IsOnlyResult, GivesIn, GivesResponse, GivesFew};
ghost use Rattle.data_elements.specs.Answers.{Gives};
ghost use Rattle.data_elements.specs.NumberedReading.{numbered_package_at};
ghost use Rattle.data_elements.specs.Rows.{package_row};
ghost use Rattle.wire_responses.specs.ResponseReading.{child_at, children_at, is_zero, response_at};

use crate::front::{has_signature, has_versions};
use crate::reply::fault;
use crate::sub_response::read_sub_response;
use compact_values::{NoMemory, Seq};
use data_elements::{ElementFault, WireFault, package_row, read_numbered};
use doc_model::limits::MOST_ELEMENTS;
use doc_model::{CellResponse, Numbered};
use std::alloc::Global;
use stream_objects::{Tree, TreeFault, object_types, only_child, read_tree};

// The elements of a package, with the values of their serial numbers. `read_numbered` says which package that is; the reader
// of a response is a function on lists, and takes the elements by one.
fn read_elements(alloc: Global, bytes: &[u8], tree: &Tree) -> Result<Numbered, ElementFault>
    ensures { Gives result (numbered_package_at bytes.now tree.now) }
{
    read_numbered(alloc, bytes, tree)
}

// A child of a response, behind what was read before.
#[tactic(auto, unfolding(crate::specs::ResponseReading::child_at))]
fn read_child(
    alloc: Global,
    bytes: &[u8],
    response: &mut CellResponse,
    tree: &Tree,
) -> Result<(), ElementFault>
    ensures { GivesIn result response.new (child_at bytes.now response.old tree.now) }
{
    if tree.kind == object_types::SUB_RESPONSE {
        let seen = read_sub_response(alloc, bytes, tree)?;
        match response.answers.push(seen) {
            Ok(()) => Ok(()),
            Err(NoMemory) => Err(ElementFault::NoMemory),
        }
    } else if tree.kind == object_types::DATA_ELEMENT_PACKAGE {
        let elements = read_elements(alloc, bytes, tree)?;
        match response.elements.append(elements) {
            Ok(()) => Ok(()),
            Err(NoMemory) => Err(ElementFault::NoMemory),
        }
    } else {
        Ok(())
    }
}

// The children of a response, in order.
fn read_children(
    alloc: Global,
    bytes: &[u8],
    response: &mut CellResponse,
    trees: &[Tree],
) -> Result<(), ElementFault>
    ensures { GivesIn result response.new (children_at bytes.now trees.now response.old) }
{
    for tree in trees {
        read_child(alloc, bytes, response, tree)?;
    }
    Ok(())
}

// Whether the only field of a response is the byte 0.
fn has_zero_byte(bytes: &[u8], tree: &Tree) -> bool
    ensures { result ≡ is_zero (package_row bytes.now tree.now) }
{
    match package_row(bytes, tree) {
        Some(byte) => byte == 0,
        None => false,
    }
}

// The response that a tree is.
#[tactic(auto, unfolding(crate::specs::ResponseReading::response_at))]
fn read_tree_form(alloc: Global, bytes: &[u8], tree: &Tree) -> Result<CellResponse, ElementFault>
    ensures { GivesResponse result (response_at bytes.now tree.now) }
{
    if tree.kind == object_types::RESPONSE
        && has_zero_byte(bytes, tree)
        && only_child(tree, object_types::DATA_ELEMENT_PACKAGE).is_some()
    {
        let mut response = CellResponse {
            answers: Seq::new(alloc),
            elements: Seq::new(alloc),
        };
        read_children(alloc, bytes, &mut response, tree.children.as_slice())?;
        Ok(response)
    } else {
        Err(fault(tree))
    }
}

// The response that a tree is, if it hasn't too many elements.
fn read_form(alloc: Global, bytes: &[u8], tree: &Tree) -> Result<CellResponse, WireFault>
    ensures { GivesFew result (response_at bytes.now tree.now) }
{
    match read_tree_form(alloc, bytes, tree) {
        Ok(response) => {
            if response.elements.len() > MOST_ELEMENTS {
                return Err(WireFault::TooMany);
            }
            Ok(response)
        }
        Err(ElementFault::SchemaFault { place }) => Err(WireFault::SchemaFault { place }),
        Err(_) => Err(WireFault::NoMemory),
    }
}

// What follows the front.
fn read_behind(alloc: Global, bytes: &[u8]) -> Result<CellResponse, WireFault>
    requires versions { HasVersions bytes.now }
    requires signature { HasSignature bytes.now }
    ensures { IsResult bytes.now result }
{
    match read_tree(alloc, bytes, 12) {
        Ok((tree, next)) => {
            if next < bytes.len() {
                Err(WireFault::Extra { place: next })
            } else {
                read_form(alloc, bytes, &tree)
            }
        }
        Err(TreeFault::NoMemory) => Err(WireFault::NoMemory),
        Err(fault) => Err(WireFault::TreeFault { fault }),
    }
}

// The response that the bytes are read as, or why they are none.
fn find_response(alloc: Global, bytes: &[u8]) -> Result<CellResponse, WireFault>
    ensures { IsResult bytes.now result }
{
    if !has_versions(bytes) {
        return Err(WireFault::BadFront);
    }
    if !has_signature(bytes) {
        return Err(WireFault::BadSignature);
    }
    read_behind(alloc, bytes)
}

/// Reads a response (MS-FSSHTTPB 2.2.3): what its sub-responses say, in order, and the data elements that came with it, with
/// the values of their serial numbers.
///
/// `BadFront` exactly where there are fewer than 12 bytes or the first 4 are others; else `BadSignature` exactly where the
/// next 8 are; else `TreeFault` exactly where no tree follows; else `Extra` exactly where something follows it; else
/// `SchemaFault` exactly where an object isn't in its form, with the place where its fields start, for the first such object
/// in reading order; else `TooMany` exactly where there are more than 8,192 elements. `NoMemory` may come in place of any
/// answer. A response that says that the whole request failed is in no form here.
pub fn read_cell_response(alloc: Global, bytes: &[u8]) -> Result<CellResponse, WireFault>
    // It is the response that the bytes are read as, or the refusal with its cause.
    ensures answer { IsResult bytes.now result }
    // There is no other answer, unless memory runs out.
    ensures only { IsOnlyResult bytes.now result }
{
    find_response(alloc, bytes)
}
