// The elements of a package with their serial numbers.
ghost use Rattle.std.specs.Prelude.{◌≡◌, [], filter};
ghost use Rattle.stream_objects.specs.Objects.{is_kind};
ghost use Rattle.data_elements.specs.NumberedReading.{numbered_at, numbered_from, numbered_package_at};
ghost use Rattle.data_elements.specs.Answers.{Gives, IsNumberedResult, IsOnly};
ghost use Rattle.stream_objects.specs.declared.object_types.TheConstants.{DATA_ELEMENT};

use crate::body::read_body;
use crate::fault::{ElementFault, fault};
use crate::rows::{element_row, package_row};
use compact_values::{NoMemory, Seq, Serial};
use doc_model::{Element, Numbered, NumberedElement};
use std::alloc::Global;
use stream_objects::{Tree, object_types};

/// An element with the value of its serial number.
#[tactic(auto, unfolding(crate::specs::NumberedReading::numbered_at))]
fn read_one(alloc: Global, bytes: &[u8], tree: &Tree) -> Result<NumberedElement, ElementFault>
    ensures { Gives result (numbered_at bytes.now tree.now) }
{
    let Some((id, (number, kind))) = element_row(bytes, tree) else {
        return Err(fault(tree));
    };
    let Serial::Number { guid: _, value } = number else {
        return Err(fault(tree));
    };
    let body = read_body(alloc, bytes, kind, tree)?;
    Ok(NumberedElement {
        serial: value,
        element: Element { id, body },
    })
}

/// The elements among these objects, in order.
fn read_each(alloc: Global, bytes: &[u8], trees: &[Tree]) -> Result<Numbered, ElementFault>
    ensures { Gives result (numbered_from bytes.now [] (filter (is_kind DATA_ELEMENT) trees.now)) }
{
    let mut elements = Seq::new(alloc);
    for tree in trees {
        if tree.kind == object_types::DATA_ELEMENT {
            let element = read_one(alloc, bytes, tree)?;
            match elements.push(element) {
                Ok(()) => {}
                Err(NoMemory) => return Err(ElementFault::NoMemory),
            }
        }
    }
    Ok(elements)
}

#[tactic(auto, unfolding(crate::specs::NumberedReading::numbered_package_at))]
fn read_all(alloc: Global, bytes: &[u8], tree: &Tree) -> Result<Numbered, ElementFault>
    ensures { Gives result (numbered_package_at bytes.now tree.now) }
{
    match package_row(bytes, tree) {
        Some(_) => read_each(alloc, bytes, tree.children.as_slice()),
        None => Err(fault(tree)),
    }
}

// From the reader on lists to the definition of the object: a step of its own, since both clauses of `read_numbered` follow
// from it.
fn read_whole(alloc: Global, bytes: &[u8], tree: &Tree) -> Result<Numbered, ElementFault>
    ensures { IsNumberedResult bytes.now tree.now result }
{
    read_all(alloc, bytes, tree)
}

/// Reads the elements of a package, an object of type 15 (hexadecimal; MS-FSSHTTPB 2.2.1.12) that was read from these bytes,
/// in order, with the values of their serial numbers. However many they are, they are read.
///
/// `SchemaFault` exactly where an object of the package isn't in its form, or an element's serial number is null, with the
/// place where its fields start, for the first such object in reading order. `NoMemory` may come in place of any answer.
/// `TooMany` never comes.
pub fn read_numbered(alloc: Global, bytes: &[u8], tree: &Tree) -> Result<Numbered, ElementFault>
    // It is the elements of the package, or the refusal.
    ensures answer { IsNumberedResult bytes.now tree.now result }
    // There is no other answer, unless memory runs out.
    ensures only { IsOnly (IsNumberedResult bytes.now tree.now) result }
{
    read_whole(alloc, bytes, tree)
}
