// The elements of a package.
ghost use Rattle.std.specs.Prelude.{◌≡◌, [], filter};
ghost use Rattle.stream_objects.specs.Objects.{is_kind};
ghost use Rattle.data_elements.specs.Reading.{element_at, elements_from, package_at};
ghost use Rattle.data_elements.specs.Answers.{Gives, IsPackageResult, IsOnly};
ghost use Rattle.stream_objects.specs.declared.object_types.TheConstants.{DATA_ELEMENT};

use crate::body::read_body;
use crate::fault::{ElementFault, fault};
use crate::rows::{element_row, package_row};
use compact_values::{NoMemory, Seq};
use doc_model::limits::MOST_ELEMENTS;
use doc_model::{Element, Elements};
use std::alloc::Global;
use stream_objects::{Tree, object_types};

/// Reads one element, an object of type 01 (hexadecimal; MS-FSSHTTPB 2.2.1.12.1) that was read from these bytes. Its serial
/// number is dropped. `SchemaFault` comes as for packages.
#[tactic(auto, unfolding(crate::specs::Reading::element_at))]
pub fn read_element(alloc: Global, bytes: &[u8], tree: &Tree) -> Result<Element, ElementFault>
    ensures { Gives result (element_at bytes.now tree.now) }
{
    let Some((id, (_serial, kind))) = element_row(bytes, tree) else {
        return Err(fault(tree));
    };
    let body = read_body(alloc, bytes, kind, tree)?;
    Ok(Element { id, body })
}

/// The elements among these objects, in order.
fn read_elements(alloc: Global, bytes: &[u8], trees: &[Tree]) -> Result<Elements, ElementFault>
    ensures { Gives result (elements_from bytes.now [] (filter (is_kind DATA_ELEMENT) trees.now)) }
{
    let mut elements = Seq::new(alloc);
    for tree in trees {
        if tree.kind == object_types::DATA_ELEMENT {
            let element = read_element(alloc, bytes, tree)?;
            match elements.push(element) {
                Ok(()) => {}
                Err(NoMemory) => return Err(ElementFault::NoMemory),
            }
        }
    }
    Ok(elements)
}

#[tactic(auto, unfolding(crate::specs::Reading::package_at))]
fn read_all(alloc: Global, bytes: &[u8], tree: &Tree) -> Result<Elements, ElementFault>
    ensures { Gives result (package_at bytes.now tree.now) }
{
    match package_row(bytes, tree) {
        Some(_) => read_elements(alloc, bytes, tree.children.as_slice()),
        None => Err(fault(tree)),
    }
}

/// The elements of the package, if there are not too many.
fn read_some(alloc: Global, bytes: &[u8], tree: &Tree) -> Result<Elements, ElementFault>
    ensures { IsPackageResult bytes.now tree.now result }
{
    match read_all(alloc, bytes, tree) {
        Ok(elements) => {
            if elements.len() > MOST_ELEMENTS {
                return Err(ElementFault::TooMany);
            }
            Ok(elements)
        }
        Err(fault) => Err(fault),
    }
}

/// Reads the elements of a package, an object of type 15 (hexadecimal; MS-FSSHTTPB 2.2.1.12) that was read from these
/// bytes, in order. Children of an element may come in any order, and objects without a place in it are skipped. The
/// serial numbers of the elements are dropped.
///
/// `SchemaFault` exactly where an object of the package isn't in its form, with the place where its fields start, for the
/// first such object in reading order; else `TooMany` exactly where there are more than 8,192 elements. `NoMemory` may
/// come in place of any answer.
pub fn read_package(alloc: Global, bytes: &[u8], tree: &Tree) -> Result<Elements, ElementFault>
    // It is the elements of the package, or the refusal.
    ensures answer { IsPackageResult bytes.now tree.now result }
    // There is no other answer, unless memory runs out.
    ensures only { IsOnly (IsPackageResult bytes.now tree.now) result }
{
    read_some(alloc, bytes, tree)
}
