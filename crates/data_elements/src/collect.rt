// What the children of a type say.
ghost use Rattle.std.specs.Prelude.{◌≡◌, [], filter, Ok};
ghost use Rattle.stream_objects.specs.Objects.{is_kind, start_of, children_of};
ghost use Rattle.wire_kinds.specs.Row.{row_at};
ghost use Rattle.data_elements.specs.Checking.{collect_from, only, or_broken};
ghost use Rattle.data_elements.specs.Answers.{Gives};

use crate::fault::{ElementFault, fault};
use compact_values::{NoMemory, Octets, Seq};
use std::alloc::Global;
use stream_objects::{Tree, only_child};
use wire_kinds::{Decode, read_row};

/// What a child says. Where it isn't in its form, the fault of the object that holds it or of itself.
fn read<R: Decode>(
    alloc: Global,
    bytes: &[u8],
    child: &Tree,
    whole: &Tree,
) -> Result<R, ElementFault>
    ensures { Gives result (or_broken (start_of whole.now) (row_at R.takes bytes.now child.now)) }
{
    match read_row(alloc, bytes, child) {
        Ok(Some(value)) => Ok(value),
        Ok(None) => Err(fault(whole)),
        Err(NoMemory) => Err(ElementFault::NoMemory),
    }
}

/// What the objects of a type say, in order.
pub fn collect<R: Decode>(
    alloc: Global,
    bytes: &[u8],
    trees: &[Tree],
    kind: u16,
) -> Result<Seq<R>, ElementFault>
    ensures { Gives result (collect_from (row_at R.takes) bytes.now [] (filter (is_kind kind) trees.now)) }
{
    let mut values = Seq::new(alloc);
    for tree in trees {
        if tree.kind == kind {
            let value = read(alloc, bytes, tree, tree)?;
            match values.push(value) {
                Ok(()) => {}
                Err(NoMemory) => return Err(ElementFault::NoMemory),
            }
        }
    }
    Ok(values)
}

/// What the only child of a type says.
pub fn only<R: Decode>(
    alloc: Global,
    bytes: &[u8],
    tree: &Tree,
    kind: u16,
) -> Result<R, ElementFault>
    ensures { Gives result (only kind (row_at R.takes) bytes.now tree.now) }
{
    let Some(child) = only_child(tree, kind) else {
        return Err(fault(tree));
    };
    read(alloc, bytes, child, tree)
}

/// The bytes, as a list of their own.
pub fn own(alloc: Global, bytes: &[u8]) -> Result<Octets, ElementFault>
    ensures { Gives result (Ok bytes.now) }
{
    let mut octets = Seq::new(alloc);
    match octets.extend_from_slice(bytes) {
        Ok(()) => Ok(octets),
        Err(NoMemory) => Err(ElementFault::NoMemory),
    }
}
