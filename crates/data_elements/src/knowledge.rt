// Knowledge: the ranges of serial numbers that a client names.
ghost use Rattle.std.specs.Prelude.{◌≡◌, List, [], ◌∷◌, ◌++◌, Ok};
ghost use Rattle.stream_objects.specs.Gathering.{gather};
ghost use Rattle.doc_model.specs.readers.KnowledgeSites.{guid_row};
ghost use Rattle.data_elements.specs.Answers.{Gives, GivesTo, IsKnowledgeResult, IsOnly};
ghost use Rattle.data_elements.specs.KnowledgeReading.{range_row, entry_row, added_at, cells_at, specialized_at, knowledge_at};

use crate::fault::{ElementFault, fault};
use crate::rows::has_no_fields;
use compact_values::{Guid, NoMemory, Seq, Serial, take_compact, take_guid, take_serial};
use doc_model::{Knowledge, Range, Ranges};
use std::alloc::Global;
use stream_objects::{Tree, compound_fields, object_types, only_child, simple_fields};

/// The GUID of cell knowledge, 327a35f6-0761-4414-9686-51e900667a4d.
const CELL_KNOWLEDGE: u128 = 0x327a_35f6_0761_4414_9686_51e9_0066_7a4d;

/// The GUID that is all the fields of a compound object. None where they are something else.
pub fn guid_row(bytes: &[u8], tree: &Tree) -> Option<Guid>
    ensures { result ≡ guid_row bytes.now tree.now }
{
    let fields = compound_fields(bytes, tree)?;
    let (guid, rest) = take_guid(fields)?;
    if rest.is_empty() { Some(guid) } else { None }
}

fn range_row(bytes: &[u8], tree: &Tree) -> Option<Range>
    ensures { result ≡ range_row bytes.now tree.now }
{
    let fields = simple_fields(bytes, tree)?;
    let (guid, rest) = take_guid(fields)?;
    let (from, rest) = take_compact(rest)?;
    let (to, rest) = take_compact(rest)?;
    if rest.is_empty() {
        Some(Range { guid, from, to })
    } else {
        None
    }
}

fn entry_row(bytes: &[u8], tree: &Tree) -> Option<Serial>
    ensures { result ≡ entry_row bytes.now tree.now }
{
    let fields = simple_fields(bytes, tree)?;
    let (serial, rest) = take_serial(fields)?;
    if rest.is_empty() { Some(serial) } else { None }
}

fn add(ranges: &mut Ranges, range: Range) -> Result<(), ElementFault>
    ensures { GivesTo result ranges.new (Ok (ranges.old ++ range ∷ [])) }
{
    match ranges.push(range) {
        Ok(()) => Ok(()),
        Err(NoMemory) => Err(ElementFault::NoMemory),
    }
}

/// What a child of cell knowledge adds.
#[tactic(auto, unfolding(crate::specs::KnowledgeReading::added_at))]
fn read_added(bytes: &[u8], ranges: &mut Ranges, tree: &Tree) -> Result<(), ElementFault>
    ensures { GivesTo result ranges.new (added_at bytes.now ranges.old tree.now) }
{
    if tree.kind == object_types::CELL_KNOWLEDGE_RANGE {
        match range_row(bytes, tree) {
            Some(range) => add(ranges, range),
            None => Err(fault(tree)),
        }
    } else if tree.kind == object_types::CELL_KNOWLEDGE_ENTRY {
        match entry_row(bytes, tree) {
            Some(Serial::Number { guid, value }) => add(
                ranges,
                Range {
                    guid,
                    from: value,
                    to: value,
                },
            ),
            Some(Serial::Null) => Ok(()),
            None => Err(fault(tree)),
        }
    } else {
        Ok(())
    }
}

fn read_all_added(bytes: &[u8], ranges: &mut Ranges, trees: &[Tree]) -> Result<(), ElementFault>
    ensures { GivesTo result ranges.new (gather (added_at bytes.now) ranges.old trees.now) }
{
    for tree in trees {
        read_added(bytes, ranges, tree)?;
    }
    Ok(())
}

/// The ranges of cell knowledge.
#[tactic(auto, unfolding(crate::specs::KnowledgeReading::cells_at))]
fn read_cells(bytes: &[u8], ranges: &mut Ranges, tree: &Tree) -> Result<(), ElementFault>
    ensures { GivesTo result ranges.new (cells_at bytes.now ranges.old tree.now) }
{
    if has_no_fields(bytes, tree) {
        read_all_added(bytes, ranges, tree.children.as_slice())
    } else {
        Err(fault(tree))
    }
}

/// The ranges of specialized knowledge, which are none where it isn't that of cells.
#[tactic(auto, unfolding(crate::specs::KnowledgeReading::specialized_at))]
fn read_specialized(bytes: &[u8], ranges: &mut Ranges, tree: &Tree) -> Result<(), ElementFault>
    ensures { GivesTo result ranges.new (specialized_at bytes.now ranges.old tree.now) }
{
    if tree.kind != object_types::SPECIALIZED_KNOWLEDGE {
        return Ok(());
    }
    let Some(guid) = guid_row(bytes, tree) else {
        return Err(fault(tree));
    };
    if guid.number != CELL_KNOWLEDGE {
        return Ok(());
    }
    match only_child(tree, object_types::CELL_KNOWLEDGE) {
        Some(child) => read_cells(bytes, ranges, child),
        None => Err(fault(tree)),
    }
}

fn read_children(alloc: Global, bytes: &[u8], trees: &[Tree]) -> Result<Ranges, ElementFault>
    ensures { Gives result (gather (specialized_at bytes.now) [] trees.now) }
{
    let mut ranges = Seq::new(alloc);
    for tree in trees {
        read_specialized(bytes, &mut ranges, tree)?;
    }
    Ok(ranges)
}

#[tactic(auto, unfolding(crate::specs::KnowledgeReading::knowledge_at))]
fn read_ranges(alloc: Global, bytes: &[u8], tree: &Tree) -> Result<Ranges, ElementFault>
    ensures { Gives result (knowledge_at bytes.now tree.now) }
{
    if has_no_fields(bytes, tree) {
        read_children(alloc, bytes, tree.children.as_slice())
    } else {
        Err(fault(tree))
    }
}

// The ranges as knowledge, by the definition of the object: both clauses of `read_knowledge` follow from it.
fn read_whole(alloc: Global, bytes: &[u8], tree: &Tree) -> Result<Knowledge, ElementFault>
    ensures { IsKnowledgeResult bytes.now tree.now result }
{
    match read_ranges(alloc, bytes, tree) {
        Ok(ranges) => Ok(Knowledge { ranges }),
        Err(fault) => Err(fault),
    }
}

/// Reads knowledge, an object of type 10 (hexadecimal; MS-FSSHTTPB 2.2.1.13) that was read from these bytes: the ranges
/// and serial numbers of cell knowledge, in order, each serial number as a range of one. Specialized knowledge with
/// another GUID and objects without a place are skipped.
///
/// `SchemaFault` exactly where an object isn't in its form, with the place where its fields start, for the first such
/// object in reading order. `NoMemory` may come in place of any answer. `TooMany` never comes.
pub fn read_knowledge(alloc: Global, bytes: &[u8], tree: &Tree) -> Result<Knowledge, ElementFault>
    // It is the knowledge, or the refusal.
    ensures answer { IsKnowledgeResult bytes.now tree.now result }
    // There is no other answer, unless memory runs out.
    ensures only { IsOnly (IsKnowledgeResult bytes.now tree.now) result }
{
    read_whole(alloc, bytes, tree)
}
