// Reading a sub-response.
ghost use Rattle.std.specs.Prelude.{◌≡◌};
ghost use Rattle.data_elements.specs.Answers.{Gives};
ghost use Rattle.doc_model.specs.readers.ResponseSites.{comes_first};
ghost use Rattle.doc_model.specs.wire.SeenResponses.{blank};
ghost use Rattle.wire_responses.specs.ResponseReading.{failed_at, answered_access_at, pulled_at, stored_at, drawn_at, sub_at};

use crate::reply::{check_access, fault, read_allocate, read_failure, read_known, read_query};
use crate::rows::{reply_form, sub_row};
use compact_values::{ExGuid, Guid, Seq};
use data_elements::ElementFault;
use doc_model::{Knowledge, ReplyForm, Seen};
use std::alloc::Global;
use stream_objects::{Tree, object_types, only_child};

// An answer without any part.
fn blank(alloc: Global, id: u64, kind: u64) -> Seen
    ensures { result ≡ blank id kind }
{
    Seen {
        id,
        kind,
        fault: None,
        guid: Guid { number: 0 },
        index: ExGuid::Null,
        knowledge: Knowledge {
            ranges: Seq::new(alloc),
        },
        least: 0,
        greatest: 0,
    }
}

// Whether an object of the one type stands before those of the other.
fn comes_first(trees: &[Tree], one: u16, other: u16) -> bool
    ensures { result ≡ comes_first one other trees.now }
{
    for tree in trees {
        if tree.kind == one {
            return true;
        }
        if tree.kind == other {
            return false;
        }
    }
    true
}

#[tactic(auto, unfolding(crate::specs::ResponseReading::failed_at))]
fn read_failed(
    alloc: Global,
    bytes: &[u8],
    tree: &Tree,
    id: u64,
    kind: u64,
) -> Result<Seen, ElementFault>
    ensures { Gives result (failed_at bytes.now tree.now id kind) }
{
    let Some(child) = only_child(tree, object_types::RESPONSE_ERROR) else {
        return Err(fault(tree));
    };
    let number = read_failure(bytes, child)?;
    let mut seen = blank(alloc, id, kind);
    seen.fault = Some(number);
    Ok(seen)
}

#[tactic(auto, unfolding(crate::specs::ResponseReading::answered_access_at))]
fn read_access(
    alloc: Global,
    bytes: &[u8],
    tree: &Tree,
    id: u64,
    kind: u64,
) -> Result<Seen, ElementFault>
    ensures { Gives result (answered_access_at bytes.now tree.now id kind) }
{
    let Some(read) = only_child(tree, object_types::READ_ACCESS_RESPONSE) else {
        return Err(fault(tree));
    };
    let Some(write) = only_child(tree, object_types::WRITE_ACCESS_RESPONSE) else {
        return Err(fault(tree));
    };
    if comes_first(
        tree.children.as_slice(),
        object_types::READ_ACCESS_RESPONSE,
        object_types::WRITE_ACCESS_RESPONSE,
    ) {
        check_access(bytes, read)?;
        check_access(bytes, write)?;
    } else {
        check_access(bytes, write)?;
        check_access(bytes, read)?;
    }
    Ok(blank(alloc, id, kind))
}

// The index and the knowledge of an answered query, the one that stands first read first.
#[tactic(auto, unfolding(crate::specs::ResponseReading::pulled_at))]
fn read_pulled(
    alloc: Global,
    bytes: &[u8],
    tree: &Tree,
    id: u64,
    kind: u64,
) -> Result<Seen, ElementFault>
    ensures { Gives result (pulled_at bytes.now tree.now id kind) }
{
    let Some(query) = only_child(tree, object_types::QUERY_CHANGES_RESPONSE) else {
        return Err(fault(tree));
    };
    let Some(known) = only_child(tree, object_types::KNOWLEDGE) else {
        return Err(fault(tree));
    };
    let mut seen = blank(alloc, id, kind);
    if comes_first(
        tree.children.as_slice(),
        object_types::QUERY_CHANGES_RESPONSE,
        object_types::KNOWLEDGE,
    ) {
        seen.index = read_query(bytes, query)?;
        seen.knowledge = read_known(alloc, bytes, known)?;
    } else {
        seen.knowledge = read_known(alloc, bytes, known)?;
        seen.index = read_query(bytes, query)?;
    }
    Ok(seen)
}

#[tactic(auto, unfolding(crate::specs::ResponseReading::stored_at))]
fn read_stored(
    alloc: Global,
    bytes: &[u8],
    tree: &Tree,
    id: u64,
    kind: u64,
) -> Result<Seen, ElementFault>
    ensures { Gives result (stored_at bytes.now tree.now id kind) }
{
    let Some(child) = only_child(tree, object_types::KNOWLEDGE) else {
        return Err(fault(tree));
    };
    let mut seen = blank(alloc, id, kind);
    seen.knowledge = read_known(alloc, bytes, child)?;
    Ok(seen)
}

#[tactic(auto, unfolding(crate::specs::ResponseReading::drawn_at))]
fn read_drawn(
    alloc: Global,
    bytes: &[u8],
    tree: &Tree,
    id: u64,
    kind: u64,
) -> Result<Seen, ElementFault>
    ensures { Gives result (drawn_at bytes.now tree.now id kind) }
{
    let Some(child) = only_child(tree, object_types::ALLOCATE_EXTENDED_GUID_RANGE_RESPONSE) else {
        return Err(fault(tree));
    };
    let (guid, (least, greatest)) = read_allocate(bytes, child)?;
    let mut seen = blank(alloc, id, kind);
    seen.guid = guid;
    seen.least = least;
    seen.greatest = greatest;
    Ok(seen)
}

/// What a sub-response says.
#[tactic(auto, unfolding(crate::specs::ResponseReading::sub_at))]
pub fn read_sub_response(alloc: Global, bytes: &[u8], tree: &Tree) -> Result<Seen, ElementFault>
    ensures { Gives result (sub_at bytes.now tree.now) }
{
    let Some((id, (kind, status))) = sub_row(bytes, tree) else {
        return Err(fault(tree));
    };
    match reply_form(kind, status) {
        Some(ReplyForm::Failed) => read_failed(alloc, bytes, tree, id, kind),
        Some(ReplyForm::Access) => read_access(alloc, bytes, tree, id, kind),
        Some(ReplyForm::Pulled) => read_pulled(alloc, bytes, tree, id, kind),
        Some(ReplyForm::Stored) => read_stored(alloc, bytes, tree, id, kind),
        Some(ReplyForm::Drawn) => read_drawn(alloc, bytes, tree, id, kind),
        None => Err(fault(tree)),
    }
}
