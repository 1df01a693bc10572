// Reading the sub-requests of a request.
ghost use Rattle.std.specs.Prelude.{◌≡◌, ◌∷◌, []};
ghost use Rattle.stream_objects.specs.Gathering.{gather};
ghost use Rattle.doc_model.specs.wire.Requests.{is_put, puts_in};
ghost use Rattle.wire_requests.specs.RequestAnswers.{Gives, GivesTo};
ghost use Rattle.wire_requests.specs.RequestReading.{knowledge_of, pull_at, put_fields_at, put_at, allocate_at, draw_at, what_at, sub_at, child_at};
ghost use Rattle.data_elements.specs.KnowledgeReading.{knowledge_at};

use crate::fault::{fault, wire_fault};
use crate::fields::{allocate_row, put_row, sub_row};
use crate::walk::first_below;
use compact_values::{NoMemory, Seq};
use data_elements::{WireFault, read_knowledge};
use doc_model::limits::{MOST_PUTS, MOST_SUB_REQUESTS};
use doc_model::{Knowledge, WireKind, WireSub, WireSubs};
use std::alloc::Global;
use stream_objects::{Tree, object_types, only_child};

// The knowledge that an object says.
fn read_known(alloc: Global, bytes: &[u8], tree: &Tree) -> Result<Knowledge, WireFault>
    ensures { Gives result (knowledge_of (knowledge_at bytes.now tree.now)) }
{
    match read_knowledge(alloc, bytes, tree) {
        Ok(knowledge) => Ok(knowledge),
        Err(fault) => Err(wire_fault(fault)),
    }
}

// A query: what the client knows.
#[tactic(auto, unfolding(crate::specs::RequestReading::pull_at))]
fn read_pull(alloc: Global, bytes: &[u8], tree: &Tree) -> Result<WireKind, WireFault>
    ensures { Gives result (pull_at bytes.now tree.now) }
{
    if only_child(tree, object_types::QUERY_CHANGES_REQUEST).is_none() {
        return Err(fault(tree));
    }
    match first_below(tree, object_types::KNOWLEDGE) {
        Some(found) => {
            let knowledge = read_known(alloc, bytes, found)?;
            Ok(WireKind::Pull { knowledge })
        }
        None => {
            let knowledge = Knowledge {
                ranges: Seq::new(alloc),
            };
            Ok(WireKind::Pull { knowledge })
        }
    }
}

// The fields of a put behind so many others.
#[tactic(auto, unfolding(crate::specs::RequestReading::put_fields_at))]
fn read_put_fields(bytes: &[u8], puts: usize, tree: &Tree) -> Result<WireKind, WireFault>
    ensures { Gives result (put_fields_at bytes.now puts tree.now) }
{
    if puts >= MOST_PUTS {
        return Err(fault(tree));
    }
    match put_row(bytes, tree) {
        Some((index, (expected, flags))) => Ok(WireKind::Put {
            index,
            expected,
            flags,
        }),
        None => Err(fault(tree)),
    }
}

// A put behind so many others.
#[tactic(auto, unfolding(crate::specs::RequestReading::put_at))]
fn read_put(bytes: &[u8], puts: usize, tree: &Tree) -> Result<WireKind, WireFault>
    ensures { Gives result (put_at bytes.now puts tree.now) }
{
    match only_child(tree, object_types::PUT_CHANGES_REQUEST) {
        Some(child) => read_put_fields(bytes, puts, child),
        None => Err(fault(tree)),
    }
}

// How many numbers are asked for.
#[tactic(auto, unfolding(crate::specs::RequestReading::allocate_at))]
fn read_allocate(bytes: &[u8], tree: &Tree) -> Result<WireKind, WireFault>
    ensures { Gives result (allocate_at bytes.now tree.now) }
{
    match allocate_row(bytes, tree) {
        Some((count, _flag)) => Ok(WireKind::Draw { count }),
        None => Err(fault(tree)),
    }
}

#[tactic(auto, unfolding(crate::specs::RequestReading::draw_at))]
fn read_draw(bytes: &[u8], tree: &Tree) -> Result<WireKind, WireFault>
    ensures { Gives result (draw_at bytes.now tree.now) }
{
    match only_child(tree, object_types::ALLOCATE_EXTENDED_GUID_RANGE_REQUEST) {
        Some(child) => read_allocate(bytes, child),
        None => Err(fault(tree)),
    }
}

// What a sub-request of this kind asks for, behind so many puts.
#[tactic(auto, unfolding(crate::specs::RequestReading::what_at))]
fn read_what(
    alloc: Global,
    bytes: &[u8],
    puts: usize,
    tree: &Tree,
    kind: u64,
) -> Result<WireKind, WireFault>
    ensures { Gives result (what_at bytes.now puts tree.now kind) }
{
    match kind {
        1 => Ok(WireKind::Access),
        2 => read_pull(alloc, bytes, tree),
        5 => read_put(bytes, puts, tree),
        11 => read_draw(bytes, tree),
        _ => Ok(WireKind::Unknown),
    }
}

// A sub-request behind so many others and puts.
#[tactic(auto, unfolding(crate::specs::RequestReading::sub_at))]
fn read_sub(
    alloc: Global,
    bytes: &[u8],
    count: usize,
    puts: usize,
    tree: &Tree,
) -> Result<WireSub, WireFault>
    ensures { Gives result (sub_at bytes.now count puts tree.now) }
{
    if count >= MOST_SUB_REQUESTS {
        return Err(fault(tree));
    }
    let Some((id, (kind, _priority))) = sub_row(bytes, tree) else {
        return Err(fault(tree));
    };
    let what = read_what(alloc, bytes, puts, tree, kind)?;
    Ok(WireSub { id, kind, what })
}

fn is_put(what: &WireKind) -> bool
    ensures { result ≡ is_put what.now }
{
    match what {
        WireKind::Put { .. } => true,
        WireKind::Access | WireKind::Pull { .. } | WireKind::Draw { .. } | WireKind::Unknown =>
            false,
    }
}

// How many of them are puts.
fn puts_in(subs: &[WireSub]) -> usize
    ensures { result ≡ puts_in subs.now }
{
    let mut count = 0_usize;
    for sub in subs {
        if is_put(&sub.what) {
            count += 1;
        }
    }
    count
}

// A child of a request, if it is a sub-request, behind those before.
#[tactic(auto, unfolding(crate::specs::RequestReading::child_at))]
fn read_child(
    alloc: Global,
    bytes: &[u8],
    subs: &mut WireSubs,
    tree: &Tree,
) -> Result<(), WireFault>
    ensures { GivesTo result subs.new (child_at bytes.now subs.old tree.now) }
{
    if tree.kind != object_types::SUB_REQUEST {
        return Ok(());
    }
    let puts = puts_in(subs.as_slice());
    let sub = read_sub(alloc, bytes, subs.len(), puts, tree)?;
    match subs.push(sub) {
        Ok(()) => Ok(()),
        Err(NoMemory) => Err(WireFault::NoMemory),
    }
}

/// The sub-requests among these children of a request, behind those before.
pub fn read_subs(
    alloc: Global,
    bytes: &[u8],
    subs: &mut WireSubs,
    trees: &[Tree],
) -> Result<(), WireFault>
    ensures { GivesTo result subs.new (gather (child_at bytes.now) subs.old trees.now) }
{
    for tree in trees {
        read_child(alloc, bytes, subs, tree)?;
    }
    Ok(())
}
