// Hosts of documents on disks in memory, and calls on them. Each call is first seen to be one that may be made, so that no test
// has to prove it.
ghost use Rattle.std.specs.Prelude.{◌≡◌, ◌<◌, ◌≤◌, [], IsTrue, IfSome, length};
ghost use Rattle.change_record.specs.Changes.{IsShort};
ghost use Rattle.doc_host.specs.declared.limits.TheConstants.{MOST_PASSES};
ghost use Rattle.doc_host.specs.Views.{IsPassOf};
ghost use Rattle.host_tests.specs.Hosts.{IsPassTo};
ghost use Rattle.journaled_doc.specs.Docs.{history};

use change_record::limits::MOST_BODY;
use change_record::{can_move, is_valid, write_change};
use compact_values::{Guid, Text};
use doc_host::{Document, Host, Journaled, Pass};
use doc_model::{Call, Sub, Submitted};
use host_edge::MemDisk;
use journaled_doc::JournaledDoc;
use plain_core::PlainCore;
use std::alloc::Global;
use std::sync::Wait;

/// A document in memory whose changes are on a disk in memory.
pub type Kept = Document<PlainCore, MemDisk>;

/// The documents' GUID.
pub const G: Guid = Guid {
    number: 0x0011_2233_4455_6677_8899_aabb_ccdd_eeff,
};

/// When all calls are made.
const MOMENT: u64 = 1_000;

/// A new document, on a disk with room for so many bytes that are written, and for so many calls.
pub fn new_document(alloc: Global, room: usize, calls: usize) -> Option<Kept>
    ensures { IfSome result (λ d. history d.doc ≡ []) }
{
    let disk = MemDisk::new(alloc, room, calls, &[]).ok()?;
    let core = PlainCore::new(alloc, G).ok()?;
    match JournaledDoc::create(alloc, core, disk) {
        Ok(doc) => Some(Document::new(doc)),
        Err(_) => None,
    }
}

/// A host of one document, and its first pass.
pub fn host_of_one<J: Journaled>(alloc: Global, doc: J, seats: u32) -> Option<(Host<J>, Pass<J>)>
    requires opened { J.history doc ≡ [] }
    requires seats { (1 ≤ seats) × (seats ≤ MOST_PASSES) }
    ensures { IfSome result (λ r. IsPassTo 1 r.0 r.1) }
{
    let mut docs = Vec::with_capacity(alloc, 1).ok()?;
    docs.push_reserved(doc);
    Host::new(alloc, docs, seats).ok()
}

/// A host of two documents, and its first pass.
pub fn host_of_two<J: Journaled>(
    alloc: Global,
    first: J,
    second: J,
    seats: u32,
) -> Option<(Host<J>, Pass<J>)>
    requires opened { (J.history first ≡ []) × (J.history second ≡ []) }
    requires seats { (1 ≤ seats) × (seats ≤ MOST_PASSES) }
    ensures { IfSome result (λ r. IsPassTo 2 r.0 r.1) }
{
    let mut docs = Vec::with_capacity(alloc, 2).ok()?;
    docs.push_reserved(first);
    docs.push_reserved(second);
    Host::new(alloc, docs, seats).ok()
}

/// A pass with a number and half of the turns of this one. None where this one has no number to give.
pub fn split_off<J: Journaled>(alloc: Global, host: &Host<J>, pass: &mut Pass<J>) -> Option<Pass<J>>
    requires { IsPassOf host.now pass.old }
    ensures kept { IsPassOf host.now pass.new }
    ensures new { IfSome result (IsPassOf host.now) }
{
    if pass.free() == 0 {
        return None;
    }
    host.split_pass(alloc, pass).ok()
}

fn is_short(alloc: Global, call: &Call) -> bool
    ensures { IsTrue result → IsShort call.now }
{
    if !can_move(&call.sub) {
        return true;
    }
    match write_change(alloc, call) {
        Ok(body) => body.len() <= MOST_BODY,
        Err(_) => false,
    }
}

/// Makes a call of Anna's on a document. None where it may not be made, or the pass has no turn there.
pub fn submit<J: Journaled, R: Wait>(
    rt: &R,
    alloc: Global,
    host: &Host<J>,
    pass: &mut Pass<J>,
    doc: usize,
    sub: Sub,
) -> Option<Submitted>
    requires host { IsPassOf host.now pass.old }
    requires doc { doc < length host.now.boards.items }
    ensures { IsPassOf host.now pass.new }
{
    let call = Call {
        moment: MOMENT,
        user: Text::from_str(alloc, "anna").ok()?,
        sub,
    };
    if !is_valid(&call) || !is_short(alloc, &call) || pass.turns_left(doc) == 0 {
        return None;
    }
    Some(host.submit(rt, alloc, pass, doc, &call))
}
