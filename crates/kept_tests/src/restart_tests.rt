// A crash at each call of the disk in a run of changes of every kind: what is opened is the replay of those that were
// acknowledged, with or without the one that was tried last.
use crate::generated_calls::{KINDS, generated, kind_of};
use crate::test_documents::{G, Kept, create_in, is_answered, make, reopen, submit};
use compact_values::Seq;
use doc_model::{Core, Doc};
use host_edge::{DiskCall, MemDisk};
use plain_core::PlainCore;
use std::alloc::Global;
use std::test::Fail;

/// How many changes the run has, and the first number that no call of it has.
const CHANGES: usize = 200;

const NUMBERS: u32 = 4_000;

/// The bytes that are written in the run, and the calls of its disk, at most.
const ROOM: usize = 1_048_576;

const CALLS: usize = 2_000;

/// The calls of the disk by which a document is created, and by which a change is kept.
const TO_CREATE: usize = 2;

const TO_KEEP: usize = 4;

/// How many of the first bytes of a write that wasn't synced are there.
const LANDED: &[usize] = &[0, 20, ROOM];

/// The numbers of the calls that moved the document in a run, and its disk.
#[derive(Drop)]
struct Changed {
    moved: Seq<u32>,
    disk: MemDisk,
}

// Makes the call with this number, and tells whether it moved the document.
fn moves(alloc: Global, doc: &mut Kept, number: u32) -> Option<bool> {
    let before = doc.count();
    let call = generated(alloc, number)?;
    if !is_answered(submit(alloc, doc, 1, &call)) {
        return None;
    }
    Some(doc.count() > before)
}

fn run(alloc: Global) -> Option<Changed> {
    let mut doc = create_in(alloc, ROOM, CALLS, &[])?;
    let mut moved = Seq::new(alloc);
    for number in 0..NUMBERS {
        if moved.len() < CHANGES && moves(alloc, &mut doc, number)? {
            moved.push(number).ok()?;
        }
    }
    Some(Changed {
        moved,
        disk: doc.into_disk(),
    })
}

// The first kind of calls that isn't among those with these numbers.
fn missing(numbers: &[u32]) -> Option<u32> {
    for kind in 0..KINDS {
        if !numbers.iter().any(|number| kind_of(*number) == kind) {
            return Some(kind);
        }
    }
    None
}

fn is_either(alloc: Global, image: &[u8], before: &Doc, after: &Doc) -> bool {
    match reopen(alloc, image) {
        Ok(doc) => match doc.copy(alloc) {
            Ok(found) => found == *before || found == *after,
            Err(_) => false,
        },
        Err(_) => false,
    }
}

// What a crash may leave of the last of so many calls. What was synced is there.
fn parts(disk: &MemDisk, calls: usize) -> &'static [usize] {
    match disk.calls().get(calls.saturating_sub(1)) {
        Some(DiskCall::Write { .. }) => LANDED,
        _ => &[0],
    }
}

// Whether a crash after so many calls leaves one of these documents, whatever is there of the write that came last.
fn leaves(alloc: Global, disk: &MemDisk, calls: usize, before: &Doc, after: &Doc) -> bool {
    for part in parts(disk, calls) {
        let mut landed = Seq::new(alloc);
        for _ in 1..calls {
            if landed.push(0).is_err() {
                return false;
            }
        }
        if landed.push(*part).is_err() {
            return false;
        }
        match disk.left_by_crash(alloc, calls, landed.as_slice()) {
            Ok(image) => {
                if !is_either(alloc, image.as_slice(), before, after) {
                    return false;
                }
            }
            Err(_) => return false,
        }
    }
    true
}

// The same after each of the calls by which one change is kept. After the last of them the change is there.
fn each_leaves(alloc: Global, disk: &MemDisk, first: usize, before: &Doc, after: &Doc) -> bool {
    for calls in 1..TO_KEEP {
        if !leaves(alloc, disk, first.saturating_add(calls), before, after) {
            return false;
        }
    }
    leaves(alloc, disk, first.saturating_add(TO_KEEP), after, after)
}

#[test]
fn a_crash_at_any_call_leaves_the_acknowledged_changes(rt: HostRuntime) -> Result<(), Fail> {
    let alloc = rt.alloc();
    let run = run(alloc).ok_or("run")?;
    assert!(rt; run.moved.len() == CHANGES);
    assert_eq!(rt; missing(run.moved.as_slice()), None);
    assert!(rt; run.disk.calls().len() == TO_CREATE + CHANGES * TO_KEEP);
    let mut core = PlainCore::new(alloc, G)?;
    let mut before = core.copy(alloc)?;
    let mut first = TO_CREATE;
    for number in run.moved.as_slice() {
        let call = generated(alloc, *number).ok_or("call")?;
        assert!(rt; make(&mut core, &call), "call {number}");
        let after = core.copy(alloc)?;
        assert!(rt;
            each_leaves(alloc, &run.disk, first, &before, &after),
            "call {number}"
        );
        before = after;
        first = first.saturating_add(TO_KEEP);
    }
    Ok(())
}
