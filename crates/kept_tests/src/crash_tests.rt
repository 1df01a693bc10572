// What a crash after each call of the disk leaves, with any call of the disk failing.
use crate::test_documents::{call, create, is_answered, reopen, submit};
use doc_model::Sub;
use host_edge::MemDisk;
use std::alloc::Global;
use std::test::Fail;

/// How many changes a run has, and how many calls of the disk it has at most.
const CHANGES: usize = 3;

const MOST_CALLS: usize = 40;

/// The disk after a run, and how many of its changes were acknowledged.
#[derive(Drop)]
struct Left {
    disk: MemDisk,
    acknowledged: u64,
    last_answered: bool,
}

// A new document and so many changes of it, each of which draws one number.
fn run(alloc: Global, fail: &[u64], changes: usize) -> Option<Left> {
    let mut doc = create(alloc, fail)?;
    let draw = call(alloc, 7, Sub::Draw { count: 1 })?;
    let mut acknowledged = 0_u64;
    let mut last_answered = true;
    for _ in 0..changes {
        last_answered = is_answered(submit(alloc, &mut doc, 1, &draw));
        if last_answered {
            acknowledged = acknowledged.saturating_add(1);
        }
    }
    Some(Left {
        disk: doc.into_disk(),
        acknowledged,
        last_answered,
    })
}

// How many numbers were drawn of the document that these bytes are, None where they are none.
fn drawn(alloc: Global, image: &[u8]) -> Option<u64> {
    let doc = reopen(alloc, image).ok()?;
    Some(doc.copy(alloc).ok()?.drawn)
}

// Whether a crash after so many calls leaves a document with one of these numbers drawn, where so many bytes of the last write
// are there, and so many of each before it.
fn leaves(
    alloc: Global,
    disk: &MemDisk,
    calls: usize,
    parts: (usize, usize),
    least: u64,
    most: u64,
) -> bool {
    let mut landed = [parts.0; MOST_CALLS];
    if calls == 0 || calls > MOST_CALLS {
        return false;
    }
    landed[calls - 1] = parts.1;
    let Ok(image) = disk.left_by_crash(alloc, calls, &landed) else {
        return false;
    };
    match drawn(alloc, image.as_slice()) {
        Some(found) => least <= found && found <= most,
        None => false,
    }
}

// The same for each part of the writes that is tried.
fn each_leaves(alloc: Global, disk: &MemDisk, calls: usize, least: u64, most: u64) -> bool {
    for before in [0, 1000] {
        for last in [0, 9, 1000] {
            if !leaves(alloc, disk, calls, (before, last), least, most) {
                return false;
            }
        }
    }
    true
}

// Whether each image of a run with these calls failing is the document of the acknowledged changes, or of one more that was
// tried; and exactly that of the acknowledged ones where the last call was answered.
fn keeps(alloc: Global, fail: &[u64]) -> bool {
    for changes in 0..CHANGES {
        let (Some(before), Some(after)) = (run(alloc, fail, changes), run(alloc, fail, changes + 1))
        else {
            return false;
        };
        let (first, last) = (before.disk.calls().len(), after.disk.calls().len());
        for calls in first..last {
            if !each_leaves(
                alloc,
                &after.disk,
                calls,
                before.acknowledged,
                before.acknowledged.saturating_add(1),
            ) {
                return false;
            }
        }
        let spare = if after.last_answered { 0_u64 } else { 1 };
        let most = after.acknowledged.saturating_add(spare);
        if !each_leaves(alloc, &after.disk, last, after.acknowledged, most) {
            return false;
        }
    }
    true
}

#[test]
fn a_crash_leaves_what_was_acknowledged(rt: HostRuntime) -> Result<(), Fail> {
    let alloc = rt.alloc();
    assert!(rt; keeps(alloc, &[]));
    let created = run(alloc, &[], 0).ok_or("create")?.disk.calls().len() as u64;
    for fail in created..created + 12 {
        assert!(rt; keeps(alloc, &[fail]), "call {fail} fails");
        assert!(rt;
            keeps(alloc, &[fail, fail + 1]),
            "call {fail} fails, and the next"
        );
    }
    Ok(())
}
