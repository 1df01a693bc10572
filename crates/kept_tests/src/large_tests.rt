// A journal of 100,000 small changes: its bytes, the bodies that are read from them, the document that is opened, and the same
// calls on a document that isn't kept. What each takes stands in docs/PERFORMANCE.md.
use crate::test_documents::{G, call, create, disk_of, make, reopen};
use cell_journal::{Got, Reading};
use change_record::{can_move, write_change};
use compact_values::{NoMemory, Octets};
use doc_model::{Call, Core, Sub};
use plain_core::PlainCore;
use std::alloc::Global;
use std::test::Fail;

/// How many changes the journal has, each of which draws one number.
const CHANGES: u64 = 100_000;

const OPEN: u8 = 1;

const CLOSED: u8 = 0;

/// Where the first gate stands.
const FRONT: usize = 24;

fn draw(alloc: Global) -> Option<Call> {
    call(alloc, 7, Sub::Draw { count: 1 })
}

fn body(alloc: Global) -> Option<Octets> {
    let call = draw(alloc)?;
    if !can_move(&call.sub) {
        return None;
    }
    write_change(alloc, &call).ok()
}

// The bytes of a journal without bodies.
fn empty(alloc: Global) -> Option<Octets> {
    let doc = create(alloc, &[])?;
    let disk = doc.into_disk();
    disk.left_by_crash(alloc, disk.calls().len(), &[]).ok()
}

// The bytes of the journal.
fn journal(alloc: Global) -> Result<Octets, NoMemory> {
    let body = body(alloc).ok_or(NoMemory)?;
    let mut out = empty(alloc).ok_or(NoMemory)?;
    out.truncate(FRONT);
    for _ in 0..CHANGES {
        out.push(OPEN)?;
        out.extend_from_slice(&(body.len() as u64).to_le_bytes())?;
        out.extend_from_slice(body.as_slice())?;
    }
    out.push(CLOSED)?;
    Ok(out)
}

// How many bodies a journal has.
fn bodies(alloc: Global, image: &[u8]) -> Option<u64> {
    let mut reading = match Reading::begin(disk_of(alloc, image).ok()?) {
        Ok(reading) => reading,
        Err((_, _)) => return None,
    };
    let mut body = Octets::new(alloc);
    let mut found = 0_u64;
    for _ in 0..CHANGES {
        match reading.next(&mut body) {
            Ok(Got::Body) => found = found.saturating_add(1),
            _ => return None,
        }
    }
    Some(found)
}

#[test]
fn the_bytes_of_many_changes_are_made(rt: HostRuntime) -> Result<(), Fail> {
    let image = journal(rt.alloc())?;
    assert!(rt; image.as_slice().last() == Some(&CLOSED));
    Ok(())
}

#[test]
fn the_bodies_of_many_changes_are_read(rt: HostRuntime) -> Result<(), Fail> {
    let alloc = rt.alloc();
    let image = journal(alloc)?;
    assert!(rt; bodies(alloc, image.as_slice()) == Some(CHANGES));
    Ok(())
}

#[test]
fn a_document_of_many_changes_is_opened(rt: HostRuntime) -> Result<(), Fail> {
    let alloc = rt.alloc();
    let image = journal(alloc)?;
    let doc = reopen(alloc, image.as_slice()).ok().ok_or("reopen")?;
    assert!(rt; doc.count() == CHANGES);
    assert!(rt; doc.copy(alloc)?.drawn == CHANGES);
    Ok(())
}

#[test]
fn the_calls_of_many_changes_are_made(rt: HostRuntime) -> Result<(), Fail> {
    let alloc = rt.alloc();
    let call = draw(alloc).ok_or("call")?;
    let mut core = PlainCore::new(alloc, G)?;
    for number in 0..CHANGES {
        assert!(rt; make(&mut core, &call), "call {number}");
    }
    assert!(rt; core.copy(alloc)?.drawn == CHANGES);
    Ok(())
}
