// Documents that are opened again, and journals that are no document's.
use crate::test_documents::{G, call, create, is_answered, reopen, submit};
use cell_journal::{Frame, Journal};
use change_record::{can_move, write_change};
use compact_values::{Guid, Octets, Text};
use doc_model::{EditorStep, LockStep, Sub};
use host_edge::MemDisk;
use journaled_doc::OpenFault;
use std::alloc::Global;
use std::test::Fail;

const L: Guid = Guid { number: 0x10 };

const C: Guid = Guid { number: 0x20 };

// What is asked, one after the other, and whether it moves the document.
fn asked(alloc: Global, place: usize) -> Option<(Sub, bool)> {
    let lock = LockStep::TakeExclusive {
        id: L,
        timeout: 3600,
    };
    let join = EditorStep::Join {
        client: C,
        timeout: 3600,
    };
    Some(match place {
        0 => (Sub::Draw { count: 5 }, true),
        1 => (Sub::Lock { step: lock }, true),
        2 => (Sub::AmIAlone, false),
        3 => (Sub::Editor { step: join }, true),
        4 => {
            let mut value = Octets::new(alloc);
            value.extend_from_slice(&[1, 2, 3]).ok()?;
            let key = Text::from_str(alloc, "colour").ok()?;
            let step = EditorStep::SetKey {
                client: C,
                key,
                value,
            };
            (Sub::Editor { step }, true)
        }
        5 => (
            Sub::Restore {
                number: 1,
                carried: None,
            },
            false,
        ),
        _ => return None,
    })
}

#[test]
fn what_is_opened_again_is_the_same_document(rt: HostRuntime) -> Result<(), Fail> {
    let alloc = rt.alloc();
    let mut doc = create(alloc, &[]).ok_or("create")?;
    for place in 0..6 {
        let (sub, moves) = asked(alloc, place).ok_or("call")?;
        let before = doc.count();
        let call = call(alloc, 100, sub).ok_or("call")?;
        assert!(rt; is_answered(submit(alloc, &mut doc, 3, &call)), "{place}");
        assert!(rt; (doc.count() > before) == moves, "{place}");
        assert_eq!(rt; doc.front(), doc.count());
    }
    let here = doc.copy(alloc)?;
    let disk = doc.into_disk();
    let image = disk.left_by_crash(alloc, disk.calls().len(), &[])?;
    let again = reopen(alloc, image.as_slice()).ok().ok_or("reopen")?;
    assert!(rt; again.copy(alloc)? == here);
    assert!(rt; again.count() == 4 && again.front() == 0);
    Ok(())
}

// The bytes of a journal with these bodies.
fn journal(alloc: Global, bodies: &[&[u8]]) -> Option<Octets> {
    let disk = MemDisk::new(alloc, 4096, 64, &[]).ok()?;
    let mut journal = match Journal::create(disk, G) {
        Ok(journal) => journal,
        Err(_) => return None,
    };
    for body in bodies {
        if body.is_empty() || body.len() > 4096 || !journal.settled() || journal.count() > 9 {
            return None;
        }
        let frame = Frame::new(alloc, body).ok()?;
        journal.append(&frame).ok()?;
    }
    let disk = journal.into_disk();
    disk.left_by_crash(alloc, disk.calls().len(), &[]).ok()
}

fn body(alloc: Global, sub: Sub) -> Option<Octets> {
    let call = call(alloc, 100, sub)?;
    if !can_move(&call.sub) {
        return None;
    }
    write_change(alloc, &call).ok()
}

#[test]
fn a_journal_that_is_no_document_is_told_by_its_place(rt: HostRuntime) -> Result<(), Fail> {
    let alloc = rt.alloc();
    let draw = body(alloc, Sub::Draw { count: 5 }).ok_or("body")?;
    let free = Sub::Lock {
        step: LockStep::DropExclusive { id: L },
    };
    let still = body(alloc, free).ok_or("body")?;
    let first = 33 + draw.len() as u64 + 9;
    for (bodies, place) in [
        ([draw.as_slice(), b"\x09"], first),
        ([draw.as_slice(), still.as_slice()], first),
        ([still.as_slice(), draw.as_slice()], 33),
        ([b"\x02", draw.as_slice()], 33),
    ] {
        let image = journal(alloc, &bodies).ok_or("journal")?;
        match reopen(alloc, image.as_slice()) {
            Ok(_) => assert!(rt; false, "{place}"),
            Err(fault) => assert!(rt; fault == OpenFault::NotAJournal { place }, "{place}"),
        }
    }
    let image = journal(alloc, &[draw.as_slice(), draw.as_slice()]).ok_or("journal")?;
    for cut in 25..image.len().saturating_sub(1) {
        assert!(rt;
            reopen(alloc, &image.as_slice()[..cut]).is_err(),
            "cut at {cut}"
        );
    }
    Ok(())
}
