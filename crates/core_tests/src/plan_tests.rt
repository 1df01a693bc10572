// Numbers of a document, plans that are dropped, and a document that is taken over.
use crate::test_calls::{G, draw, drawn, refused};
use crate::test_table::{Table, play};
use compact_values::{NoMemory, Seq, Text};
use doc_model::{Call, Code, Core, Doc, LockRecord, Sub};
use plain_core::PlainCore;
use std::alloc::Global;
use std::test::Fail;

/// Plans a draw and drops the plan.
fn plan_draw<C: Core>(core: &mut C, alloc: Global) -> Result<bool, Fail> {
    let call = Call {
        moment: 0,
        user: Text::new(alloc),
        sub: Sub::Draw { count: 1000 },
    };
    let plan = core.plan(&call)?;
    Ok(plan.moved)
}

/// A new document, taken over from its copy.
fn taken_over(alloc: Global) -> Result<PlainCore, NoMemory> {
    let core = PlainCore::new(alloc, G)?;
    let copy = core.copy(alloc)?;
    PlainCore::from_doc(alloc, copy)
}

/// A document without anything.
fn empty_doc(alloc: Global) -> Doc {
    Doc {
        guid: G,
        added: Seq::new(alloc),
        commits: Seq::new(alloc),
        lock: LockRecord::Free,
        editors: Seq::new(alloc),
        parts: Seq::new(alloc),
        drawn: 0,
    }
}

#[test]
fn numbers_are_drawn_in_order(rt: HostRuntime) -> Result<(), Fail> {
    let mut table = Table::new(rt.alloc());
    table.moves(0, draw(1000), drawn(1, 1000));
    table.moves(0, draw(1000), drawn(1001, 2000));
    table.stays(0, draw(100_001), refused(Code::NotSupported));
    play(&rt, table)
}

#[test]
fn a_dropped_plan_changes_nothing(rt: HostRuntime) -> Result<(), Fail> {
    let alloc = rt.alloc();
    let mut core = PlainCore::new(alloc, G)?;
    assert!(rt; plan_draw(&mut core, alloc)?);
    assert!(rt; core.copy(alloc)? == empty_doc(alloc));
    Ok(())
}

#[test]
fn an_empty_document_is_taken_over(rt: HostRuntime) -> Result<(), Fail> {
    let alloc = rt.alloc();
    let core = taken_over(alloc)?;
    assert!(rt; core.guid() == G);
    assert!(rt; core.copy(alloc)? == empty_doc(alloc));
    Ok(())
}
