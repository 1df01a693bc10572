// Calls in order, each with what it does.
use crate::test_calls::{Fault, G, call, made};
use compact_values::Seq;
use doc_model::{Call, Core, Reply, Sub};
use plain_core::PlainCore;
use std::alloc::Global;
use std::process::Abort;
use std::test::Fail;

/// A call, what it is answered, and whether it changes the document.
#[derive(Drop)]
pub struct Row {
    pub call: Call,
    pub reply: Reply,
    pub moved: bool,
}

/// Rows in order, and why one of them could not be had.
#[derive(Drop)]
pub struct Table {
    pub alloc: Global,
    rows: Seq<Row>,
    fault: Option<Fault>,
}

impl Table {
    pub fn new(alloc: Global) -> Table {
        Table {
            alloc,
            rows: Seq::new(alloc),
            fault: None,
        }
    }

    /// A call by `ann` that changes the document.
    pub fn moves(&mut self, moment: u32, sub: Result<Sub, Fault>, reply: Result<Reply, Fault>) {
        self.add(moment, sub, reply, true);
    }

    /// A call by `ann` that leaves it as it is.
    pub fn stays(&mut self, moment: u32, sub: Result<Sub, Fault>, reply: Result<Reply, Fault>) {
        self.add(moment, sub, reply, false);
    }

    fn add(
        &mut self,
        moment: u32,
        sub: Result<Sub, Fault>,
        reply: Result<Reply, Fault>,
        moved: bool,
    ) {
        if let Err(fault) = self.try_add(moment, sub, reply, moved) {
            self.fault = Some(fault);
        }
    }

    fn try_add(
        &mut self,
        moment: u32,
        sub: Result<Sub, Fault>,
        reply: Result<Reply, Fault>,
        moved: bool,
    ) -> Result<(), Fault> {
        let call = call(self.alloc, moment, "ann", sub?)?;
        let reply = reply?;
        self.rows.push(Row { call, reply, moved })?;
        Ok(())
    }

    pub fn into_rows(self) -> Result<Seq<Row>, Fault> {
        let Table { rows, fault, .. } = self;
        match fault {
            Some(fault) => Err(fault),
            None => Ok(rows),
        }
    }
}

/// Makes the call of a row, which is answered and moves as the row says.
fn make<C: Core>(rt: &impl Abort, core: &mut C, row: &Row) -> Result<(), Fail> {
    let (moved, reply) = made(core, &row.call)?;
    let moment = row.call.moment;
    assert_eq!(rt; reply, row.reply, "at {moment}");
    assert_eq!(rt; moved, row.moved, "at {moment}");
    Ok(())
}

/// Makes the call of a row, which leaves the document equal unless it changes it.
fn make_or_leave<C: Core>(
    rt: &impl Abort,
    alloc: Global,
    core: &mut C,
    row: &Row,
) -> Result<(), Fail> {
    if row.moved {
        return make(rt, core, row);
    }
    let before = core.copy(alloc)?;
    make(rt, core, row)?;
    assert!(rt; core.copy(alloc)? == before, "at {}", row.call.moment);
    Ok(())
}

/// Makes the calls of these rows in order.
pub fn make_all<C: Core>(
    rt: &impl Abort,
    alloc: Global,
    core: &mut C,
    rows: &[Row],
) -> Result<(), Fail> {
    for row in rows {
        make_or_leave(rt, alloc, core, row)?;
    }
    Ok(())
}

/// Makes the calls of a table on a new document.
pub fn play(rt: &impl Abort, table: Table) -> Result<(), Fail> {
    let alloc = table.alloc;
    let rows = table.into_rows()?;
    let mut core = PlainCore::new(alloc, G)?;
    make_all(rt, alloc, &mut core, rows.as_slice())
}
