// How a subrequest begins.
ghost use Rattle.std.specs.Prelude.{◌≡◌, IfOk, Some};
ghost use Rattle.envelope_read.specs.declared.collection.What.TheVariants as asking;
ghost use Rattle.dependency_runner.specs.declared.deciding.Decision.TheVariants as decisions;
ghost use Rattle.collection_run.specs.Collections.{Caller};
ghost use Rattle.collection_run.specs.Proceeding.{BeginsAs};

use crate::cell::CellWork;
use crate::copying::copied_sub;
use crate::opening::{ANOTHER_PARTITION, NO_REQUEST, failed_cell, open_request};
use compact_values::{Copied, Guid, NoMemory, Octets, Seq, Text};
use dependency_runner::Decision;
use doc_model::{Call, Sub};
use envelope_read::{Outcome, What};
use std::alloc::Global;

/// How a subrequest begins: it ends at once, makes its one call, or is a Cell that is to be run.
#[derive(Drop)]
pub enum Begun {
    Ended { outcome: Outcome },
    Calls { doc: usize, call: Call },
    Opens { cell: CellWork },
}

fn begin_cell(
    alloc: Global,
    doc: usize,
    bytes: &Octets,
    content: bool,
    carried: Option<Guid>,
) -> Result<Begun, NoMemory>
    ensures { IfOk result (λ begun. (c : Caller) → BeginsAs c (Some doc) decisions.Run (asking.Cell bytes.now content carried) begun) }
{
    if !content {
        let outcome = failed_cell(alloc, ANOTHER_PARTITION)?;
        return Ok(Begun::Ended { outcome });
    }
    match open_request(alloc, bytes.as_slice())? {
        Some(request) => Ok(Begun::Opens {
            cell: CellWork {
                doc,
                carried,
                request,
                answers: Seq::new(alloc),
            },
        }),
        None => {
            let outcome = failed_cell(alloc, NO_REQUEST)?;
            Ok(Begun::Ended { outcome })
        }
    }
}

fn begin_plain(
    alloc: Global,
    moment: u64,
    user: &Text,
    doc: usize,
    sub: &Sub,
) -> Result<Begun, NoMemory>
    ensures { IfOk result (λ begun. (c : Caller) → c.moment ≡ moment → c.user ≡ user.now
        → BeginsAs c (Some doc) decisions.Run (asking.Plain sub.now) begun) }
{
    let user = user.copied(alloc)?;
    let sub = copied_sub(alloc, sub)?;
    Ok(Begun::Calls {
        doc,
        call: Call { moment, user, sub },
    })
}

fn begin_what(
    alloc: Global,
    moment: u64,
    user: &Text,
    doc: usize,
    what: &What,
) -> Result<Begun, NoMemory>
    ensures { IfOk result (λ begun. (c : Caller) → c.moment ≡ moment → c.user ≡ user.now
        → BeginsAs c (Some doc) decisions.Run what.now begun) }
{
    match what {
        What::Cell {
            bytes,
            content,
            carried,
        } => begin_cell(alloc, doc, bytes, *content, *carried),
        What::Plain { sub } => begin_plain(alloc, moment, user, doc, sub),
        What::NotSupported => Ok(Begun::Ended {
            outcome: Outcome::NotSupported,
        }),
        What::BadArgument => Ok(Begun::Ended {
            outcome: Outcome::BadArgument,
        }),
    }
}

/// Begins a subrequest that asks this, of this document if there is one, by what was decided of it.
pub(crate) fn begin(
    alloc: Global,
    moment: u64,
    user: &Text,
    doc: Option<usize>,
    decision: Decision,
    what: &What,
) -> Result<Begun, NoMemory>
    ensures { IfOk result (λ begun. (c : Caller) → c.moment ≡ moment → c.user ≡ user.now
        → BeginsAs c doc decision what.now begun) }
{
    match decision {
        Decision::Skip { why } => Ok(Begun::Ended {
            outcome: Outcome::Skipped { why },
        }),
        Decision::Run => match doc {
            Some(doc) => begin_what(alloc, moment, user, doc, what),
            None => Ok(Begun::Ended {
                outcome: Outcome::NoDocument,
            }),
        },
    }
}
