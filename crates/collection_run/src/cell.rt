// How far the binary request of a Cell is.
ghost use Rattle.std.specs.Prelude.{◌≡◌, All, IfOk};
ghost use Rattle.doc_model.specs.wire.Responses.{response};
ghost use Rattle.envelope_read.specs.declared.outcome.Outcome.TheVariants.{Cell};
ghost use Rattle.wire_responses.specs.Forms.{HasForm};
ghost use Rattle.collection_run.specs.Asking.{unknown, word_of};
ghost use Rattle.collection_run.specs.Collections.{Caller};
ghost use Rattle.collection_run.specs.Progress.{GoesOnInCell, whole};

use crate::asking::{asked, word_of};
use compact_values::{Copied, Guid, NoMemory, Text};
use doc_model::{Answer, Answers, Call, CellRequest, Code, Reply, Sub, Submitted, WireSub};
use envelope_read::Outcome;
use std::alloc::Global;
use wire_responses::write_cell_response;

/// A Cell that is being run: its document, the lock id that it carries, its request, and the answers so far. While a put of
/// it is out, the call has the elements of the request.
#[derive(Drop)]
pub struct CellWork {
    pub doc: usize,
    pub carried: Option<Guid>,
    pub request: CellRequest,
    pub answers: Answers,
}

// The answer to a sub-request of an unknown kind.
fn answer_unknown(sub: &WireSub) -> Answer
    ensures { result ≡ record { id = sub.now.id; kind = sub.now.kind; submitted = unknown } }
{
    Answer {
        id: sub.id,
        kind: sub.kind,
        submitted: Submitted::Answered {
            reply: Reply::Refused {
                code: Code::NotSupported,
            },
        },
    }
}

/// The next call of a Cell, or none where all of its sub-requests have answers.
pub(crate) fn next_in_cell(
    alloc: Global,
    moment: u64,
    user: &Text,
    cell: &mut CellWork,
) -> Result<Option<Call>, NoMemory>
    requires { All (λ a. HasForm a.submitted) cell.old.answers }
    ensures forms { All (λ a. HasForm a.submitted) cell.new.answers }
    ensures goes { IfOk result (λ call. (c : Caller) → c.moment ≡ moment → c.user ≡ user.now
        → GoesOnInCell c cell.old.carried cell.old.request cell.old.answers cell.new.answers call) }
    // But for the answers, the Cell is as it was, with what the call has of it.
    ensures same { IfOk result (λ call. whole call cell.new ≡ record cell.old { answers = cell.new.answers }) }
{
    'asking: while cell.answers.len() < cell.request.subs.len() {
        let sub = &cell.request.subs.as_slice()[cell.answers.len()];
        match asked(alloc, cell.carried, &mut cell.request.elements, &sub.what)? {
            Some(sub) => {
                let user = user.copied(alloc)?;
                return Ok(Some(Call { moment, user, sub }));
            }
            None => cell.answers.push(answer_unknown(sub))?,
        }
    }
    Ok(None)
}

/// Takes the elements of the request back from a put that was out.
pub(crate) fn take_back(cell: &mut CellWork, call: Option<Call>)
    ensures { cell.new ≡ whole call cell.old }
{
    let Some(Call { sub, .. }) = call else {
        return;
    };
    if let Sub::Put { put } = sub {
        cell.request.elements = put.elements;
    }
}

/// What becomes of a Cell with these answers.
pub(crate) fn cell_outcome(alloc: Global, answers: &Answers) -> Result<Outcome, NoMemory>
    requires { All (λ a. HasForm a.submitted) answers.now }
    ensures { IfOk result (λ outcome. outcome ≡ Cell (response answers.now) (word_of answers.now)) }
{
    Ok(Outcome::Cell {
        bytes: write_cell_response(alloc, answers)?,
        word: word_of(answers.as_slice()),
    })
}
