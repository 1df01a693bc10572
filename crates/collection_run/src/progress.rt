// How far a collection is.
ghost use Rattle.std.specs.Prelude.{◌≡◌, ◌<◌, ◌≤◌, IfOk, OnOk, OnErr, length, drop, Some, None};
ghost use Rattle.doc_model.specs.rules.Histories.{Fits};
ghost use Rattle.doc_model.specs.declared.call.Call.{Call};
ghost use Rattle.envelope_read.specs.declared.collection.Ask.{Ask};
ghost use Rattle.envelope_read.specs.declared.collection.SubAsk.{SubAsk};
ghost use Rattle.envelope_write.specs.AnswerText.{envelope_text};
ghost use Rattle.collection_run.specs.Progress.{IsAt, IsProgress, IsNext, doc_at, with_cell};
ghost use Rattle.collection_run.specs.Proceeding.{Closes, Proceeds, Advances, Settles};

use crate::beginning::{Begun, begin};
use crate::cell::{CellWork, cell_outcome, next_in_cell, take_back};
use crate::url::doc_of;
use compact_values::{Copied, Names, NoMemory, Octets, Text};
use dependency_runner::{Before, Befores, decide, state_of};
use doc_model::{Answer, Call, Submitted};
use envelope_read::{Ask, Collection, Outcome, Outcomes};
use envelope_write::write_envelope;
use std::alloc::Global;

/// A collection that is being run: the Requests behind, the document of the present one, the subrequests behind in it and
/// what is known of them, the outcomes of all, a Cell that is being run, and the call that is out.
#[derive(Drop)]
pub struct Progress {
    pub alloc: Global,
    pub names: Names,
    pub moment: u64,
    pub user: Text,
    pub collection: Collection,
    pub request: usize,
    pub doc: Option<usize>,
    pub sub: usize,
    pub earlier: Befores,
    pub outcomes: Outcomes,
    pub cell: Option<CellWork>,
    pub call: Option<Call>,
}

/// The document of a Request, if there is such a Request and its address is that of a document.
pub(crate) fn doc_at(requests: &[Ask], request: usize, names: &Names) -> Option<usize>
    ensures { result ≡ doc_at names.now (drop request requests.now) }
{
    if request < requests.len() {
        doc_of(&requests[request].url, names)
    } else {
        None
    }
}

// Ends the present subrequest with this outcome.
#[tactic(auto, using(crate::proofs::Closing::still_progress))]
fn close(p: &mut Progress, outcome: Outcome) -> Result<(), NoMemory>
    requires progress { IsProgress p.old }
    requires here { (ask : Ask) × (sub : SubAsk) × IsAt p.old ask sub }
    requires cell { p.old.cell ≡ None }
    requires call { p.old.call ≡ None }
    ensures closes { OnOk result ((ask : Ask) (sub : SubAsk) → IsAt p.old ask sub → Closes p.old ask sub outcome p.new) }
    ensures safe { IsProgress p.new }
    ensures quiet { OnErr result (p.new.call ≡ None) }
{
    let ask = &p.collection.requests.as_slice()[p.request];
    let sub = &ask.subs.as_slice()[p.sub];
    let token = sub.token.copied(p.alloc)?;
    let state = state_of(&outcome);
    p.earlier.push(Before { token, state })?;
    p.outcomes.push(outcome)?;
    p.sub += 1;
    Ok(())
}

// A proceed in a Cell.
#[tactic(auto, using(crate::proofs::Closing::still_progress))]
fn proceed_in_cell(p: &mut Progress, cell: CellWork) -> Result<Option<usize>, NoMemory>
    requires progress { IsProgress (with_cell (Some cell) p.old) }
    requires cell { p.old.cell ≡ None }
    requires call { p.old.call ≡ None }
    ensures proceeds { IfOk result (Proceeds (with_cell (Some cell) p.old) p.new) }
    ensures safe { IsProgress p.new }
    ensures quiet { OnErr result (p.new.call ≡ None) }
{
    let mut cell = cell;
    let alloc = p.alloc;
    match next_in_cell(alloc, p.moment, &p.user, &mut cell)? {
        Some(call) => {
            let doc = cell.doc;
            p.cell = Some(cell);
            p.call = Some(call);
            Ok(Some(doc))
        }
        None => {
            let outcome = cell_outcome(alloc, &cell.answers)?;
            close(p, outcome)?;
            Ok(None)
        }
    }
}

// A proceed between subrequests.
#[tactic(auto, using(crate::proofs::Closing::still_progress))]
fn proceed_in_ask(p: &mut Progress) -> Result<Option<usize>, NoMemory>
    requires progress { IsProgress p.old }
    requires more { p.old.request < length p.old.collection.requests }
    requires cell { p.old.cell ≡ None }
    requires call { p.old.call ≡ None }
    ensures proceeds { IfOk result (Proceeds p.old p.new) }
    ensures safe { IsProgress p.new }
    ensures quiet { OnErr result (p.new.call ≡ None) }
{
    let ask = &p.collection.requests.as_slice()[p.request];
    let subs = ask.subs.as_slice();
    if p.sub >= subs.len() {
        p.request += 1;
        p.doc = doc_at(p.collection.requests.as_slice(), p.request, &p.names);
        p.sub = 0;
        p.earlier.truncate(0);
        return Ok(None);
    }
    let sub = &subs[p.sub];
    let decision = decide(&sub.depend, &p.earlier);
    match begin(p.alloc, p.moment, &p.user, p.doc, decision, &sub.what)? {
        Begun::Ended { outcome } => {
            close(p, outcome)?;
            Ok(None)
        }
        Begun::Calls { doc, call } => {
            p.call = Some(call);
            Ok(Some(doc))
        }
        Begun::Opens { cell } => {
            p.cell = Some(cell);
            Ok(None)
        }
    }
}

#[tactic(auto, using(crate::proofs::Closing::still_progress))]
fn proceed(p: &mut Progress) -> Result<Option<usize>, NoMemory>
    requires progress { IsProgress p.old }
    requires more { p.old.request < length p.old.collection.requests }
    requires call { p.old.call ≡ None }
    ensures proceeds { IfOk result (Proceeds p.old p.new) }
    ensures safe { IsProgress p.new }
    ensures quiet { OnErr result (p.new.call ≡ None) }
{
    match p.cell.take() {
        Some(cell) => proceed_in_cell(p, cell),
        None => proceed_in_ask(p),
    }
}

/// Goes on to the next call, and gives its document. None where all is done.
pub(crate) fn advance(p: &mut Progress) -> Result<Option<usize>, NoMemory>
    requires progress { IsProgress p.old }
    requires call { p.old.call ≡ None }
    ensures advances { IfOk result (Advances p.old p.new) }
    ensures safe { IsProgress p.new }
    ensures quiet { OnErr result (p.new.call ≡ None) }
{
    'going: while p.request < p.collection.requests.len() {
        if let Some(doc) = proceed(p)? {
            return Ok(Some(doc));
        }
    }
    Ok(None)
}

/// Takes what became of the call that is out.
#[tactic(auto, using(crate::proofs::Closing::still_progress))]
pub(crate) fn settle(p: &mut Progress, submitted: Submitted) -> Result<(), NoMemory>
    requires progress { IsProgress p.old }
    requires call { (call : Call) × (p.old.call ≡ Some call) × IsNext p.old call × Fits call submitted }
    ensures settles { OnOk result (Settles p.old submitted p.new) }
    ensures safe { IsProgress p.new }
    ensures quiet { OnErr result (p.new.call ≡ None) }
{
    let call = p.call.take();
    match p.cell.take() {
        Some(cell) => {
            let mut cell = cell;
            take_back(&mut cell, call);
            let sub = &cell.request.subs.as_slice()[cell.answers.len()];
            let answer = Answer {
                id: sub.id,
                kind: sub.kind,
                submitted,
            };
            cell.answers.push(answer)?;
            p.cell = Some(cell);
            Ok(())
        }
        None => close(p, Outcome::Plain { submitted }),
    }
}

/// The answer text, where all is done.
pub(crate) fn text_of(p: &Progress) -> Result<Octets, NoMemory>
    requires progress { IsProgress p.now }
    requires end { length p.now.collection.requests ≤ p.now.request }
    ensures { IfOk result (λ text. text ≡ envelope_text p.now.collection p.now.outcomes) }
{
    write_envelope(p.alloc, &p.collection, &p.outcomes)
}
