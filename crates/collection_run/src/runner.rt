// Takes a collection through its calls.
ghost use Rattle.std.specs.Prelude.{◌≡◌, IfOk, OnOk, Some, None};
ghost use Rattle.doc_model.specs.rules.Histories.{Fits};
ghost use Rattle.doc_model.specs.declared.call.Call.{Call};
ghost use Rattle.collection_run.specs.Collections.{process};
ghost use Rattle.collection_run.specs.Processes.{after, says};
ghost use Rattle.collection_run.specs.Progress.{process_of};
ghost use Rattle.collection_run.specs.Proceeding.{AdvanceEnds, IsDone};

use crate::progress::{Progress, advance, doc_at, settle, text_of};
use compact_values::{Copied, Names, NoMemory, Octets, Seq, Text};
use doc_model::{Call, Submitted};
use envelope_read::Collection;
use std::alloc::Global;
use std::marker::Model;

/// Takes the collection of an envelope through its calls: the next call goes out, what became of it comes in, and in the
/// end there is the answer text. It makes no call itself. It is seen as the `process` that is still to come.
#[derive(Drop)]
pub struct Runner {
    progress: Progress,
}

impl Model for Runner {
    ghost use Rattle.std.specs.Prelude.{IfSome};
    ghost use Rattle.collection_run.specs.declared.progress.Progress.{Progress};
    ghost use Rattle.collection_run.specs.Progress.{IsProgress, IsNext};

    ghost Value = { Progress };

    ghost view = { λ r. r.progress };

    ghost invariant = { λ r. IsProgress r.progress × IfSome r.progress.call (IsNext r.progress) };
}

impl Runner {
    /// A collection of which nothing was done, asked for by this user at this moment, over the documents of these names.
    pub fn new(
        alloc: Global,
        collection: Collection,
        names: &Names,
        moment: u64,
        user: &Text,
    ) -> Result<Runner, NoMemory>
        ensures { IfOk result (λ runner. (runner.call ≡ None)
            × (process_of runner ≡ process (record { names = names.now; moment = moment; user = user.now }) collection)) }
    {
        let doc = doc_at(collection.requests.as_slice(), 0, names);
        Ok(Runner {
            progress: Progress {
                alloc,
                names: names.copied(alloc)?,
                moment,
                user: user.copied(alloc)?,
                collection,
                request: 0,
                doc,
                sub: 0,
                earlier: Seq::new(alloc),
                outcomes: Seq::new(alloc),
                cell: None,
                call: None,
            },
        })
    }

    /// Goes on to the next call, which is then out, and gives its document. None exactly where all is done.
    pub fn next(&mut self) -> Result<Option<usize>, NoMemory>
        requires { self.old.call ≡ None }
        ensures same { OnOk result (process_of self.new ≡ process_of self.old) }
        ensures next { IfOk result (AdvanceEnds self.new) }
    {
        advance(&mut self.progress)
    }

    /// The call that is out.
    pub fn call(&self) -> &Call
        requires { (call : Call) × (self.now.call ≡ Some call) }
        ensures { self.now.call ≡ Some result.now }
    {
        match &self.progress.call {
            Some(call) => call,
            None => unreachable!(),
        }
    }

    /// Takes what became of the call that is out.
    pub fn give(&mut self, submitted: Submitted) -> Result<(), NoMemory>
        requires { (call : Call) × (self.old.call ≡ Some call) × Fits call submitted }
        ensures goes_on { OnOk result (process_of self.new ≡ after (process_of self.old) submitted) }
        ensures none { OnOk result (self.new.call ≡ None) }
    {
        settle(&mut self.progress, submitted)
    }

    /// The answer text, once all is done.
    pub fn finish(self) -> Result<Octets, NoMemory>
        requires { IsDone self }
        ensures { IfOk result (λ text. process_of self ≡ says text) }
    {
        text_of(&self.progress)
    }
}
