// Documents in memory. Each call is first seen to be one that may be made, so that no test has to prove it.
use change_record::{can_move, is_valid};
use compact_values::{Guid, NoMemory};
use doc_model::laws::every_call_keeps_sound;
use doc_model::{Call, Core, Submitted};
use plain_core::PlainCore;
use std::alloc::Global;
use std::marker::Model;

/// What becomes of calls that may change a document.
#[derive(Clone, Copy, Debug, PartialEq, Eq)]
pub enum Change {
    /// They are done.
    Done,
    /// The disk fails.
    DiskFault,
    /// The journal has no room.
    JournalFull,
    /// There is no memory, for any call.
    NoMemory,
}

/// A document in memory.
#[derive(Drop)]
pub struct Document {
    core: PlainCore,
}

impl Model for Document {
    ghost use Rattle.doc_model.specs.rules.Sound.{Sound};
    ghost use Rattle.doc_model.specs.declared.doc.Doc.{Doc};
    ghost use Rattle.plain_core.specs.Keeping.{doc_of};

    ghost Value = { Doc };

    ghost view = { λ d. doc_of d.core };

    ghost invariant = { λ d. Sound (doc_of d.core) };
}

impl Document {
    ghost use Rattle.std.specs.Prelude.{IfSome};
    ghost use Rattle.doc_model.specs.rules.Histories.{Fits};
    ghost use Rattle.doc_model.specs.rules.Sound.{Valid};

    /// A document without anything.
    pub fn new(alloc: Global, guid: Guid) -> Result<Document, NoMemory> {
        every_call_keeps_sound();
        let core = PlainCore::new(alloc, guid)?;
        Ok(Document { core })
    }

    // Makes the call.
    fn make(&mut self, call: &Call) -> Submitted
        requires { Valid call.now }
        ensures { Fits call.now result }
    {
        every_call_keeps_sound();
        match self.core.plan(call) {
            Ok(plan) => Submitted::Answered {
                reply: self.core.settle(plan),
            },
            Err(_) => Submitted::NoMemory,
        }
    }

    /// Makes the call, or lets it fail. None where it may not be made.
    pub fn submit(&mut self, change: Change, call: &Call) -> Option<Submitted>
        ensures { IfSome result (Fits call.now) }
    {
        if !is_valid(call) {
            return None;
        }
        match change {
            Change::DiskFault if can_move(&call.sub) => Some(Submitted::DiskFault),
            Change::JournalFull if can_move(&call.sub) => Some(Submitted::JournalFull),
            Change::NoMemory => Some(Submitted::NoMemory),
            _ => Some(self.make(call)),
        }
    }
}
