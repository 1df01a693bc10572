// A document that is kept in a journal, as a host takes it.
ghost use Rattle.std.specs.Prelude.{◌≡◌};
ghost use Rattle.std.specs.List.{All};
ghost use Rattle.doc_model.specs.rules.Sound.{Valid};
ghost use Rattle.journaled_doc.specs.Docs.{history, IsJournaled};
ghost use Rattle.doc_host.specs.ValidCalls.{valid-calls-prop};

use crate::journaled::{Journaled, Opening};
use doc_model::history_laws::changes_are_of_their_kinds;
use doc_model::{Call, Core, Submitted};
use host_edge::Disk;
use journaled_doc::JournaledDoc;
use std::alloc::Global;

/// A document that is kept in a journal, as a host takes it. At every moment it is the document of its history, and its disk is
/// safe for the changes before the opening and those of the history. All calls of its history were ones that may be made.
#[derive(Drop)]
pub struct Document<C: Core, D: Disk> {
    doc: JournaledDoc<C, D>,
    ghost journaled: { ∥ IsJournaled C.doc D.may_leave doc ∥₁ },
    ghost valid: { All (λ item. Valid item.1) (history doc) } by { valid-calls-prop (history doc) },
}

impl<C: Core, D: Disk> Document<C, D> {
    ghost use Rattle.std.specs.Prelude.{◌≡◌, []};
    ghost use Rattle.doc_model.specs.rules.Histories.{EachMoves};
    ghost use Rattle.journaled_doc.specs.Docs.{history, IsJournaled};

    /// Takes a document that was opened just now.
    pub fn new(doc: JournaledDoc<C, D>) -> Document<C, D>
        requires journaled { IsJournaled C.doc D.may_leave doc }
        requires opened { history doc ≡ [] }
        ensures { result.doc ≡ doc }
    {
        Document { doc }
    }

    /// The document with its journal. Each call of its history moved where it stands.
    pub fn into_journaled(self) -> JournaledDoc<C, D>
        ensures same { result ≡ self.doc }
        ensures journaled { ∥ IsJournaled C.doc D.may_leave result ∥₁ }
        ensures moves { EachMoves (C.doc result.first.value) (history result) }
    {
        let Document { doc } = self;
        doc
    }
}

impl<C: Core, D: Disk + Drop> Journaled for Document<C, D> {
    ghost use Rattle.doc_story.specs.Telling.{told};
    ghost use Rattle.journaled_doc.specs.Docs.{history};
    ghost use Rattle.doc_host.specs.Documents.{last_of};

    ghost opening = { λ d. record { doc = C.doc d.doc.first.value; bodies = d.doc.before } };

    ghost history = { λ d. history d.doc };

    ghost last = { λ d. last_of (told d.doc.story).last };

    ghost faults = { λ d. D.faults d.doc.kept.journal.disk };

    fn submit(&mut self, alloc: Global, caller: u32, call: &Call) -> Submitted {
        changes_are_of_their_kinds();
        self.doc.submit(alloc, caller, call)
    }

    fn front(&self) -> u64 {
        self.doc.front()
    }

    fn each_moves(&self) {}

    fn forget(&mut self) {
        self.doc.forget();
    }
}
