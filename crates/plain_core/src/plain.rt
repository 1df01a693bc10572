// A document as its lists.
ghost use Rattle.std.specs.Prelude.{◌≡◌, ◌<◌, ◌^◌, nat_le, true, IfOk, IsSome, OnOk, Some, IsTrue, vec_len};
ghost use Rattle.std.specs.List.{list_all};
ghost use Rattle.plain_core.specs.Weighing.{all_few, few_parts};
ghost use Rattle.plain_core.specs.Wholes.{all_usable, all_whole};

use crate::pull::pull;
use compact_values::{Copied, Guid, NoMemory, Seq};
use doc_model::{
    Call, Code, Commit, Core, Doc, Editors, Element, LockRecord, Part, Parts, Plan, Range, Reply,
    Sub,
};
use std::alloc::Global;

/// A document as its lists. Each of its elements is written in few enough stream objects to be weighed, and has an id that
/// may be used; at each of its versions all that is named is there, and so is the file.
#[derive(Drop)]
pub struct PlainCore {
    pub(crate) alloc: Global,
    pub(crate) guid: Guid,
    pub(crate) added: Vec<Element>,
    pub(crate) commits: Vec<Commit>,
    pub(crate) lock: LockRecord,
    pub(crate) editors: Editors,
    pub(crate) parts: Parts,
    pub(crate) drawn: u64,
    ghost few: { all_few added.items ≡ true },
    ghost few_pending: { few_parts parts ≡ true },
    ghost usable: { all_usable guid drawn added.items ≡ true },
    ghost whole: { all_whole added.items commits.items ≡ true },
}

/// What a plan changes.
#[derive(Drop)]
pub enum Change {
    /// The document stays as it is.
    Nothing,
    /// So many numbers are then drawn.
    Draw {
        drawn: u64,
    },
    /// This is then the lock.
    Lock {
        lock: LockRecord,
    },
    /// These are then the editors.
    Edit {
        editors: Editors,
    },
    /// These are then the uploads that aren't complete.
    Keep {
        parts: Parts,
    },
    /// The elements and the version join the others, and these are then the uploads that aren't complete.
    Commit {
        fresh: Vec<Element>,
        commit: Commit,
        parts: Parts,
    },
    /// The elements and the version join the others, and so many numbers are then drawn.
    Restore {
        fresh: Vec<Element>,
        commit: Commit,
        drawn: u64,
    },
}

impl PlainCore {
    ghost use Rattle.doc_model.specs.rules.Apply.{empty_doc, IsPlanned};
    ghost use Rattle.doc_model.specs.rules.Drawing.{draw};
    ghost use Rattle.doc_model.specs.rules.Pulls.{pull};
    ghost use Rattle.doc_model.specs.rules.Sound.{Sound};
    ghost use Rattle.doc_model.specs.rules.Effects.{reading};
    ghost use Rattle.plain_core.specs.Keeping.{doc_of, has_places, has_room, joined, leads_to, may_join, planned_of};

    /// An empty document.
    pub fn new(alloc: Global, guid: Guid) -> Result<PlainCore, NoMemory>
        ensures { IfOk result (λ core. doc_of core ≡ empty_doc guid) }
    {
        Ok(PlainCore {
            alloc,
            guid,
            added: Vec::new(alloc),
            commits: Vec::new(alloc),
            lock: LockRecord::Free,
            editors: Seq::new(alloc),
            parts: Seq::new(alloc),
            drawn: 0,
        })
    }

    /// This document.
    pub fn from_doc(alloc: Global, doc: Doc) -> Result<PlainCore, NoMemory>
        requires { Sound doc }
        ensures { IfOk result (λ core. doc_of core ≡ doc) }
    {
        let Doc {
            guid,
            added,
            commits,
            lock,
            editors,
            parts,
            drawn,
        } = doc;
        Ok(PlainCore {
            alloc,
            guid,
            added: added.into_vec(),
            commits: commits.into_vec(),
            lock,
            editors,
            parts,
            drawn,
        })
    }

    /// Answers, and leaves the document as it is.
    pub(crate) fn read(&self, reply: Reply) -> Plan<Change>
        ensures room { has_room self.now result.fresh ≡ true }
        ensures planned { IsPlanned (reading (doc_of self.now) reply) result (leads_to (doc_of self.now) result.fresh) }
    {
        Plan {
            moved: false,
            reply,
            fresh: Change::Nothing,
        }
    }

    /// Answers what a client lacks that knows these ranges.
    fn plan_pull(&self, known: &[Range]) -> Result<Plan<Change>, NoMemory>
        ensures { IfOk result (λ p. IsPlanned (reading (doc_of self.now) (pull (doc_of self.now) known.now)) p (planned_of self.now p.fresh)) }
    {
        let alloc = self.alloc;
        let added = self.added.as_slice();
        let commits = self.commits.as_slice();
        let reply = pull(alloc, self.guid, added, commits, known)?;
        Ok(self.read(reply))
    }

    // Makes room for so many elements, and a version.
    fn reserve(&mut self, count: usize) -> Result<(), NoMemory>
        ensures same { doc_of self.new ≡ doc_of self.old }
        ensures room { OnOk result (has_places self.new count ≡ true) }
    {
        let Ok(()) = self.added.reserve(count) else {
            return Err(NoMemory);
        };
        let Ok(()) = self.commits.reserve(1) else {
            return Err(NoMemory);
        };
        Ok(())
    }

    /// Makes room for what the change adds.
    pub(crate) fn make_room(&mut self, change: &Change) -> Result<(), NoMemory>
        ensures same { doc_of self.new ≡ doc_of self.old }
        ensures room { OnOk result (has_room self.new change.now ≡ true) }
    {
        match change {
            Change::Commit { fresh, .. } => self.reserve(fresh.len()),
            Change::Restore { fresh, .. } => self.reserve(fresh.len()),
            _ => Ok(()),
        }
    }

    // Numbers up to this one are then drawn.
    fn draw_to(&mut self, drawn: u64)
        requires { nat_le self.old.drawn drawn ≡ true }
        ensures doc { doc_of self.new ≡ record (doc_of self.old) { drawn = drawn } }
        ensures added { self.new.added ≡ self.old.added }
        ensures commits { self.new.commits ≡ self.old.commits }
    {
        self.drawn = drawn;
    }

    // Adds what was committed, for which there is room.
    fn add(&mut self, fresh: Vec<Element>, commit: Commit)
        requires room { has_places self.old (vec_len fresh) ≡ true }
        requires joins { may_join (doc_of self.old) fresh.items commit ≡ true }
        ensures { doc_of self.new ≡ joined (doc_of self.old) fresh.items commit }
    {
        let mut fresh = fresh;
        match self.added.append(&mut fresh) {
            Ok(()) => {}
            Err(_) => unreachable!(),
        }
        match self.commits.push(commit) {
            Ok(()) => {}
            Err(_) => unreachable!(),
        }
    }

    /// Draws so many numbers.
    fn plan_draw(&self, count: u64) -> Plan<Change>
        ensures { IsPlanned (draw (doc_of self.now) count) result (planned_of self.now result.fresh) }
    {
        let last = u64::from(u32::MAX);
        if count >= 1 && count <= 100_000 && self.drawn <= last - count {
            Plan {
                moved: true,
                reply: Reply::Drawn {
                    guid: self.guid,
                    least: self.drawn + 1,
                    greatest: self.drawn + count,
                },
                fresh: Change::Draw {
                    drawn: self.drawn + count,
                },
            }
        } else {
            self.read(Reply::Refused {
                code: Code::NotSupported,
            })
        }
    }
}

impl Core for PlainCore {
    ghost use Rattle.doc_model.specs.rules.Apply.{apply};
    ghost use Rattle.plain_core.specs.Keeping.{doc_of, planned_of};

    type Fresh = Change;

    ghost doc = { doc_of };

    ghost planned = { planned_of };

    fn plan(&mut self, call: &Call) -> Result<Plan<Change>, NoMemory> {
        match &call.sub {
            Sub::Access => Ok(self.read(Reply::Access)),
            Sub::Pull { knowledge } => self.plan_pull(knowledge.ranges.as_slice()),
            Sub::Put { put } => self.plan_put(call.moment, &call.user, put),
            Sub::Draw { count } => Ok(self.plan_draw(*count)),
            Sub::Lock { step } => self.plan_lock(call.moment, step),
            Sub::Editor { step } => self.plan_edit(call.moment, &call.user, step),
            Sub::Versions => self.plan_versions(),
            Sub::Restore { number, carried } => {
                self.plan_restore(call.moment, &call.user, *number, *carried)
            }
            Sub::ReadFile => self.plan_file(),
            Sub::AmIAlone => Ok(self.plan_alone(call.moment)),
            Sub::WhoAmI => self.plan_user(&call.user),
        }
    }

    fn settle(&mut self, plan: Plan<Change>) -> Reply
        requires { IsSome (planned_of self.old plan.fresh) }
        ensures after { planned_of self.old plan.fresh ≡ Some (doc_of self.new) }
        ensures reply { result ≡ plan.reply }
    {
        let Plan { reply, fresh, .. } = plan;
        match fresh {
            Change::Nothing => {}
            Change::Draw { drawn } => self.draw_to(drawn),
            Change::Lock { lock } => self.lock = lock,
            Change::Edit { editors } => self.editors = editors,
            Change::Keep { parts } => self.parts = parts,
            Change::Commit {
                fresh,
                commit,
                parts,
            } => {
                self.add(fresh, commit);
                self.parts = parts;
            }
            Change::Restore {
                fresh,
                commit,
                drawn,
            } => {
                self.draw_to(drawn);
                self.add(fresh, commit);
            }
        }
        reply
    }

    fn guid(&self) -> Guid {
        self.guid
    }

    fn copy(&self, alloc: Global) -> Result<Doc, NoMemory> {
        Ok(Doc {
            guid: self.guid,
            added: copy_all(alloc, self.added.as_slice())?,
            commits: copy_all(alloc, self.commits.as_slice())?,
            lock: self.lock.copied(alloc)?,
            editors: self.editors.copied(alloc)?,
            parts: self.parts.copied(alloc)?,
            drawn: self.drawn,
        })
    }
}

// That a copy is equal holds for each kind of item by its own contract; here it is brought together for a list of any kind.
fn copy_all<T: Copied>(alloc: Global, items: &[T]) -> Result<Seq<T>, NoMemory>
    ensures { IfOk result (λ all. all ≡ items.now) }
{
    Seq::copied_from(alloc, items)
}
