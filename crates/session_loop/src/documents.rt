// Documents that are kept in memory alone.
ghost use Rattle.std.specs.Prelude.{◌≡◌};
ghost use Rattle.doc_model.specs.rules.Sound.{Valid};
ghost use Rattle.session_loop.specs.Documents.{IsSubmitted, IsLone};

use compact_values::Names;
use doc_model::{Call, Core, Submitted};

/// A core that is kept in memory alone, and the number of changes since it was made.
#[derive(Drop)]
pub struct CoreDoc<C: Core> {
    pub core: C,
    pub front: u64,
}

/// Documents in the order of their names.
pub type CoreDocs<C> = Vec<CoreDoc<C>>;

/// The documents that a connection is served over, and as many names.
#[derive(Drop)]
pub struct LoneDocs<C: Core> {
    pub names: Names,
    pub docs: CoreDocs<C>,
}

impl<C: Core> CoreDoc<C> {
    /// A document without changes. It takes no memory.
    pub fn new(core: C) -> CoreDoc<C>
        ensures { result ≡ record { core = core; front = 0 } }
    {
        CoreDoc { core, front: 0 }
    }

    /// Makes the call: it is `Answered`, or there is no memory for it and nothing has changed.
    pub fn submit(&mut self, call: &Call) -> Submitted
        requires { Valid call.now }
        ensures lone { IsLone result }
        ensures submitted { IsSubmitted (record { doc = C.doc self.old.core; front = self.old.front }) call.now result
            (record { doc = C.doc self.new.core; front = self.new.front }) }
    {
        let Some(next) = self.front.checked_add(1) else {
            return Submitted::NoMemory;
        };
        match self.core.plan(call) {
            Ok(plan) => {
                let moved = plan.moved;
                let reply = self.core.settle(plan);
                if moved {
                    self.front = next;
                }
                Submitted::Answered { reply }
            }
            Err(_) => Submitted::NoMemory,
        }
    }

    /// The number of changes.
    pub fn front(&self) -> u64
        ensures { result ≡ self.now.front }
    {
        self.front
    }
}
