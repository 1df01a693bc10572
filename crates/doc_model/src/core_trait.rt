ghost use Rattle.std.specs.Prelude.{◌≡◌, Some, IfOk, IsSome, Option};
ghost use Rattle.doc_model.specs.declared.doc.Doc.{Doc};
ghost use Rattle.doc_model.specs.rules.Apply.{apply, IsPlanned};
ghost use Rattle.doc_model.specs.rules.Sound.{Valid};

use crate::call::Call;
use crate::doc::Doc;
use crate::reply::Reply;
use compact_values::{Guid, NoMemory};
use std::alloc::Global;

/// What a call will do, with all the memory for it: whether it changes the document, and its reply. A plan that is dropped
/// changes nothing.
#[derive(Drop)]
pub struct Plan<F> {
    pub moved: bool,
    pub reply: Reply,
    pub fresh: F,
}

/// A document, however it is kept. A call is planned and then settled; between the two its change can be written elsewhere.
pub trait Core: Drop {
    /// What a plan holds beside its reply.
    type Fresh: Drop;

    /// The document that it is.
    ghost doc: { Self → Doc };

    /// The document that it becomes by a plan which was made for it as it is now.
    ghost planned: { Self → Self.Fresh → Option Doc };

    /// Looks at a call, and takes all memory for it. The document stays as it was.
    fn plan(&mut self, call: &Call) -> Result<Plan<Self::Fresh>, NoMemory>
        requires { Valid call.now }
        ensures stays { doc self.new ≡ doc self.old }
        ensures planned { IfOk result (λ p. IsPlanned (apply (doc self.old) call.now) p (planned self.new p.fresh)) };

    /// Does what was planned for the present document, and answers its reply. It takes no memory and has no refusal.
    fn settle(&mut self, plan: Plan<Self::Fresh>) -> Reply
        requires { IsSome (planned self.old plan.fresh) }
        ensures after { planned self.old plan.fresh ≡ Some (doc self.new) }
        ensures reply { result ≡ plan.reply };

    /// The document's GUID.
    fn guid(&self) -> Guid
        ensures { result ≡ (doc self.now).guid };

    /// The document as plain data of its own.
    fn copy(&self, alloc: Global) -> Result<Doc, NoMemory>
        ensures { IfOk result (λ d. d ≡ doc self.now) };
}
