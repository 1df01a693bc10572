//! What holds of the definitions themselves. Each law is the contract of a function that does nothing.
ghost use Rattle.std.specs.Prelude.{◌≡◌, ◌<◌, ◌≤◌, ◌^◌, ℕ, List, Ok, length};
ghost use Rattle.doc_model.specs.rules.Sound.{Valid};
ghost use Rattle.doc_model.specs.declared.call.Call.{Call};
ghost use Rattle.envelope_read.specs.Callable.{IsCallable, AreCallable, AreCellsWithin, subs_of};
ghost use Rattle.envelope_read.specs.Verdicts.{most_subs, verdict};
ghost use Rattle.envelope_read.specs.declared.collection.Collection.{Collection};
ghost use Rattle.envelope_read.specs.declared.collection.What.TheVariants.{Plain};

/// An envelope that is read has at most 64 subrequests.
pub fn few_subrequests()
    ensures { (text : List ℕ) (collection : Collection) → verdict text ≡ Ok collection → subs_of collection.requests ≤ most_subs }
{}

/// What an envelope asks for plainly may be asked of a document, at every moment and by every user that a call may have.
pub fn calls_may_be_made()
    ensures callable { (text : List ℕ) (collection : Collection) → verdict text ≡ Ok collection → AreCallable collection }
    ensures valid { (call : Call) → call.moment < 2 ^ 40 → IsCallable (Plain call.sub) → Valid call }
{}

/// A Cell has at most as many bytes as the envelope: from a body of at most 25,165,824 bytes, at most so many.
pub fn cells_are_within()
    ensures { (text : List ℕ) (collection : Collection) (most : ℕ) → length text ≤ most → verdict text ≡ Ok collection → AreCellsWithin most collection }
{}
