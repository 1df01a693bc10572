//! What holds of all callers of a host together.

ghost use Rattle.doc_host.specs.Callers.{AllAreOneThread};

/// A document whose host was closed by the pass with all numbers: all answered calls of all callers are one thread's run on it.
pub fn the_callers_of_a_document_are_one_thread()
    ensures { AllAreOneThread }
{}
