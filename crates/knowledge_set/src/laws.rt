//! Laws of the definitions: each function's contract is one, and it does nothing.
ghost use Rattle.knowledge_set.specs.Maximal.{OneMaximalList};

/// Ranges that are in order and as few as can be are told by the numbers that they have.
pub fn a_set_has_one_list()
    ensures { OneMaximalList }
{}
