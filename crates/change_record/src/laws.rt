//! What holds of all bodies of changes.

ghost use Rattle.std.specs.Prelude.{◌≡◌, List, ℕ};
ghost use Rattle.compact_values.proofs.LittleEndian.{IsBytes};
ghost use Rattle.doc_model.specs.declared.call.Call.{Call};
ghost use Rattle.change_record.specs.Changes.{IsChange};
ghost use Rattle.change_record.specs.FittingCalls.{FitsCall};

/// Bytes are the body of at most one change.
pub fn one_change()
    ensures { (c d : Call) (bytes : List ℕ) → IsBytes bytes → FitsCall c → FitsCall d → IsChange c bytes → IsChange d bytes → c ≡ d }
{}
