//! What holds of the grammar itself. Each law is the contract of a function that does nothing.
ghost use Rattle.std.specs.Prelude.{◌≡◌, ◌↔◌, ℕ, List, Some};
ghost use Rattle.std.specs.Str.{IsUtf8};
ghost use Rattle.envelope_grammar.specs.Front.{IsEnvelopeText, text_at};
ghost use Rattle.envelope_grammar.specs.declared.raw.RawRequest.{RawRequest};

/// A text is in the grammar as at most one tree, so at each place at most one case of the grammar holds.
pub fn one_tree()
    ensures { (text : List ℕ) (one other : List RawRequest) → IsEnvelopeText one text → IsEnvelopeText other text → one ≡ other }
{}

/// Beside the grammar stands a reading that computes, and both agree.
pub fn grammar_is_read()
    ensures { (text : List ℕ) (requests : List RawRequest) → IsEnvelopeText requests text ↔ (text_at text ≡ Some requests) }
{}
