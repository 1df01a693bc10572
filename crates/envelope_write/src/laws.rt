//! What holds of the answer's text itself. Each law is the contract of a function that does nothing.
ghost use Rattle.std.specs.Prelude.{ℕ, List};
ghost use Rattle.std.specs.List.{AllByRecursion};
ghost use Rattle.std.specs.Str.{chars, encode_utf8_all};
ghost use Rattle.envelope_grammar.specs.Grammar.{SpellsText};
ghost use Rattle.envelope_read.specs.declared.collection.Collection.{Collection};
ghost use Rattle.envelope_read.specs.declared.outcome.Outcome.{Outcome};
ghost use Rattle.envelope_write.specs.AnswerText.{envelope_text};
ghost use Rattle.envelope_write.specs.WellFormed.{IsText, HasTexts, AreTexts, IsWellFormed};
ghost use Rattle.envelope_write.specs.Xml.{escaped};

/// Every answer is well-formed XML in UTF-8, whatever addresses, tokens and users stand in it: a declaration and an element
/// of at most 16 levels, by the grammar of envelopes, where the values of attributes may have any length. What is written of
/// a text means that text.
pub fn answers_are_well_formed()
    ensures whole { (collection : Collection) (outcomes : List Outcome) → AreTexts collection.requests → AllByRecursion HasTexts outcomes
        → IsWellFormed (envelope_text collection outcomes) }
    ensures values { (text : List ℕ) → IsText text → SpellsText text (escaped (encode_utf8_all text)) }
{}
