//! What holds of responses themselves. Each law is the contract of a function that does nothing.

ghost use Rattle.std.specs.Prelude.{◌≡◌, ◌<◌, ◌≤◌, ◌^◌, ℕ, List, length, get_or};
ghost use Rattle.std.specs.List.{AllByRecursion};
ghost use Rattle.doc_model.specs.wire.Responses.{response, failure};
ghost use Rattle.doc_model.specs.wire.SeenResponses.{ReadsAs};
ghost use Rattle.doc_model.specs.declared.reply.Answer.{Answer};
ghost use Rattle.doc_model.specs.declared.response.CellResponse.{CellResponse};
ghost use Rattle.data_elements.specs.declared.wire_fault.WireFault.TheVariants.{SchemaFault};
ghost use Rattle.wire_responses.specs.ResponseAnswers.{IsRefusal};
ghost use Rattle.wire_responses.specs.Seeing.{FitsAnswer, seen, response_objects};
ghost use Rattle.doc_model.specs.rules.Limits.{most_elements, most_objects};

/// Bytes are read as at most one response.
pub fn one_response()
    ensures { (bytes : List ℕ) (r s : CellResponse) → ((i : ℕ) → get_or bytes i 0 < 256) → ReadsAs bytes r → ReadsAs bytes s → r ≡ s }
{}

/// A written response is read as the same answers and elements again, where its numbers are in the ranges of their fields, each
/// answer that isn't an error is that of a sub-request of its kind, and there are not too many elements and objects.
pub fn written_response()
    ensures { (answers : List Answer) → AllByRecursion FitsAnswer answers → length (seen answers).elements ≤ most_elements → response_objects answers ≤ most_objects → ReadsAs (response answers) (seen answers) }
{}

/// What says that the whole request failed is in the form of no response.
pub fn failed_request()
    ensures { (number : ℕ) → number < 2 ^ 32 → (place : ℕ) × IsRefusal (failure number) (SchemaFault place) }
{}
