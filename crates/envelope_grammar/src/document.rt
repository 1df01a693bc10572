ghost use Rattle.std.specs.Prelude.{◌≡◌, List, length, Some, None, Err, IfOk, codes};
ghost use Rattle.envelope_grammar.specs.declared.fault.ReadFault.TheVariants as faults;
ghost use Rattle.envelope_grammar.specs.declared.raw.RawRequest.{RawRequest};
ghost use Rattle.envelope_grammar.specs.Answers.{Finds, Gives};
ghost use Rattle.envelope_grammar.specs.Front.{IsEnvelopeText, text_at};
ghost use Rattle.envelope_grammar.specs.Reading.{open_at, close_at, body_at, envelope_at, document_at};

use crate::elements::{collection_of, is_named, version_of};
use crate::fault::ReadFault;
use crate::front::{is_utf8, past_declaration, past_mark};
use crate::lexical::{Kind, past, past_white, run_len};
use crate::raw::RawRequests;
use crate::tag::{Name, Tag};
use crate::tags::{end_tag_at, tag_at};
use std::alloc::Global;

/// The start tag behind white space.
#[tactic(auto, unfolding(crate::specs::Reading::open_at))]
fn open_at(alloc: Global, bytes: &[u8]) -> Result<(Tag, &[u8]), ReadFault>
    ensures { Gives (λ x. (x.0, x.1.now)) result (open_at bytes.now) }
{
    match past(b'<', past_white(bytes)) {
        Some(behind) => tag_at(alloc, behind),
        None => Err(ReadFault::NotInGrammar),
    }
}

/// What stands behind white space and the end tag of this name.
#[tactic(auto, unfolding(crate::specs::Reading::close_at))]
fn close_at<'a>(name: &Name, bytes: &'a [u8]) -> Option<&'a [u8]>
    ensures { Finds (λ rest. rest.now) result (close_at name.now bytes.now) }
{
    let behind = past(b'<', past_white(bytes))?;
    let behind = past(b'/', behind)?;
    end_tag_at(name, behind)
}

/// What stands in a Body.
#[tactic(auto, unfolding(crate::specs::Reading::body_at))]
fn body_at(alloc: Global, bytes: &[u8]) -> Result<(RawRequests, &[u8]), ReadFault>
    ensures { Gives (λ x. (x.0, x.1.now)) result (body_at bytes.now) }
{
    let (tag, rest) = open_at(alloc, bytes)?;
    if is_named(&tag, b"RequestVersion") {
        let rest = version_of(alloc, &tag, rest)?;
        let (second, rest) = open_at(alloc, rest)?;
        collection_of(alloc, &second, rest)
    } else {
        collection_of(alloc, &tag, rest)
    }
}

/// What stands in an Envelope.
#[tactic(auto, unfolding(crate::specs::Reading::envelope_at, crate::specs::Reading::holding))]
fn envelope_at(alloc: Global, bytes: &[u8]) -> Result<(RawRequests, &[u8]), ReadFault>
    ensures { Gives (λ x. (x.0, x.1.now)) result (envelope_at bytes.now) }
{
    let (tag, rest) = open_at(alloc, bytes)?;
    if is_named(&tag, b"Body") && !tag.closed {
        let (requests, rest) = body_at(alloc, rest)?;
        match close_at(&tag.name, rest) {
            Some(rest) => Ok((requests, rest)),
            None => Err(ReadFault::NotInGrammar),
        }
    } else {
        Err(ReadFault::NotInGrammar)
    }
}

/// The requests of the envelope, which the text is as a whole.
#[tactic(auto, unfolding(crate::specs::Reading::document_at, crate::specs::Reading::holding))]
fn document_at(alloc: Global, text: &[u8]) -> Result<RawRequests, ReadFault>
    ensures { Gives (λ x. x) result (document_at text.now) }
{
    let (tag, rest) = open_at(alloc, text)?;
    if is_named(&tag, b"Envelope") && !tag.closed {
        let (requests, rest) = envelope_at(alloc, rest)?;
        match close_at(&tag.name, rest) {
            Some(rest) => {
                if run_len(Kind::White, rest) == rest.len() {
                    Ok(requests)
                } else {
                    Err(ReadFault::NotInGrammar)
                }
            }
            None => Err(ReadFault::NotInGrammar),
        }
    } else {
        Err(ReadFault::NotInGrammar)
    }
}

/// The requests of the envelope behind a byte order mark and a declaration, where all is UTF-8.
#[tactic(auto, unfolding(crate::specs::Front::text_at))]
fn text_at(alloc: Global, text: &[u8]) -> Result<RawRequests, ReadFault>
    ensures { Gives (λ x. x) result (text_at text.now) }
{
    if !is_utf8(text) {
        return Err(ReadFault::NotInGrammar);
    }
    match past_declaration(past_mark(text)) {
        Some(rest) => document_at(alloc, rest),
        None => Err(ReadFault::NotInGrammar),
    }
}

/// The Requests of the envelope that the text is, as they are written. NotInGrammar comes exactly where the text is no
/// envelope, however memory runs. It goes over the text once, and takes memory as the values in it have bytes.
pub fn read_requests(alloc: Global, text: &[u8]) -> Result<RawRequests, ReadFault>
    // What is read stands in the text so.
    ensures found { IfOk result (λ requests. IsEnvelopeText requests text.now) }
    // What the text spells is read, unless memory runs out.
    ensures only { (requests : List RawRequest) → IsEnvelopeText requests text.now → Gives (λ x. x) result (Some requests) }
    // NotInGrammar comes exactly where it spells nothing.
    ensures refused { result ≡ Err faults.NotInGrammar → (requests : List RawRequest) → ¬ IsEnvelopeText requests text.now }
    // The same by the reading that computes.
    ensures computed { Gives (λ x. x) result (text_at text.now) }
{
    text_at(alloc, text)
}
