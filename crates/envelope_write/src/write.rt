// Writing the answer to an envelope.
ghost use Rattle.std.specs.Prelude.{◌≡◌, ◌++◌, length, OnOk, IfOk, codes};
ghost use Rattle.envelope_read.specs.Callable.{subs_of};
ghost use Rattle.envelope_write.specs.Xml.{start_tag};
ghost use Rattle.envelope_write.specs.AnswerText.{subs_text, response_attributes, response_text, responses_text, envelope_text};

use crate::room::with_room;
use crate::sub_response::append_sub;
use crate::xml::{Attribute, append_end, append_start};
use compact_values::{NoMemory, Octets};
use envelope_read::{Ask, Collection, Outcome, Outcomes, SubAsk};
use std::alloc::Global;

const RESPONSE: &[u8] = b"Response";

/// What stands before the Responses, and behind them.
const FRONT: &[u8] =
    b"<?xml version=\"1.0\" encoding=\"utf-8\"?><s:Envelope xmlns:s=\"http://schemas.xmlsoap.org/soap/envelope/\"><s:Body><ResponseVersion Version=\"2\" MinorVersion=\"2\" xmlns=\"http://schemas.microsoft.com/sharepoint/soap/\"/><ResponseCollection WebUrl=\"/\" xmlns=\"http://schemas.microsoft.com/sharepoint/soap/\">";

const END: &[u8] = b"</ResponseCollection></s:Body></s:Envelope>";

/// Adds what is said of each subrequest of a Request.
fn append_subs(
    alloc: Global,
    out: &mut Vec<u8>,
    subs: &[SubAsk],
    outcomes: &[Outcome],
) -> Result<(), NoMemory>
    requires { length subs.now ≡ length outcomes.now }
    ensures { OnOk result (out.new.items ≡ out.old.items ++ subs_text subs.now outcomes.now) }
{
    for i in 0..subs.len() {
        append_sub(alloc, out, &subs[i], &outcomes[i])?;
    }
    Ok(())
}

/// Adds the start tag of a Response, up to what ends it.
fn append_response_start(out: &mut Vec<u8>, ask: &Ask) -> Result<(), NoMemory>
    ensures { OnOk result (out.new.items ≡ out.old.items ++ start_tag (codes "Response") (response_attributes ask.now.url ask.now.token)) }
{
    append_start(
        out,
        RESPONSE,
        &[
            Attribute {
                name: b"Url",
                value: ask.url.as_str().as_bytes(),
            },
            Attribute {
                name: b"RequestToken",
                value: ask.token.as_str().as_bytes(),
            },
            Attribute {
                name: b"HealthScore",
                value: b"0",
            },
        ],
    )
}

/// Adds a Response.
#[tactic(auto, unfolding(crate::specs::AnswerText::response_text))]
fn append_response(
    alloc: Global,
    out: &mut Vec<u8>,
    ask: &Ask,
    outcomes: &[Outcome],
) -> Result<(), NoMemory>
    requires { length ask.now.subs ≡ length outcomes.now }
    ensures { OnOk result (out.new.items ≡ out.old.items ++ response_text ask.now outcomes.now) }
{
    append_response_start(out, ask)?;
    out.extend_from_slice(b">")?;
    append_subs(alloc, out, ask.subs.as_slice(), outcomes)?;
    append_end(out, RESPONSE)
}

/// Adds the Responses, each with as many of the outcomes as it has subrequests.
fn append_responses(
    alloc: Global,
    out: &mut Vec<u8>,
    asks: &[Ask],
    outcomes: &[Outcome],
) -> Result<(), NoMemory>
    requires { subs_of asks.now ≡ length outcomes.now }
    ensures { OnOk result (out.new.items ≡ out.old.items ++ responses_text asks.now outcomes.now) }
{
    let mut rest = outcomes;
    'asks: for i in 0..asks.len() {
        let ask = &asks[i];
        let (own, after) = rest.split_at(ask.subs.len());
        append_response(alloc, out, ask, own)?;
        rest = after;
    }
    Ok(())
}

/// The answer to an envelope (MS-FSSHTTP 2.2.3.4 to 2.2.3.9), in UTF-8: a Response for each Request, with its address and
/// its token, and in it a SubResponse for each subrequest, with its token, its error code and its data. `outcomes` has what
/// became of each subrequest, in the order of the Requests and within each in its order. NoMemory is the only error.
#[tactic(auto, unfolding(crate::specs::AnswerText::envelope_text))]
pub fn write_envelope(
    alloc: Global,
    collection: &Collection,
    outcomes: &Outcomes,
) -> Result<Octets, NoMemory>
    // One for each subrequest.
    requires { subs_of collection.now.requests ≡ length outcomes.now }
    ensures { IfOk result (λ text. text ≡ envelope_text collection.now outcomes.now) }
{
    let mut out = with_room(alloc, collection, outcomes)?;
    out.extend_from_slice(FRONT)?;
    append_responses(
        alloc,
        &mut out,
        collection.requests.as_slice(),
        outcomes.as_slice(),
    )?;
    out.extend_from_slice(END)?;
    Ok(Octets::from_vec(out))
}
