// Reading an envelope.
ghost use Rattle.std.specs.Prelude.{◌≡◌, ◌+◌, ◌≤◌, length, nat_lt, IfOk, IfErr};
ghost use Rattle.envelope_read.specs.Verdicts.{most_subs, sub_count, ask_with, subs_from, asks_from, Reads, Refuses};

use crate::asked::sub_of;
use crate::collection::{Ask, Asks, Collection, SubAsks};
use crate::fault::EnvelopeFault;
use crate::lookup::text_of;
use compact_values::{NoMemory, Seq};
use envelope_grammar::{RawRequest, RawSub, ReadFault, read_requests};
use std::alloc::Global;

/// How many subrequests an envelope may have.
pub const MOST_SUBS: usize = 64;

/// Whether there are more than `MOST_SUBS` subrequests.
fn are_too_many(requests: &[RawRequest]) -> bool
    ensures { result ≡ nat_lt most_subs (sub_count requests.now) }
{
    let mut left = MOST_SUBS;
    for request in requests {
        if request.subs.len() > left {
            return true;
        }
        left -= request.subs.len();
    }
    false
}

/// What the subrequests ask, the first of them being the one with this number in the envelope; or the number of the first
/// whose base64 is refused.
fn subs_from(
    alloc: Global,
    first: usize,
    subs: &[RawSub],
) -> Result<Result<SubAsks, usize>, NoMemory>
    requires { first + length subs.now ≤ most_subs }
    ensures { IfOk result (λ found. found ≡ subs_from first subs.now) }
{
    let mut asks = Seq::new(alloc);
    for (i, sub) in subs.iter().enumerate() {
        match sub_of(alloc, sub)? {
            Some(ask) => asks.push(ask)?,
            None => return Ok(Err(first + i)),
        }
    }
    Ok(Ok(asks))
}

/// What one Request asks, by its subrequests.
fn ask_with(alloc: Global, request: &RawRequest, subs: SubAsks) -> Result<Ask, NoMemory>
    ensures { IfOk result (λ ask. ask ≡ ask_with request.now subs) }
{
    let attributes = request.attributes.as_slice();
    let url = text_of(alloc, b"Url", attributes)?;
    let token = text_of(alloc, b"RequestToken", attributes)?;
    Ok(Ask { url, token, subs })
}

/// What the Requests ask, or the number of the first subrequest whose base64 is refused.
fn asks_of(alloc: Global, requests: &[RawRequest]) -> Result<Result<Asks, usize>, NoMemory>
    requires { sub_count requests.now ≤ most_subs }
    ensures { IfOk result (λ found. found ≡ asks_from 0 requests.now) }
{
    let mut asks = Seq::new(alloc);
    let mut seen = 0;
    for request in requests {
        match subs_from(alloc, seen, request.subs.as_slice())? {
            Ok(subs) => asks.push(ask_with(alloc, request, subs)?)?,
            Err(sub) => return Ok(Err(sub)),
        }
        seen += request.subs.len();
    }
    Ok(Ok(asks))
}

/// What an envelope asks for, or why it is refused: the first refusal in the order of `EnvelopeFault`. A text is the
/// envelope of at most one Collection, which `verdict` computes.
pub fn read_envelope(alloc: Global, text: &[u8]) -> Result<Collection, EnvelopeFault>
    ensures reads { Reads text.now result }
    ensures refusals { IfErr result (Refuses text.now) }
{
    let requests = match read_requests(alloc, text) {
        Ok(requests) => requests,
        Err(ReadFault::NotInGrammar) => return Err(EnvelopeFault::NotInGrammar { place: 0 }),
        Err(ReadFault::NoMemory) => return Err(EnvelopeFault::NoMemory),
    };
    if are_too_many(requests.as_slice()) {
        return Err(EnvelopeFault::TooMany);
    }
    match asks_of(alloc, requests.as_slice())? {
        Ok(requests) => Ok(Collection { requests }),
        Err(sub) => Err(EnvelopeFault::BadBase64 { sub }),
    }
}
