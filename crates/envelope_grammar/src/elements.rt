ghost use Rattle.std.specs.Prelude.{◌≡◌, ℕ, List, Option, length, IfOk, Some, None, OnOk, OnErr, ◌++◌, codes};
ghost use Rattle.std.specs.Str.{bytes_eq};
ghost use Rattle.envelope_grammar.specs.declared.tag.Tag.{Tag};
ghost use Rattle.envelope_grammar.specs.Answers.{Finds, Gives};
ghost use Rattle.envelope_grammar.specs.Grammar.{present};
ghost use Rattle.envelope_grammar.specs.Kinds.{step_or_end};
ghost use Rattle.envelope_grammar.specs.Reading.{all_of, element_step, elements, payload_of, sub_child_of, sub_of, request_of, collection_of, at_most_one, no_child, version_of};

use crate::fault::ReadFault;
use crate::lexical::{past, past_white};
use crate::raw::{Payload, RawRequest, RawRequests, RawSub};
use crate::skipping::{content_at, skipped};
use crate::tag::Tag;
use crate::tags::{end_tag_at, tag_at};
use compact_values::{Seq, Text};
use std::alloc::Global;

/// A kind of element among white space.
pub(crate) trait Child {
    type Item: Drop;

    /// The element of this tag, and what stands behind it.
    ghost reads: { Tag → List ℕ → Option (Self.Item × List ℕ) };

    /// Reads the element whose start tag was read.
    fn read<'a>(
        alloc: Global,
        tag: Tag,
        bytes: &'a [u8],
    ) -> Result<(Self::Item, &'a [u8]), ReadFault>
        ensures { Gives (λ x. (x.0, x.1.now)) result (reads tag bytes.now) };
}

/// White space, and behind it an element or the `</` of the end.
#[tactic(auto, unfolding(crate::specs::Reading::element_step))]
fn element_step<C: Child>(
    alloc: Global,
    bytes: &[u8],
) -> Result<(Option<C::Item>, &[u8]), ReadFault>
    ensures { Gives (λ x. (step_or_end x.0, x.1.now)) result (element_step C.reads bytes.now) }
{
    let Some(behind) = past(b'<', past_white(bytes)) else {
        return Err(ReadFault::NotInGrammar);
    };
    match past(b'/', behind) {
        Some(rest) => Ok((None, rest)),
        None => {
            let (tag, rest) = tag_at(alloc, behind)?;
            let (item, rest) = C::read(alloc, tag, rest)?;
            Ok((Some(item), rest))
        }
    }
}

/// The elements up to the `</` of the end.
fn children<C: Child>(alloc: Global, bytes: &[u8]) -> Result<(Seq<C::Item>, &[u8]), ReadFault>
    ensures { Gives (λ x. (x.0, tt, x.1.now)) result (all_of (element_step C.reads) bytes.now) }
{
    let mut items = Seq::new(alloc);
    let mut rest = bytes;
    'reading: for _ in 0..bytes.len() {
        let (step, after) = element_step::<C>(alloc, rest)?;
        let Some(item) = step else {
            return Ok((items, after));
        };
        items.push(item)?;
        rest = after;
    }
    Err(ReadFault::NotInGrammar)
}

/// The elements in the element of this tag, and what stands behind it.
#[tactic(auto, unfolding(crate::specs::Reading::elements))]
fn elements<'a, C: Child>(
    alloc: Global,
    tag: &Tag,
    bytes: &'a [u8],
) -> Result<(Seq<C::Item>, &'a [u8]), ReadFault>
    ensures { Gives (λ x. (x.0, x.1.now)) result (elements C.reads tag.now bytes.now) }
{
    if tag.closed {
        return Ok((Seq::new(alloc), bytes));
    }
    let (items, rest) = children::<C>(alloc, bytes)?;
    match end_tag_at(&tag.name, rest) {
        Some(rest) => Ok((items, rest)),
        None => Err(ReadFault::NotInGrammar),
    }
}

pub(crate) fn is_named(tag: &Tag, word: &[u8]) -> bool
    ensures { result ≡ bytes_eq tag.now.name.local word.now }
{
    tag.name.local.as_slice() == word
}

/// What a SubRequestData holds, and what stands behind it.
#[tactic(auto, unfolding(crate::specs::Reading::payload_of))]
fn payload_of<'a>(
    alloc: Global,
    tag: Tag,
    bytes: &'a [u8],
) -> Result<(Payload, &'a [u8]), ReadFault>
    ensures { Gives (λ x. (x.0, x.1.now)) result (payload_of tag bytes.now) }
{
    if tag.closed {
        let text = Text::new(alloc);
        let payload = Payload {
            attributes: tag.attributes,
            text,
        };
        return Ok((payload, bytes));
    }
    let (text, rest) = content_at(alloc, 16, bytes)?;
    match end_tag_at(&tag.name, rest) {
        Some(rest) => Ok((
            Payload {
                attributes: tag.attributes,
                text,
            },
            rest,
        )),
        None => Err(ReadFault::NotInGrammar),
    }
}

/// What stands in a SubRequest.
struct SubChild;

impl Child for SubChild {
    type Item = Option<Payload>;

    ghost reads = { sub_child_of };

    #[tactic(auto, unfolding(crate::specs::Reading::sub_child_of))]
    fn read<'a>(
        alloc: Global,
        tag: Tag,
        bytes: &'a [u8],
    ) -> Result<(Option<Payload>, &'a [u8]), ReadFault> {
        if is_named(&tag, b"SubRequestData") {
            let (payload, rest) = payload_of(alloc, tag, bytes)?;
            Ok((Some(payload), rest))
        } else {
            let rest = skipped(alloc, 16, &tag, bytes)?;
            Ok((None, rest))
        }
    }
}

/// The one that is there, or nothing.
fn at_most_one(parts: Seq<Option<Payload>>) -> Option<Option<Payload>>
    ensures { result ≡ at_most_one (present parts) }
{
    let mut parts = parts.into_vec();
    let mut found = None;
    'parts: while let Some(part) = parts.pop() {
        if let Some(payload) = part {
            if found.is_some() {
                return None;
            }
            found = Some(payload);
        }
    }
    Some(found)
}

struct SubRequest;

impl Child for SubRequest {
    type Item = RawSub;

    ghost reads = { sub_of };

    #[tactic(auto, unfolding(crate::specs::Reading::sub_of))]
    fn read<'a>(alloc: Global, tag: Tag, bytes: &'a [u8]) -> Result<(RawSub, &'a [u8]), ReadFault> {
        if !is_named(&tag, b"SubRequest") {
            return Err(ReadFault::NotInGrammar);
        }
        let (parts, rest) = elements::<SubChild>(alloc, &tag, bytes)?;
        match at_most_one(parts) {
            Some(payload) => Ok((
                RawSub {
                    attributes: tag.attributes,
                    payload,
                },
                rest,
            )),
            None => Err(ReadFault::NotInGrammar),
        }
    }
}

struct Request;

impl Child for Request {
    type Item = RawRequest;

    ghost reads = { request_of };

    #[tactic(auto, unfolding(crate::specs::Reading::request_of))]
    fn read<'a>(
        alloc: Global,
        tag: Tag,
        bytes: &'a [u8],
    ) -> Result<(RawRequest, &'a [u8]), ReadFault> {
        if !is_named(&tag, b"Request") {
            return Err(ReadFault::NotInGrammar);
        }
        let (subs, rest) = elements::<SubRequest>(alloc, &tag, bytes)?;
        Ok((
            RawRequest {
                attributes: tag.attributes,
                subs,
            },
            rest,
        ))
    }
}

/// The requests of a RequestCollection, and what stands behind it.
#[tactic(auto, unfolding(crate::specs::Reading::collection_of))]
pub(crate) fn collection_of<'a>(
    alloc: Global,
    tag: &Tag,
    bytes: &'a [u8],
) -> Result<(RawRequests, &'a [u8]), ReadFault>
    ensures { Gives (λ x. (x.0, x.1.now)) result (collection_of tag.now bytes.now) }
{
    if is_named(tag, b"RequestCollection") {
        elements::<Request>(alloc, tag, bytes)
    } else {
        Err(ReadFault::NotInGrammar)
    }
}

/// No element at all.
struct Never;

impl Child for Never {
    type Item = ();

    ghost reads = { no_child };

    fn read<'a>(_alloc: Global, _tag: Tag, _bytes: &'a [u8]) -> Result<((), &'a [u8]), ReadFault> {
        Err(ReadFault::NotInGrammar)
    }
}

/// What stands behind an element with nothing but white space in it.
pub(crate) fn version_of<'a>(
    alloc: Global,
    tag: &Tag,
    bytes: &'a [u8],
) -> Result<&'a [u8], ReadFault>
    ensures { Gives (λ rest. rest.now) result (version_of tag.now bytes.now) }
{
    let (_none, rest) = elements::<Never>(alloc, tag, bytes)?;
    Ok(rest)
}
