ghost use Rattle.std.specs.Prelude.{◌≡◌, ◌+◌, ◌≤◌, ◌<◌, ◌++◌, length, take, drop, IfOk, Some, None};
ghost use Rattle.envelope_grammar.specs.Answers.{Finds, Gives};
ghost use Rattle.envelope_grammar.specs.Kinds.{inside_view};
ghost use Rattle.envelope_grammar.specs.Reading.{own_text_at, inside_step, content_at, past_content, skipped};

use crate::fault::ReadFault;
use crate::lexical::{len_before, past};
use crate::tag::Tag;
use crate::tags::{end_tag_at, tag_at};
use crate::value::text_of;
use compact_values::{NoMemory, Text};
use std::alloc::Global;

/// Characters, and what stands behind them: an element that was skipped, or the end.
#[derive(Drop)]
pub(crate) enum Inside {
    More(Text),
    Last(Text),
}

/// Characters up to the next tag.
#[tactic(auto, unfolding(crate::specs::Reading::own_text_at))]
fn own_text_at(alloc: Global, bytes: &[u8]) -> Result<(Text, &[u8]), ReadFault>
    ensures { Gives (λ x. (x.0, x.1.now)) result (own_text_at bytes.now) }
{
    let len = len_before(b'<', bytes);
    let text = text_of(alloc, &bytes[..len])?;
    Ok((text, &bytes[len..]))
}

/// Characters, and behind them an element that is skipped or the `</` of the end.
#[cycle(skipping)]
#[tactic(auto, unfolding(crate::specs::Reading::inside_step))]
pub(crate) fn inside_step(
    alloc: Global,
    levels: u8,
    bytes: &[u8],
) -> Result<(Inside, &[u8]), ReadFault>
    ensures { Gives (λ x. (inside_view x.0, x.1.now)) result (inside_step (skipped levels) bytes.now) }
{
    let (text, rest) = own_text_at(alloc, bytes)?;
    let Some(behind) = past(b'<', rest) else {
        return Err(ReadFault::NotInGrammar);
    };
    match past(b'/', behind) {
        Some(rest) => Ok((Inside::Last(text), rest)),
        None => {
            let (tag, rest) = tag_at(alloc, behind)?;
            let rest = skipped(alloc, levels, &tag, rest)?;
            Ok((Inside::More(text), rest))
        }
    }
}

/// What stands behind the element of this tag, which has at most so many levels.
#[cycle(skipping)]
#[tactic(auto, unfolding(crate::specs::Reading::skipped))]
pub(crate) fn skipped<'a>(
    alloc: Global,
    levels: u8,
    tag: &Tag,
    bytes: &'a [u8],
) -> Result<&'a [u8], ReadFault>
    ensures { Gives (λ rest. rest.now) result (skipped levels tag.now bytes.now) }
{
    if levels == 0 {
        return Err(ReadFault::NotInGrammar);
    }
    if tag.closed {
        return Ok(bytes);
    }
    let rest = past_content(alloc, levels - 1, bytes)?;
    match end_tag_at(&tag.name, rest) {
        Some(rest) => Ok(rest),
        None => Err(ReadFault::NotInGrammar),
    }
}

/// What stands behind the `</` at the end of the content.
#[cycle(skipping)]
fn past_content(alloc: Global, levels: u8, bytes: &[u8]) -> Result<&[u8], ReadFault>
    ensures { Gives (λ rest. rest.now) result (past_content (skipped levels) bytes.now) }
{
    let mut rest = bytes;
    'reading: for _ in 0..bytes.len() {
        let (inside, after) = inside_step(alloc, levels, rest)?;
        rest = after;
        if let Inside::Last(_) = inside {
            return Ok(rest);
        }
    }
    Err(ReadFault::NotInGrammar)
}

/// Both texts, the second behind the first. Where the first has no characters, none is copied.
fn joined(front: Text, more: Text) -> Result<Text, NoMemory>
    ensures { IfOk result (λ all. all ≡ front ++ more) }
{
    if front.is_empty() {
        return Ok(more);
    }
    let mut all = front;
    all.push_str(more.as_str())?;
    Ok(all)
}

/// The characters outside elements, and what stands behind the `</` at the end of the content.
#[tactic(auto, unfolding(crate::specs::Reading::content_at))]
pub(crate) fn content_at(
    alloc: Global,
    levels: u8,
    bytes: &[u8],
) -> Result<(Text, &[u8]), ReadFault>
    ensures { Gives (λ x. (x.0, x.1.now)) result (content_at (skipped levels) bytes.now) }
{
    let mut text = Text::new(alloc);
    let mut rest = bytes;
    'reading: for _ in 0..bytes.len() {
        let (inside, after) = inside_step(alloc, levels, rest)?;
        rest = after;
        match inside {
            Inside::More(more) => text = joined(text, more)?,
            Inside::Last(last) => return Ok((joined(text, last)?, rest)),
        }
    }
    Err(ReadFault::NotInGrammar)
}
