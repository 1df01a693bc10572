ghost use Rattle.std.specs.Prelude.{◌≡◌, ◌≤◌, ◌<◌, length, take, drop, IfSome, IfOk, IfErr, Some, None};
ghost use Rattle.envelope_grammar.specs.Answers.{Fails, Finds, Gives};
ghost use Rattle.envelope_grammar.specs.Grammar.{digit_of, numbered, numeric, hashed, character_of};
ghost use Rattle.envelope_grammar.specs.Reading.{characters, in_front, meaning, reference_at, text_of, value_until, quoted_at};

use crate::fault::ReadFault;
use crate::lexical::{len_before, past};
use compact_values::Text;
use std::alloc::Global;

/// The value of a digit, and 16 for any other byte.
fn digit_of(d: u8) -> u32
    ensures { result ≡ digit_of d }
{
    match d {
        b'0'..=b'9' => u32::from(d - 48),
        b'A'..=b'F' => u32::from(d - 55),
        b'a'..=b'f' => u32::from(d - 87),
        _ => 16,
    }
}

/// The character that one or more digits name.
fn numbered(base: u32, digits: &[u8]) -> Option<char>
    requires low { 1 ≤ base }
    requires high { base ≤ 16 }
    ensures { result ≡ numbered base digits.now }
{
    if digits.is_empty() {
        return None;
    }
    let mut high = 0_u32;
    for d in digits {
        let digit = digit_of(*d);
        if digit >= base {
            return None;
        }
        high = high * base + digit;
        if high > 0x10_FFFF {
            return None;
        }
    }
    char::from_u32(high)
}

/// Decimal, or hexadecimal behind an `x`.
fn numeric(digits: &[u8]) -> Option<char>
    ensures { result ≡ numeric digits.now }
{
    match digits {
        [] => None,
        [b'x', digits @ ..] => numbered(16, digits),
        [_, ..] => numbered(10, digits),
    }
}

fn hashed(name: &[u8]) -> Option<char>
    ensures { result ≡ hashed name.now }
{
    match name {
        [b'#', rest @ ..] => numeric(rest),
        _ => None,
    }
}

/// The character that stands for what is between `&` and `;`.
#[tactic(auto, unfolding(crate::specs::Grammar::character_of))]
fn character_of(name: &[u8]) -> Option<char>
    ensures { result ≡ character_of name.now }
{
    match name {
        b"amp" => Some('&'),
        b"lt" => Some('<'),
        b"gt" => Some('>'),
        b"quot" => Some('"'),
        b"apos" => Some('\''),
        _ => hashed(name),
    }
}

/// The bytes as a text.
fn characters(bytes: Vec<u8>) -> Option<Text>
    ensures { result ≡ characters bytes.items }
{
    match String::from_utf8(bytes) {
        Ok(text) => Some(Text::from_string(text)),
        Err(_) => None,
    }
}

/// The character of a reference behind its `&`, and what stands behind its `;`.
#[tactic(auto, unfolding(crate::specs::Reading::reference_at))]
fn reference_at(bytes: &[u8]) -> Option<(char, &[u8])>
    ensures { Finds (λ x. (x.0, x.1.now)) result (reference_at bytes.now) }
{
    let len = len_before(b';', bytes);
    let behind = past(b';', &bytes[len..])?;
    let c = character_of(&bytes[..len])?;
    Some((c, behind))
}

/// Adds what the characters up to the first reference mean, and that reference, and gives what stands behind it.
fn add_piece<'a>(out: &mut Vec<u8>, bytes: &'a [u8]) -> Result<&'a [u8], ReadFault>
    requires { 1 ≤ length bytes.now }
    ensures shorter { IfOk result (λ rest. length rest.now < length bytes.now) }
    ensures means { IfOk result (λ rest. in_front out.new.items (meaning None rest.now) ≡ in_front out.old.items (meaning None bytes.now)) }
    ensures refused { IfErr result (λ fault. Fails fault (meaning None bytes.now)) }
{
    let len = len_before(b'&', bytes);
    out.extend_from_slice(&bytes[..len])?;
    let Some(behind) = past(b'&', &bytes[len..]) else {
        return Ok(&bytes[bytes.len()..]);
    };
    let Some((c, rest)) = reference_at(behind) else {
        return Err(ReadFault::NotInGrammar);
    };
    out.extend_from_slice(c.encode_utf8(&mut [0; 4]).as_bytes())?;
    Ok(rest)
}

/// What written bytes mean, or nothing where a reference is out of form.
fn meaning(alloc: Global, written: &[u8]) -> Result<Vec<u8>, ReadFault>
    ensures { Gives (λ v. v.items) result (meaning None written.now) }
{
    let mut out = Vec::new(alloc);
    let mut rest = written;
    'pieces: while !rest.is_empty() {
        rest = add_piece(&mut out, rest)?;
    }
    Ok(out)
}

/// What written characters and references mean.
#[tactic(auto, unfolding(crate::specs::Reading::text_of))]
pub(crate) fn text_of(alloc: Global, written: &[u8]) -> Result<Text, ReadFault>
    ensures { Gives (λ t. t) result (text_of written.now) }
{
    let bytes = meaning(alloc, written)?;
    match characters(bytes) {
        Some(text) => Ok(text),
        None => Err(ReadFault::NotInGrammar),
    }
}

/// The value up to this closing quote, and what stands behind it.
#[tactic(auto, unfolding(crate::specs::Reading::value_until))]
fn value_until(alloc: Global, quote: u8, bytes: &[u8]) -> Result<(Text, &[u8]), ReadFault>
    ensures { Gives (λ x. (x.0, x.1.now)) result (value_until quote bytes.now) }
{
    let len = len_before(quote, bytes);
    let Some(rest) = past(quote, &bytes[len..]) else {
        return Err(ReadFault::NotInGrammar);
    };
    let written = &bytes[..len];
    if len <= 4096 && len_before(b'<', written) == len {
        let text = text_of(alloc, written)?;
        Ok((text, rest))
    } else {
        Err(ReadFault::NotInGrammar)
    }
}

/// The value in quotes at the front.
#[tactic(auto, unfolding(crate::specs::Reading::quoted_at))]
pub(crate) fn quoted_at(alloc: Global, bytes: &[u8]) -> Result<(Text, &[u8]), ReadFault>
    ensures { Gives (λ x. (x.0, x.1.now)) result (quoted_at bytes.now) }
{
    match bytes {
        [q, rest @ ..] if *q == b'"' || *q == b'\'' => value_until(alloc, *q, rest),
        _ => Err(ReadFault::NotInGrammar),
    }
}
