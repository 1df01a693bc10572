ghost use Rattle.std.specs.Prelude.{◌≡◌, Some, codes};
ghost use Rattle.envelope_grammar.specs.Answers.{Finds};
ghost use Rattle.envelope_grammar.specs.Front.{past_word, past_mark, until_end, behind_first, names_utf8, encoding_fine, past_declaration};
ghost use Rattle.envelope_grammar.specs.Bytes.{is_white};
ghost use Rattle.envelope_grammar.specs.Grammar.{begins};
ghost use Rattle.std.specs.Str.{is_utf8};

use crate::lexical::{Kind, is_in, len_before, past};

/// What stands behind this word.
fn past_word<'a>(word: &[u8], bytes: &'a [u8]) -> Option<&'a [u8]>
    ensures { Finds (λ rest. rest.now) result (past_word word.now bytes.now) }
{
    let mut rest = bytes;
    for w in word {
        rest = past(*w, rest)?;
    }
    Some(rest)
}

/// What stands behind a byte order mark, or all where there is none.
pub(crate) fn past_mark(bytes: &[u8]) -> &[u8]
    ensures { result.now ≡ past_mark bytes.now }
{
    match past_word(b"\xEF\xBB\xBF", bytes) {
        Some(rest) => rest,
        None => bytes,
    }
}

/// What stands up to the first `?>`, and behind it.
fn until_end(bytes: &[u8]) -> Option<(&[u8], &[u8])>
    ensures { Finds (λ x. (x.0.now, x.1.now)) result (until_end bytes.now) }
{
    for i in 0..bytes.len() {
        if let Some(rest) = past_word(b"?>", &bytes[i..]) {
            return Some((&bytes[..i], rest));
        }
    }
    None
}

/// What stands behind the first place of this word.
fn behind_first<'a>(word: &[u8], bytes: &'a [u8]) -> Option<&'a [u8]>
    ensures { Finds (λ rest. rest.now) result (behind_first word.now bytes.now) }
{
    for i in 0..bytes.len() {
        if let Some(rest) = past_word(word, &bytes[i..]) {
            return Some(rest);
        }
    }
    None
}

/// Whether utf-8 stands here in quotes, in any case.
fn names_utf8(behind: &[u8]) -> bool
    ensures { result ≡ names_utf8 (Some behind.now) }
{
    match behind {
        [q, rest @ ..] => {
            let len = len_before(*q, rest);
            (*q == b'"' || *q == b'\'')
                && len < rest.len()
                && rest[..len].eq_ignore_ascii_case(b"utf-8")
        }
        [] => false,
    }
}

/// Whether the declaration names no other encoding.
fn encoding_fine(content: &[u8]) -> bool
    ensures { result ≡ encoding_fine content.now }
{
    match behind_first(b"encoding=", content) {
        Some(behind) => names_utf8(behind),
        None => true,
    }
}

/// What stands behind the declaration, or all where there is none.
#[tactic(auto, unfolding(crate::specs::Front::past_declaration))]
pub(crate) fn past_declaration(bytes: &[u8]) -> Option<&[u8]>
    ensures { Finds (λ rest. rest.now) result (past_declaration bytes.now) }
{
    match past_word(b"<?xml", bytes) {
        None => Some(bytes),
        Some(behind) => {
            if !begins_white(behind) {
                return None;
            }
            let (content, rest) = until_end(behind)?;
            if encoding_fine(content) {
                Some(rest)
            } else {
                None
            }
        }
    }
}

fn begins_white(bytes: &[u8]) -> bool
    ensures { result ≡ begins is_white bytes.now }
{
    match bytes {
        [b, ..] => is_in(Kind::White, *b),
        [] => false,
    }
}

/// Whether the bytes are UTF-8.
pub(crate) fn is_utf8(bytes: &[u8]) -> bool
    ensures { result ≡ is_utf8 bytes.now }
{
    match std::str::from_utf8(bytes) {
        Ok(_) => true,
        Err(_) => false,
    }
}
