ghost use Rattle.std.specs.Prelude.{◌≡◌, ◌≤◌, ◌<◌, length, take, drop, ◌==◌, not, IfSome, Some};
ghost use Rattle.std.specs.Option.{option_map};
ghost use Rattle.envelope_grammar.specs.Answers.{Finds};
ghost use Rattle.envelope_grammar.specs.Bytes.{is_white, is_name_start, is_name_byte, run_len};
ghost use Rattle.envelope_grammar.specs.Grammar.{begins};
ghost use Rattle.envelope_grammar.specs.Kinds.{in_kind, name_view};
ghost use Rattle.envelope_grammar.specs.Reading.{past_white, past, word_at, name_at};

use memchr::memchr;

/// A kind of bytes.
#[derive(Clone, Copy)]
pub(crate) enum Kind {
    White,
    Name,
}

/// Whether the byte is of the kind.
pub(crate) fn is_in(kind: Kind, b: u8) -> bool
    ensures { result ≡ in_kind kind b }
{
    match kind {
        Kind::White => b == b' ' || b == b'\t' || b == b'\r' || b == b'\n',
        Kind::Name => is_start(b) || b.is_ascii_digit() || b == b'-' || b == b'.',
    }
}

fn is_start(b: u8) -> bool
    ensures { result ≡ is_name_start b }
{
    (b >= b'A' && b <= b'Z') || (b >= b'a' && b <= b'z') || b == b'_'
}

/// How many bytes at the front are of the kind.
pub(crate) fn run_len(kind: Kind, bytes: &[u8]) -> usize
    ensures run { result ≡ run_len (in_kind kind) bytes.now }
    ensures inside { result ≤ length bytes.now }
{
    for (i, b) in bytes.iter().enumerate() {
        if !is_in(kind, *b) {
            return i;
        }
    }
    bytes.len()
}

/// How many bytes stand before the first one with this value.
pub(crate) fn len_before(end: u8, bytes: &[u8]) -> usize
    ensures run { result ≡ run_len (λ b. not (b == end)) bytes.now }
    ensures inside { result ≤ length bytes.now }
{
    match memchr(end, bytes) {
        Some(at) => at,
        None => bytes.len(),
    }
}

/// What stands behind white space.
pub(crate) fn past_white(bytes: &[u8]) -> &[u8]
    ensures { result.now ≡ past_white bytes.now }
{
    let len = run_len(Kind::White, bytes);
    &bytes[len..]
}

/// What stands behind this byte.
pub(crate) fn past(b: u8, bytes: &[u8]) -> Option<&[u8]>
    ensures { Finds (λ rest. rest.now) result (past b bytes.now) }
{
    match bytes {
        [c, rest @ ..] if *c == b => Some(rest),
        _ => None,
    }
}

#[tactic(auto, unfolding(crate::specs::Reading::word_at))]
fn word_at(bytes: &[u8]) -> Option<(&[u8], &[u8])>
    ensures { Finds (λ x. (x.0.now, x.1.now)) result (word_at bytes.now) }
{
    let len = run_len(Kind::Name, bytes);
    if begins_name(bytes) && len <= 256 {
        Some((&bytes[..len], &bytes[len..]))
    } else {
        None
    }
}

fn begins_name(bytes: &[u8]) -> bool
    ensures { result ≡ begins is_name_start bytes.now }
{
    match bytes {
        [b, ..] => is_start(*b),
        [] => false,
    }
}

/// A name in its parts; the prefix is empty where there is none.
#[derive(Clone, Copy)]
pub(crate) struct NameParts<'a> {
    pub prefix: &'a [u8],
    pub local: &'a [u8],
}

#[tactic(auto, unfolding(crate::specs::Reading::name_at))]
pub(crate) fn name_at(bytes: &[u8]) -> Option<(NameParts, &[u8])>
    ensures { Finds (λ x. (name_view x.0, x.1.now)) result (name_at bytes.now) }
{
    let (word, rest) = word_at(bytes)?;
    match past(b':', rest) {
        None => Some((
            NameParts {
                prefix: &[],
                local: word,
            },
            rest,
        )),
        Some(behind) => {
            let (local, rest) = word_at(behind)?;
            Some((
                NameParts {
                    prefix: word,
                    local,
                },
                rest,
            ))
        }
    }
}
