// The values of the header fields of a head.
ghost use Rattle.std.specs.Prelude.{◌≡◌, ◌∷◌, List, ℕ, All, length, map};
ghost use Rattle.std.specs.List.{list_any};
ghost use Rattle.httparse.specs.Spans.{IsHeaderWithin, IsWithin, header_bytes, span_bytes};
ghost use Rattle.http_head.specs.Words.{same_word, values_of};
ghost use Rattle.http_head.specs.Requests.{AreValues};

use crate::words::same_word;
use httparse::spans::{HeaderSpan, Span};

/// What is there of one header's values.
#[derive(Clone, Copy)]
pub enum Values {
    Absent,
    One { value: Span },
    Several { first: Span },
}

fn with_value(value: Span, values: Values) -> Values
    ensures { (bytes : List ℕ) (all : List (List ℕ)) → IsWithin (length bytes) value → AreValues bytes values all
        → AreValues bytes result (span_bytes bytes value ∷ all) }
{
    match values {
        Values::Absent => Values::One { value },
        Values::One { value: _ } => Values::Several { first: value },
        Values::Several { first: _ } => Values::Several { first: value },
    }
}

/// The values of the header with this name.
pub fn values_of(bytes: &[u8], headers: &[HeaderSpan], name: &[u8]) -> Values
    requires { All (IsHeaderWithin (length bytes.now)) headers.now }
    ensures { AreValues bytes.now result (values_of name.now (map (header_bytes bytes.now) headers.now)) }
{
    let mut values = Values::Absent;
    let mut at = headers.len();
    while at > 0 {
        at -= 1;
        let header = headers[at];
        if same_word(header.name.of(bytes), name) {
            values = with_value(header.value, values);
        }
    }
    values
}

/// Whether one of the values of this header is this word.
pub fn has_word(bytes: &[u8], headers: &[HeaderSpan], name: &[u8], word: &[u8]) -> bool
    requires { All (IsHeaderWithin (length bytes.now)) headers.now }
    ensures { result ≡ list_any (λ value. same_word value word.now) (values_of name.now (map (header_bytes bytes.now) headers.now)) }
{
    let mut found = false;
    let mut at = headers.len();
    while at > 0 {
        at -= 1;
        let header = headers[at];
        if same_word(header.name.of(bytes), name) && same_word(header.value.of(bytes), word) {
            found = true;
        }
    }
    found
}
