// What the head of a request asks for.
ghost use Rattle.std.specs.Prelude.{◌≡◌, ◌≤◌, List, All, length, map, IfOk, IfErr, IfSome, IsTrue, codes, Some, None, if◌then◌else◌, MatchOption};
ghost use Rattle.std.specs.List.{list_all};
ghost use Rattle.std.specs.Char.{is_ascii_digit};
ghost use Rattle.std.specs.Str.Parse.{digits_value};
ghost use Rattle.httparse.specs.Spans.{IsHeaderWithin, header_bytes};
ghost use Rattle.http_head.specs.Answers.{has_reason};
ghost use Rattle.http_head.specs.Words.{values_of};
ghost use Rattle.http_head.specs.Requests.{told, judge, ReadsHead, fits, is_posted, is_length, is_bare, posted_status, user_of, framing_of, user_at, is_user, is_plain, is_other_type, closes, judge_body, judge_headers, IsSpanOf};

use crate::body::{BODY_LIMIT, Framing};
use crate::fields::{Values, has_word, values_of};
use crate::target::{Route, route_of};
use crate::words::{begins_with, same_word};
use compact_values::{Names, Span};
use httparse::Status;
use httparse::spans::{EMPTY_HEADER_SPAN, HeaderSpan, parse_request};

/// What the head of a request asks for. The user is a part of the head's bytes: an empty one stands for `anonymous`.
/// `close` says that the connection closes after the answer.
#[derive(Clone, Copy, Debug, PartialEq, Eq)]
pub struct Head {
    pub route: Route,
    pub framing: Framing,
    pub close: bool,
    pub user: Span,
}

fn is_posted(route: Route) -> bool
    ensures { result ≡ is_posted route }
{
    matches!(route, Route::Cells)
}

fn fits(route: Route, method: &[u8]) -> bool
    ensures { result ≡ fits route method.now }
{
    if is_posted(route) {
        method == b"POST".as_slice()
    } else {
        method == b"GET".as_slice()
    }
}

// The number that 1 to 18 digits write.
fn length_of(value: &[u8]) -> Option<u64>
    ensures { result ≡ (if is_length value.now then Some (digits_value 10 value.now) else None) }
{
    if is_length(value) {
        Some(digits(value))
    } else {
        None
    }
}

fn is_length(value: &[u8]) -> bool
    ensures { result ≡ is_length value.now }
{
    !value.is_empty() && value.len() <= 18 && are_digits(value)
}

fn are_digits(value: &[u8]) -> bool
    ensures { result ≡ list_all is_ascii_digit value.now }
{
    value.iter().all(|c| c.is_ascii_digit())
}

fn digits(value: &[u8]) -> u64
    requires few { length value.now ≤ 18 }
    requires digits { IsTrue (list_all is_ascii_digit value.now) }
    ensures { result ≡ digits_value 10 value.now }
{
    let mut number: u64 = 0;
    for digit in value {
        number = number * 10 + u64::from(*digit - b'0');
    }
    number
}

fn framing_of(bytes: &[u8], headers: &[HeaderSpan]) -> Option<Framing>
    requires { All (IsHeaderWithin (length bytes.now)) headers.now }
    ensures { let fields = map (header_bytes bytes.now) headers.now in
        result ≡ framing_of (values_of (codes "content-length") fields) (values_of (codes "transfer-encoding") fields) }
{
    let lengths = values_of(bytes, headers, b"content-length");
    let codings = values_of(bytes, headers, b"transfer-encoding");
    match (lengths, codings) {
        (Values::Absent, Values::Absent) => Some(Framing::Nothing),
        (Values::One { value }, Values::Absent) => match length_of(value.of(bytes)) {
            Some(bytes) => Some(Framing::Length { bytes }),
            None => None,
        },
        (Values::Absent, Values::One { value }) => {
            if same_word(value.of(bytes), b"chunked") {
                Some(Framing::Chunks)
            } else {
                None
            }
        }
        _ => None,
    }
}

fn is_bare(framing: Framing) -> bool
    ensures { result ≡ is_bare framing }
{
    match framing {
        Framing::Nothing => true,
        Framing::Length { bytes } => bytes == 0,
        Framing::Chunks => false,
    }
}

// The status by the length that a POST tells.
fn posted_status(framing: Framing) -> Option<u16>
    ensures status { result ≡ posted_status framing }
    ensures reason { IfSome result (λ status. IsTrue (has_reason status)) }
{
    match framing {
        Framing::Nothing => Some(411),
        Framing::Length { bytes } => { if bytes <= BODY_LIMIT { None } else { Some(413) } }
        Framing::Chunks => None,
    }
}

// The user, if the header is in order: an empty span stands for none.
fn user_of(bytes: &[u8], headers: &[HeaderSpan]) -> Option<Span>
    requires { All (IsHeaderWithin (length bytes.now)) headers.now }
    ensures user { MatchOption result
        (user_of (values_of (codes "x-cell-user") (map (header_bytes bytes.now) headers.now)) ≡ None)
        (λ user. user_of (values_of (codes "x-cell-user") (map (header_bytes bytes.now) headers.now)) ≡ Some (user_at bytes.now user.from user.to)) }
    ensures span { IfSome result (IsSpanOf bytes.now) }
{
    match values_of(bytes, headers, b"x-cell-user") {
        Values::Absent => Some(Span { from: 0, to: 0 }),
        Values::One { value } => {
            if is_user(value.of(bytes)) {
                Some(Span {
                    from: value.start,
                    to: value.end,
                })
            } else {
                None
            }
        }
        Values::Several { first: _ } => None,
    }
}

fn is_user(value: &[u8]) -> bool
    ensures { result ≡ is_user value.now }
{
    !value.is_empty() && value.len() <= 64 && are_plain(value)
}

fn are_plain(value: &[u8]) -> bool
    ensures { result ≡ list_all is_plain value.now }
{
    value.iter().all(|c| *c >= 0x20 && *c <= 0x7E)
}

fn is_other_type(bytes: &[u8], headers: &[HeaderSpan]) -> bool
    requires { All (IsHeaderWithin (length bytes.now)) headers.now }
    ensures { result ≡ is_other_type (values_of (codes "content-type") (map (header_bytes bytes.now) headers.now)) }
{
    match values_of(bytes, headers, b"content-type") {
        Values::Absent => false,
        Values::One { value } => !begins_with(value.of(bytes), b"text/xml"),
        Values::Several { first } => !begins_with(first.of(bytes), b"text/xml"),
    }
}

fn closes(bytes: &[u8], minor: u8, headers: &[HeaderSpan]) -> bool
    requires { All (IsHeaderWithin (length bytes.now)) headers.now }
    ensures { result ≡ closes minor (values_of (codes "connection") (map (header_bytes bytes.now) headers.now)) }
{
    let word = has_word(bytes, headers, b"connection", b"close");
    minor == 0 || word
}

fn judge_body(
    bytes: &[u8],
    route: Route,
    framing: Framing,
    user: Span,
    minor: u8,
    headers: &[HeaderSpan],
) -> Result<Head, u16>
    requires headers { All (IsHeaderWithin (length bytes.now)) headers.now }
    requires user { IsSpanOf bytes.now user }
    ensures verdict { told bytes.now result
        ≡ judge_body route framing (user_at bytes.now user.from user.to) minor (map (header_bytes bytes.now) headers.now) }
    ensures reason { IfErr result (λ status. IsTrue (has_reason status)) }
    ensures user { IfOk result (λ head. IsSpanOf bytes.now head.user) }
{
    let close = closes(bytes, minor, headers);
    let head = Head {
        route,
        framing,
        close,
        user,
    };
    if is_posted(route) {
        match posted_status(framing) {
            Some(status) => Err(status),
            None => {
                if is_other_type(bytes, headers) {
                    Err(415)
                } else {
                    Ok(head)
                }
            }
        }
    } else if is_bare(framing) {
        Ok(head)
    } else {
        Err(400)
    }
}

fn judge_headers(bytes: &[u8], route: Route, minor: u8, headers: &[HeaderSpan]) -> Result<Head, u16>
    requires { All (IsHeaderWithin (length bytes.now)) headers.now }
    ensures verdict { told bytes.now result ≡ judge_headers route minor (map (header_bytes bytes.now) headers.now) }
    ensures reason { IfErr result (λ status. IsTrue (has_reason status)) }
    ensures user { IfOk result (λ head. IsSpanOf bytes.now head.user) }
{
    let Some(framing) = framing_of(bytes, headers) else {
        return Err(400);
    };
    let Some(user) = user_of(bytes, headers) else {
        return Err(400);
    };
    judge_body(bytes, route, framing, user, minor, headers)
}

fn judge(
    bytes: &[u8],
    names: &Names,
    method: &[u8],
    target: &[u8],
    minor: u8,
    headers: &[HeaderSpan],
) -> Result<Head, u16>
    requires { All (IsHeaderWithin (length bytes.now)) headers.now }
    ensures verdict { told bytes.now result ≡ judge names.now method.now target.now minor (map (header_bytes bytes.now) headers.now) }
    ensures reason { IfErr result (λ status. IsTrue (has_reason status)) }
    ensures user { IfOk result (λ head. IsSpanOf bytes.now head.user) }
{
    match route_of(names, target) {
        None => Err(404),
        Some(route) => {
            if fits(route, method) {
                judge_headers(bytes, route, minor, headers)
            } else {
                Err(405)
            }
        }
    }
}

/// What a whole head asks for, or the HTTP status of the first of these refusals:
///
/// - 400: the bytes are not, from first to last, one head that `httparse` reads, of at most 64 headers;
/// - 404: the target up to its first `?` leads nowhere, or to a document that is not among the names;
/// - 405: the method is not POST for the Cells service, or GET for the others;
/// - 400: `Content-Length`, `Transfer-Encoding` or `X-Cell-User` is not in order, or a GET comes with a body;
/// - 411, 413: a POST tells no length, or one over `BODY_LIMIT`;
/// - 415: the first `Content-Type` of a POST is there and does not begin with `text/xml`.
///
/// It takes no memory. Each of these statuses has a text, so `write_answer` takes it.
pub fn read_head(bytes: &[u8], names: &Names) -> Result<Head, u16>
    ensures verdict { ReadsHead names.now bytes.now (told bytes.now result) }
    ensures reason { IfErr result (λ status. IsTrue (has_reason status)) }
    ensures user { IfOk result (λ head. IsSpanOf bytes.now head.user) }
{
    let mut headers = [EMPTY_HEADER_SPAN; 64];
    let Ok(Status::Complete(spans)) = parse_request(bytes, &mut headers) else {
        return Err(400);
    };
    if spans.len != bytes.len() {
        return Err(400);
    }
    judge(
        bytes,
        names,
        spans.method.of(bytes),
        spans.path.of(bytes),
        spans.version,
        &headers[..spans.headers],
    )
}
