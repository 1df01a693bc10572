// The text of an answer.
ghost use Rattle.std.specs.Prelude.{◌≡◌, ◌++◌, ◌∷◌, [], List, ℕ, OnOk, OnErr, IsTrue, take, length, decimal};
ghost use Rattle.std.specs.List.{concat};
ghost use Rattle.http_head.specs.Answers.{reason, has_reason, type_line, close_line, front_text, length_line, rest_text, answer_text};

use compact_values::{NoMemory, Octets};
use itoa::Buffer;

/// What the body of an answer is.
#[derive(Clone, Copy, Debug, PartialEq, Eq)]
pub enum Media {
    /// `text/xml; charset=utf-8`: an envelope.
    Xml,
    /// `text/plain`: a number.
    Plain,
    /// `application/octet-stream`: a file.
    Binary,
    /// There is none.
    Empty,
}

fn reason(status: u16) -> &'static [u8]
    ensures { result.now ≡ reason status }
{
    match status {
        200 => b"OK",
        400 => b"Bad Request",
        404 => b"Not Found",
        405 => b"Method Not Allowed",
        411 => b"Length Required",
        413 => b"Content Too Large",
        415 => b"Unsupported Media Type",
        _ => b"Request Header Fields Too Large",
    }
}

fn type_line(media: Media) -> &'static [u8]
    ensures { result.now ≡ type_line media }
{
    match media {
        Media::Xml => b"Content-Type: text/xml; charset=utf-8\r\n",
        Media::Plain => b"Content-Type: text/plain\r\n",
        Media::Binary => b"Content-Type: application/octet-stream\r\n",
        Media::Empty => b"",
    }
}

fn close_line(close: bool) -> &'static [u8]
    ensures { result.now ≡ close_line close }
{
    if close { b"Connection: close\r\n" } else { b"" }
}

// Adds the line of the status and the line of the type.
fn append_front(out: &mut Octets, status: u16, media: Media) -> Result<(), NoMemory>
    ensures ok { OnOk result (out.new ≡ out.old ++ front_text status media) }
    ensures err { OnErr result (take (length out.old) out.new ≡ out.old) }
{
    let mut code = Buffer::new();
    out.extend_from_slice(b"HTTP/1.1 ")?;
    out.extend_from_slice(code.format(status).as_bytes())?;
    out.extend_from_slice(b" ")?;
    out.extend_from_slice(reason(status))?;
    out.extend_from_slice(b"\r\n")?;
    out.extend_from_slice(type_line(media))
}

// Adds the line of the length.
fn append_length(out: &mut Octets, count: usize) -> Result<(), NoMemory>
    ensures ok { OnOk result (out.new ≡ out.old ++ length_line count) }
    ensures err { OnErr result (take (length out.old) out.new ≡ out.old) }
{
    let mut text = Buffer::new();
    out.extend_from_slice(b"Content-Length: ")?;
    out.extend_from_slice(text.format(count).as_bytes())?;
    out.extend_from_slice(b"\r\n")
}

// Adds the line that closes, the empty line and the body.
fn append_rest(out: &mut Octets, body: &[u8], close: bool) -> Result<(), NoMemory>
    ensures ok { OnOk result (out.new ≡ out.old ++ rest_text body.now close) }
    ensures err { OnErr result (take (length out.old) out.new ≡ out.old) }
{
    out.extend_from_slice(close_line(close))?;
    out.extend_from_slice(b"\r\n")?;
    out.extend_from_slice(body)
}

fn append_answer(
    out: &mut Octets,
    status: u16,
    media: Media,
    body: &[u8],
    close: bool,
) -> Result<(), NoMemory>
    ensures ok { OnOk result (out.new ≡ out.old ++ answer_text status media body.now close) }
    ensures err { OnErr result (take (length out.old) out.new ≡ out.old) }
{
    append_front(out, status, media)?;
    append_length(out, body.len())?;
    append_rest(out, body, close)
}

/// Adds the text of an answer: the status line, the type of the body unless it is `Empty`, its length, the line that
/// closes the connection where `close` says so, an empty line and the body (RFC 9112, 4). `NoMemory` changes nothing.
pub fn write_answer(
    out: &mut Octets,
    status: u16,
    media: Media,
    body: &[u8],
    close: bool,
) -> Result<(), NoMemory>
    requires { IsTrue (has_reason status) }
    ensures ok { OnOk result (out.new ≡ out.old ++ answer_text status media body.now close) }
    ensures err { OnErr result (out.new ≡ out.old) }
{
    let before = out.len();
    if append_answer(out, status, media, body, close).is_err() {
        out.truncate(before);
        return Err(NoMemory);
    }
    Ok(())
}
