// The document of an address.
ghost use Rattle.std.specs.Prelude.{◌≡◌};
ghost use Rattle.collection_run.specs.Collections.{doc_of};
ghost use Rattle.collection_run.specs.Urls.{before_query, last_segment};

use compact_values::{Names, Text};
use http_head::place_of;

// The address up to its query or fragment (RFC 3986, 3.4 and 3.5).
fn before_query(text: &[u8]) -> &[u8]
    ensures { result.now ≡ before_query text.now }
{
    for at in 0..text.len() {
        if text[at] == b'?' || text[at] == b'#' {
            return &text[..at];
        }
    }
    text
}

// What follows the last slash of the path.
fn last_segment(url: &[u8]) -> &[u8]
    ensures { result.now ≡ last_segment url.now }
{
    let path = before_query(url);
    let mut from = 0;
    for at in 0..path.len() {
        if path[at] == b'/' {
            from = at + 1;
        }
    }
    &path[from..]
}

/// The place of the document of an address, if it is among the names.
pub(crate) fn doc_of(url: &Text, names: &Names) -> Option<usize>
    ensures { result ≡ doc_of names.now url.now }
{
    place_of(last_segment(url.as_str().as_bytes()), names)
}
