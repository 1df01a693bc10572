// Where the target of a request leads.
ghost use Rattle.std.specs.Prelude.{◌≡◌, ◌≤◌, ◌∷◌, ◌&&◌, length, drop};
ghost use Rattle.std.specs.Option.{option_map};
ghost use Rattle.std.specs.List.{list_all};
ghost use Rattle.http_head.specs.Words.{before_question};
ghost use Rattle.http_head.specs.Naming.{names_it, goes_on, is_name_byte, is_name};
ghost use Rattle.http_head.specs.Requests.{place_of, route_on, route_of};

use compact_values::Names;
use httparse::parse_hex_digit;

/// Where a request leads. The documents are named by their places in the list of names.
#[derive(Clone, Copy, Debug, PartialEq, Eq)]
pub enum Route {
    /// The Cells service (MS-FSSHTTP 2.2.2): an envelope comes in the body.
    Cells,
    /// How many changes a document has seen.
    Front { doc: usize },
    /// The file of a document.
    File { doc: usize },
}

fn before_question(text: &[u8]) -> &[u8]
    ensures { result.now ≡ before_question text.now }
{
    for at in 0..text.len() {
        if text[at] == b'?' {
            return &text[..at];
        }
    }
    text
}

#[cycle(naming)]
fn names_it(text: &[u8], name: &[u8]) -> bool
    ensures { result ≡ names_it text.now name.now }
{
    if text.is_empty() {
        return name.is_empty();
    }
    if text[0] == b'%' {
        names_coded(&text[1..], name)
    } else {
        goes_on(&text[1..], text[0], name)
    }
}

// The same of the text behind a %.
#[cycle(naming)]
fn names_coded(text: &[u8], name: &[u8]) -> bool
    ensures { result ≡ names_it (37 ∷ text.now) name.now }
{
    if text.len() < 2 {
        return false;
    }
    let Some(high) = parse_hex_digit(text[0]) else {
        return false;
    };
    let Some(low) = parse_hex_digit(text[1]) else {
        return false;
    };
    goes_on(&text[2..], (high * 16 + low) as u8, name)
}

// The name begins with the byte, and goes on as the text does.
#[cycle(naming)]
fn goes_on(text: &[u8], byte: u8, name: &[u8]) -> bool
    ensures { result ≡ goes_on text.now byte name.now }
{
    match name {
        [first, more @ ..] => byte == *first && names_it(text, more),
        [] => false,
    }
}

fn is_name_byte(byte: u8) -> bool
    ensures { result ≡ is_name_byte byte }
{
    byte >= 0x20 && byte != 0x7F && byte != b'/' && byte != b'\\'
}

fn are_name_bytes(name: &[u8]) -> bool
    ensures { result ≡ list_all is_name_byte name.now }
{
    name.iter().all(|byte| is_name_byte(*byte))
}

fn is_name(name: &[u8]) -> bool
    ensures { result ≡ is_name name.now }
{
    match name {
        [first, ..] => {
            *first != b'.' && *first != b'-' && name.len() <= 100 && are_name_bytes(name)
        }
        [] => false,
    }
}

// The text, decoded, is this name of a document.
fn is_named(text: &[u8], name: &[u8]) -> bool
    ensures { result ≡ (is_name name.now && names_it text.now name.now) }
{
    is_name(name) && names_it(text, name)
}

/// The place in `names` of the document that a path segment names, percent-encoded or not (RFC 3986, 2.1); None where
/// no name is it.
pub fn place_of(text: &[u8], names: &Names) -> Option<usize>
    ensures { result ≡ place_of text.now names.now }
{
    names
        .as_slice()
        .iter()
        .position(|name| is_named(text, name.as_str().as_bytes()))
}

// The text behind the first bytes.
fn behind(path: &[u8], count: usize) -> &[u8]
    requires { count ≤ length path.now }
    ensures { result.now ≡ drop count path.now }
{
    &path[count..]
}

fn front_of(path: &[u8], names: &Names) -> Option<Route>
    requires { 8 ≤ length path.now }
    ensures { result ≡ option_map Route.Front (place_of (drop 8 path.now) names.now) }
{
    match place_of(behind(path, 8), names) {
        Some(doc) => Some(Route::Front { doc }),
        None => None,
    }
}

fn file_of(path: &[u8], names: &Names) -> Option<Route>
    requires { 7 ≤ length path.now }
    ensures { result ≡ option_map Route.File (place_of (drop 7 path.now) names.now) }
{
    match place_of(behind(path, 7), names) {
        Some(doc) => Some(Route::File { doc }),
        None => None,
    }
}

fn route_on(names: &Names, path: &[u8]) -> Option<Route>
    ensures { result ≡ route_on names.now path.now }
{
    if path.ends_with(b"/_vti_bin/cellstorage.svc/CellStorageService") {
        Some(Route::Cells)
    } else if path.starts_with(b"/_front/") {
        front_of(path, names)
    } else if path.starts_with(b"/_file/") {
        file_of(path, names)
    } else {
        None
    }
}

/// Where the target leads: a query behind `?` counts for nothing.
pub fn route_of(names: &Names, target: &[u8]) -> Option<Route>
    ensures { result ≡ route_of names.now target.now }
{
    route_on(names, before_question(target))
}
