// Envelopes that tests read, and what is asked in them.
use compact_values::{Guid, NoMemory, Octets, Text};
use doc_model::{EditorStep, LockStep, Sub};
use envelope_read::{Ask, Depend, DependWord, EnvelopeFault, SubAsk, What, read_envelope};
use std::alloc::Global;

pub const FRONT: &str = "<Envelope><Body><RequestCollection><Request Url='/a' RequestToken='1'>";

pub const BACK: &str = "</Request></RequestCollection></Body></Envelope>";

/// The lock ids and the client of the attributes below.
pub const X: Guid = Guid { number: 1 };

pub const S: Guid = Guid { number: 2 };

pub const C: Guid = Guid { number: 3 };

pub const EXCLUSIVE: &str = "ExclusiveLockID='{00000000-0000-0000-0000-000000000001}'";

pub const SCHEMA: &str = "SchemaLockID='00000000-0000-0000-0000-000000000002'";

pub const CLIENT: &str = "ClientID='00000000000000000000000000000003'";

/// A binary request for 1,000 numbers, as base64 and as bytes.
pub const DRAW: &str = "DAALAJzPKfM5lAabBgIAABYCBgADFwACBAYAog8ACwGsAgBVAwE=";

pub const DRAW_BYTES: &[u8] =
    b"\x0C\x00\x0B\x00\x9C\xCF\x29\xF3\x39\x94\x06\x9B\x06\x02\x00\x00\x16\x02\x06\x00\x03\x17\x00\x02\x04\x06\x00\xA2\x0F\x00\x0B\x01\xAC\x02\x00\x55\x03\x01";

/// What a SubRequest is to ask.
#[derive(Clone, Copy)]
pub enum Wanted<'a> {
    Lock(LockStep),
    Join(Guid, u64),
    Leave(Guid),
    Refresh(Guid, u64),
    SetKey(Guid, &'a str, &'a [u8]),
    RemoveKey(Guid, &'a str),
    Versions,
    Restore(u64, Option<Guid>),
    AmIAlone,
    WhoAmI,
    Cell(&'a [u8], bool, Option<Guid>),
    NotSupported,
    BadArgument,
}

/// On which subrequest one is to depend.
#[derive(Clone, Copy)]
pub enum Waits<'a> {
    Free,
    On(&'a str, DependWord),
    Bad,
}

/// A SubRequest by its Type, its request word, the other attributes of its data, and the text of its data.
pub type Written<'a> = (&'a str, &'a str, &'a [&'a str], &'a str);

/// These texts, one behind the other.
pub fn joined(alloc: Global, parts: &[&str]) -> Result<Octets, NoMemory> {
    let mut text = Octets::new(alloc);
    for part in parts {
        text.extend_from_slice(part.as_bytes())?;
    }
    Ok(text)
}

/// Adds a SubRequest.
pub fn add_sub(text: &mut Octets, sub: Written) -> Result<(), NoMemory> {
    let (kind, word, attributes, data) = sub;
    for part in ["<SubRequest Type='", kind, "'><SubRequestData"] {
        text.extend_from_slice(part.as_bytes())?;
    }
    if !word.is_empty() {
        for part in [" ", kind, "RequestType='", word, "'"] {
            text.extend_from_slice(part.as_bytes())?;
        }
    }
    for attribute in attributes {
        text.push(b' ')?;
        text.extend_from_slice(attribute.as_bytes())?;
    }
    for part in [">", data, "</SubRequestData></SubRequest>"] {
        text.extend_from_slice(part.as_bytes())?;
    }
    Ok(())
}

fn plain(sub: Sub) -> What {
    What::Plain { sub }
}

fn editor(step: EditorStep) -> What {
    plain(Sub::Editor { step })
}

/// What is wanted, as a value.
fn made(alloc: Global, wanted: Wanted) -> Result<What, NoMemory> {
    Ok(match wanted {
        Wanted::Lock(step) => plain(Sub::Lock { step }),
        Wanted::Join(client, timeout) => editor(EditorStep::Join { client, timeout }),
        Wanted::Leave(client) => editor(EditorStep::Leave { client }),
        Wanted::Refresh(client, timeout) => editor(EditorStep::Refresh { client, timeout }),
        Wanted::SetKey(client, key, value) => editor(EditorStep::SetKey {
            client,
            key: Text::from_str(alloc, key)?,
            value: Octets::copied_from(alloc, value)?,
        }),
        Wanted::RemoveKey(client, key) => editor(EditorStep::RemoveKey {
            client,
            key: Text::from_str(alloc, key)?,
        }),
        Wanted::Versions => plain(Sub::Versions),
        Wanted::Restore(number, carried) => plain(Sub::Restore { number, carried }),
        Wanted::AmIAlone => plain(Sub::AmIAlone),
        Wanted::WhoAmI => plain(Sub::WhoAmI),
        Wanted::Cell(bytes, content, carried) => What::Cell {
            bytes: Octets::copied_from(alloc, bytes)?,
            content,
            carried,
        },
        Wanted::NotSupported => What::NotSupported,
        Wanted::BadArgument => What::BadArgument,
    })
}

fn dependency(alloc: Global, waits: Waits) -> Result<Depend, NoMemory> {
    Ok(match waits {
        Waits::Free => Depend::Free,
        Waits::On(token, word) => Depend::On {
            token: Text::from_str(alloc, token)?,
            word,
        },
        Waits::Bad => Depend::Bad,
    })
}

/// Whether the one SubRequest asks this.
pub fn asks(alloc: Global, sub: Written, wanted: Wanted) -> Result<bool, EnvelopeFault> {
    let mut text = joined(alloc, &[FRONT])?;
    add_sub(&mut text, sub)?;
    text.extend_from_slice(BACK.as_bytes())?;
    let collection = read_envelope(alloc, text.as_slice())?;
    let what = made(alloc, wanted)?;
    Ok(match collection.requests.as_slice() {
        [ask] => match ask.subs.as_slice() {
            [sub] => sub.what == what,
            _ => false,
        },
        _ => false,
    })
}

/// A SubRequest that is to be read: its token, on which it depends, and what it asks.
pub type Row<'a> = (&'a str, Waits<'a>, Wanted<'a>);

fn is_row(alloc: Global, sub: &SubAsk, row: Row) -> Result<bool, NoMemory> {
    let (token, waits, wanted) = row;
    let depend = dependency(alloc, waits)?;
    let what = made(alloc, wanted)?;
    Ok(sub.token.as_str() == token && sub.depend == depend && sub.what == what)
}

fn are_rows(alloc: Global, ask: &Ask, rows: &[Row]) -> Result<bool, NoMemory> {
    let mut same = ask.subs.len() == rows.len();
    for (sub, row) in ask.subs.as_slice().iter().zip(rows) {
        same = is_row(alloc, sub, *row)? && same;
    }
    Ok(same)
}

/// Whether the text is the envelope of one Request with this Url and token, and with these SubRequests.
pub fn says(
    alloc: Global,
    text: &[u8],
    url: &str,
    token: &str,
    rows: &[Row],
) -> Result<bool, EnvelopeFault> {
    let collection = read_envelope(alloc, text)?;
    match collection.requests.as_slice() {
        [ask] => {
            let same = are_rows(alloc, ask, rows)?;
            Ok(same && ask.url.as_str() == url && ask.token.as_str() == token)
        }
        _ => Ok(false),
    }
}
