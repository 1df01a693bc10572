// Texts that tests write short, and the binary requests of saves.
use base64::engine::general_purpose::STANDARD;
use compact_values::{ExGuid, Guid, NoMemory, Octets, Seq};
use doc_model::{CellRequest, WireKind, WireSub};
use file_nodes::{Chunked, chunk};
use std::alloc::Global;
use wire_requests::write_cell_request;

/// The front of a GUID with a small number, of which the last two digits follow.
const SMALL_GUID: &str = "00000000-0000-0000-0000-0000000000";

/// One more letter than a key may have.
const LETTERS: usize = 1025;

/// Adds the base64 of these bytes.
pub fn add_base64(alloc: Global, out: &mut Octets, bytes: &[u8]) -> Result<(), NoMemory> {
    match STANDARD.encode(alloc, bytes) {
        Ok(text) => out.extend_from_slice(text.as_bytes()),
        Err(_) => Err(NoMemory),
    }
}

fn add_letters(out: &mut Octets) -> Result<(), NoMemory> {
    for _ in 0..LETTERS {
        out.push(b'k')?;
    }
    Ok(())
}

/// Adds a text that is written short: `'` for a quotation mark, `~` for the front of a GUID with a small number, and `*` for
/// the letters that are too many for a key.
pub fn add_short(out: &mut Octets, text: &str) -> Result<(), NoMemory> {
    for byte in text.as_bytes() {
        match *byte {
            b'\'' => out.push(b'"')?,
            b'~' => out.extend_from_slice(SMALL_GUID.as_bytes())?,
            b'*' => add_letters(out)?,
            byte => out.push(byte)?,
        }
    }
    Ok(())
}

/// A file of one byte. Its ids have the GUID with that number.
#[derive(Clone, Copy)]
pub struct File {
    pub byte: u8,
}

impl File {
    fn guid(self) -> Guid {
        Guid {
            number: u128::from(self.byte),
        }
    }
}

// Where a file's elements are reached from; null for none.
fn index_of(file: Option<File>) -> ExGuid {
    match file {
        Some(file) => ExGuid::Id {
            guid: file.guid(),
            value: 1,
        },
        None => ExGuid::Null,
    }
}

/// The request that puts a file in place of another, with these flags.
pub fn saved(alloc: Global, file: File, over: Option<File>, flags: u8) -> Result<Octets, NoMemory> {
    let cut = chunk(alloc, &[file.byte], file.guid(), 1)?;
    let Chunked {
        index,
        elements,
        ..
    } = cut;
    let what = WireKind::Put {
        index,
        expected: index_of(over),
        flags,
    };
    let mut subs = Seq::new(alloc);
    subs.push(WireSub {
        id: 1,
        kind: 5,
        what,
    })?;
    write_cell_request(alloc, &CellRequest { subs, elements })
}
