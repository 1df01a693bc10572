ghost use Rattle.std.specs.Prelude.{◌<◌};

use crate::runs::{
    CELL_ERROR, CLIENT, DOCUMENT, FAILURE, HRESULT, KNOWLEDGE, REQUEST, REQUEST_END, RESPONSE,
    SCHEMA, USER,
};
use compact_values::{NoMemory, Octets};
use std::alloc::Global;

fn digit(character: u8) -> u8
    ensures { result < 16 }
{
    match character {
        b'0'..=b'9' => character - b'0',
        b'A'..=b'F' => character - b'A' + 10,
        _ => 0,
    }
}

fn add_word(out: &mut Octets, word: &str) -> Result<(), NoMemory> {
    match word.as_bytes() {
        [b'G'] => out.extend_from_slice(&DOCUMENT),
        [b'K'] => out.extend_from_slice(&KNOWLEDGE),
        [b'E'] => out.extend_from_slice(&CELL_ERROR),
        [b'H'] => out.extend_from_slice(&HRESULT),
        [b'Q'] => out.extend_from_slice(&REQUEST),
        [b'P'] => out.extend_from_slice(&REQUEST_END),
        [b'R'] => out.extend_from_slice(&RESPONSE),
        [b'F'] => out.extend_from_slice(&FAILURE),
        [b'S'] => out.extend_from_slice(&SCHEMA),
        [b'C'] => out.extend_from_slice(&CLIENT),
        [b'U'] => out.extend_from_slice(&USER),
        [high, low] => out.push(16 * digit(*high) + digit(*low)),
        _ => Ok(()),
    }
}

/// Adds the bytes that a form names at the end: two digits a byte, and a letter a run.
pub fn add_form(out: &mut Octets, form: &str) -> Result<(), NoMemory> {
    for word in form.split_whitespace() {
        add_word(out, word)?;
    }
    Ok(())
}

/// The bytes that these forms name, one after the other.
pub fn bytes_of(alloc: Global, forms: &[&str]) -> Result<Octets, NoMemory> {
    let mut out = Octets::new(alloc);
    for form in forms {
        add_form(&mut out, form)?;
    }
    Ok(out)
}
