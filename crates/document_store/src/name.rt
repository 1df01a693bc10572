// The names of documents.
ghost use Rattle.std.specs.Prelude.{◌≡◌};
ghost use Rattle.std.specs.List.{list_all};
ghost use Rattle.document_store.specs.Names.{is_name, is_name_byte, begins_name};

/// A name has at most so many bytes of UTF-8.
pub const MOST_BYTES: usize = 100;

/// Whether the text is the name of a document: 1 to 100 bytes, no control character, neither `/` nor `\`, and neither
/// `.` nor `-` at the front.
pub fn is_name(text: &str) -> bool
    ensures { result ≡ is_name text.now }
{
    let bytes = text.as_bytes();
    begins_name(bytes) && bytes.len() <= MOST_BYTES && are_name_bytes(bytes)
}

fn begins_name(bytes: &[u8]) -> bool
    ensures { result ≡ begins_name bytes.now }
{
    match bytes {
        [] => false,
        [first, ..] => *first != b'.' && *first != b'-',
    }
}

fn are_name_bytes(bytes: &[u8]) -> bool
    ensures { result ≡ list_all is_name_byte bytes.now }
{
    bytes.iter().all(|byte| is_name_byte(*byte))
}

fn is_name_byte(byte: u8) -> bool
    ensures { result ≡ is_name_byte byte }
{
    byte >= b' ' && byte != 0x7F && byte != b'/' && byte != b'\\'
}
