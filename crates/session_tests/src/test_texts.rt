// The texts of requests and of answers.
use compact_values::{NoMemory, Octets, Seq};
use std::alloc::Global;

/// How many changes the document has seen, as an answer that goes on and one that closes.
pub const FRONT_0: &str =
    "HTTP/1.1 200 OK\r\nContent-Type: text/plain\r\nContent-Length: 1\r\n\r\n0";

pub const CLOSING_FRONT_0: &str =
    "HTTP/1.1 200 OK\r\nContent-Type: text/plain\r\nContent-Length: 1\r\nConnection: close\r\n\r\n0";

/// What stands in every answer to an envelope, before and behind its Responses.
pub const FRONT: &str =
    "<?xml version=\"1.0\" encoding=\"utf-8\"?><s:Envelope xmlns:s=\"http://schemas.xmlsoap.org/soap/envelope/\"><s:Body><ResponseVersion Version=\"2\" MinorVersion=\"2\" xmlns=\"http://schemas.microsoft.com/sharepoint/soap/\"/><ResponseCollection WebUrl=\"/\" xmlns=\"http://schemas.microsoft.com/sharepoint/soap/\">";

pub const BACK: &str = "</ResponseCollection></s:Body></s:Envelope>";

/// What stands in every envelope, before and behind its Requests.
pub const ASK_FRONT: &str =
    "<s:Envelope xmlns:s=\"http://schemas.xmlsoap.org/soap/envelope/\"><s:Body><RequestCollection xmlns=\"http://schemas.microsoft.com/sharepoint/soap/\">";

pub const ASK_BACK: &str = "</RequestCollection></s:Body></s:Envelope>";

/// These texts, one after the other.
pub fn joined(alloc: Global, texts: &[&str]) -> Result<Octets, NoMemory> {
    let mut all = Seq::new(alloc);
    for text in texts {
        all.extend_from_slice(text.as_bytes())?;
    }
    Ok(all)
}
