// The fields of the objects of a response.
ghost use Rattle.std.specs.Prelude.{◌≡◌};
ghost use Rattle.doc_model.specs.readers.ResponseSites.{sub_row};
ghost use Rattle.doc_model.specs.wire.SeenResponses.{reply_form};
ghost use Rattle.wire_responses.specs.ResponseReading.{number_row, query_row, allocate_row};

use byteorder::{ByteOrder, LittleEndian};
use compact_values::{ExGuid, Guid, take_byte, take_compact, take_exguid, take_guid};
use doc_model::ReplyForm;
use stream_objects::{Tree, compound_fields, simple_fields};

/// The number of an error.
#[tactic(auto, unfolding(crate::specs::ResponseReading::number_row))]
pub fn number_row(bytes: &[u8], tree: &Tree) -> Option<u32>
    ensures { result ≡ number_row bytes.now tree.now }
{
    match simple_fields(bytes, tree)? {
        [a, b, c, d] => Some(LittleEndian::read_u32(&[*a, *b, *c, *d])),
        _ => None,
    }
}

/// The index of a query answer, and the byte that says whether it is partial.
#[tactic(auto, unfolding(crate::specs::ResponseReading::query_row))]
pub fn query_row(bytes: &[u8], tree: &Tree) -> Option<(ExGuid, u8)>
    ensures { result ≡ query_row bytes.now tree.now }
{
    let fields = simple_fields(bytes, tree)?;
    let (index, rest) = take_exguid(fields)?;
    let (byte, rest) = take_byte(rest)?;
    if rest.is_empty() {
        Some((index, byte))
    } else {
        None
    }
}

/// The GUID of an allocate answer, and the first and the last number.
#[tactic(auto, unfolding(crate::specs::ResponseReading::allocate_row))]
pub fn allocate_row(bytes: &[u8], tree: &Tree) -> Option<(Guid, (u64, u64))>
    ensures { result ≡ allocate_row bytes.now tree.now }
{
    let fields = simple_fields(bytes, tree)?;
    let (guid, rest) = take_guid(fields)?;
    let (least, rest) = take_compact(rest)?;
    let (greatest, rest) = take_compact(rest)?;
    if rest.is_empty() {
        Some((guid, (least, greatest)))
    } else {
        None
    }
}

/// The id, the kind and the status byte of a sub-response.
pub fn sub_row(bytes: &[u8], tree: &Tree) -> Option<(u64, (u64, u8))>
    ensures { result ≡ sub_row bytes.now tree.now }
{
    let fields = compound_fields(bytes, tree)?;
    let (id, rest) = take_compact(fields)?;
    let (kind, rest) = take_compact(rest)?;
    let (status, rest) = take_byte(rest)?;
    if rest.is_empty() {
        Some((id, (kind, status)))
    } else {
        None
    }
}

/// How a sub-request of a kind is answered. None where there is no such kind, and no error.
pub fn reply_form(kind: u64, status: u8) -> Option<ReplyForm>
    ensures { result ≡ reply_form kind status }
{
    if status % 2 == 1 {
        return Some(ReplyForm::Failed);
    }
    match kind {
        1 => Some(ReplyForm::Access),
        2 => Some(ReplyForm::Pulled),
        5 => Some(ReplyForm::Stored),
        11 => Some(ReplyForm::Drawn),
        _ => None,
    }
}
