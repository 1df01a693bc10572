// The fields of the objects in a sub-request.
ghost use Rattle.std.specs.Prelude.{◌≡◌};
ghost use Rattle.doc_model.specs.readers.RequestSites.{sub_row};
ghost use Rattle.wire_requests.specs.RequestReading.{put_row, allocate_row};

use compact_values::{ExGuid, take_byte, take_compact, take_exguid};
use stream_objects::{Tree, compound_fields, fields_of, simple_fields};

/// The fields of a 42: id, kind and priority.
pub fn sub_row(bytes: &[u8], tree: &Tree) -> Option<(u64, (u64, u64))>
    ensures { result ≡ sub_row bytes.now tree.now }
{
    let fields = compound_fields(bytes, tree)?;
    let (id, rest) = take_compact(fields)?;
    let (kind, rest) = take_compact(rest)?;
    let (priority, _rest) = take_compact(rest)?;
    Some((id, (kind, priority)))
}

/// The fields of a 5A: the index, the one that is expected, and the flags.
pub fn put_row(bytes: &[u8], tree: &Tree) -> Option<(ExGuid, (ExGuid, u8))>
    ensures { result ≡ put_row bytes.now tree.now }
{
    let fields = fields_of(bytes, tree);
    let (index, rest) = take_exguid(fields)?;
    let (expected, rest) = take_exguid(rest)?;
    let (flags, _rest) = take_byte(rest)?;
    Some((index, (expected, flags)))
}

/// The fields of an 80: how many numbers are asked for, and a byte that means nothing here.
pub fn allocate_row(bytes: &[u8], tree: &Tree) -> Option<(u64, u8)>
    ensures { result ≡ allocate_row bytes.now tree.now }
{
    let fields = simple_fields(bytes, tree)?;
    let (count, rest) = take_compact(fields)?;
    let (flag, _rest) = take_byte(rest)?;
    Some((count, flag))
}
