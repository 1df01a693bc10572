// Writing what a sub-response holds.
ghost use Rattle.std.specs.Int.{w32, to_le_bytes};
ghost use Rattle.std.specs.Prelude.{◌≡◌, ◌≤◌, ◌++◌, [], ◌∷◌, OnOk};
ghost use Rattle.compact_values.specs.Compact.{compact};
ghost use Rattle.compact_values.specs.GuidBytes.{guid_bytes};
ghost use Rattle.compact_values.specs.Ids.{exguid};
ghost use Rattle.doc_model.specs.wire.Responses.{reply_objects, error_object, success_object, status_byte, code_number};
ghost use Rattle.stream_objects.specs.Written.{simple_object, compound_object};
ghost use Rattle.stream_objects.specs.declared.object_types.TheConstants.{ALLOCATE_EXTENDED_GUID_RANGE_RESPONSE, QUERY_CHANGES_RESPONSE, READ_ACCESS_RESPONSE, WRITE_ACCESS_RESPONSE};

use crate::error_guids::{CELL_ERROR, HRESULT_ERROR};
use byteorder::{ByteOrder, LittleEndian};
use compact_values::{ExGuid, Guid, NoMemory, Octets, guid_bytes, write_compact, write_exguid};
use data_elements::write_knowledge;
use doc_model::{Code, Reply, Submitted};
use std::alloc::Global;
use stream_objects::{begin, finish, object_types};

// The 4 bytes of a number, the least first.
fn four_bytes(number: u32) -> [u8; 4]
    ensures { result ≡ to_le_bytes w32 number }
{
    let mut bytes = [0; 4];
    LittleEndian::write_u32(&mut bytes, number);
    bytes
}

/// A cell error.
pub fn write_error(out: &mut Octets, number: u32) -> Result<(), NoMemory>
    ensures { OnOk result (out.new ≡ out.old ++ error_object number) }
{
    begin(
        out,
        object_types::RESPONSE_ERROR,
        true,
        &guid_bytes(CELL_ERROR),
    )?;
    begin(out, object_types::CELL_ERROR, false, &four_bytes(number))?;
    finish(out, object_types::RESPONSE_ERROR)
}

// An HRESULT of 0.
fn write_success(out: &mut Octets) -> Result<(), NoMemory>
    ensures { OnOk result (out.new ≡ out.old ++ success_object) }
{
    begin(
        out,
        object_types::RESPONSE_ERROR,
        true,
        &guid_bytes(HRESULT_ERROR),
    )?;
    begin(out, object_types::HRESULT_ERROR, false, &four_bytes(0))?;
    finish(out, object_types::RESPONSE_ERROR)
}

// An answer that there is read access, or write access.
fn write_one_access(out: &mut Octets, kind: u16) -> Result<(), NoMemory>
    requires { kind ≤ 16383 }
    ensures { OnOk result (out.new ≡ out.old ++ compound_object kind [] success_object) }
{
    begin(out, kind, true, &[])?;
    write_success(out)?;
    finish(out, kind)
}

// That there is read access, and write access.
fn write_access(out: &mut Octets) -> Result<(), NoMemory>
    ensures { OnOk result (out.new ≡ out.old ++ (compound_object READ_ACCESS_RESPONSE [] success_object ++ compound_object WRITE_ACCESS_RESPONSE [] success_object)) }
{
    write_one_access(out, object_types::READ_ACCESS_RESPONSE)?;
    write_one_access(out, object_types::WRITE_ACCESS_RESPONSE)
}

// A query answer: the index, and that the answer is whole.
fn write_query(alloc: Global, out: &mut Octets, index: &ExGuid) -> Result<(), NoMemory>
    ensures { OnOk result (out.new ≡ out.old ++ simple_object QUERY_CHANGES_RESPONSE (exguid index.now ++ 0 ∷ [])) }
{
    let mut fields = Octets::new(alloc);
    write_exguid(&mut fields, index)?;
    fields.push(0)?;
    begin(
        out,
        object_types::QUERY_CHANGES_RESPONSE,
        false,
        fields.as_slice(),
    )
}

// An allocate answer.
fn write_drawn(
    alloc: Global,
    out: &mut Octets,
    guid: Guid,
    least: u64,
    greatest: u64,
) -> Result<(), NoMemory>
    ensures { OnOk result (out.new ≡ out.old ++ simple_object ALLOCATE_EXTENDED_GUID_RANGE_RESPONSE (guid_bytes guid.number ++ compact least ++ compact greatest)) }
{
    let mut fields = Octets::new(alloc);
    fields.extend_from_slice(&guid_bytes(guid))?;
    write_compact(&mut fields, least)?;
    write_compact(&mut fields, greatest)?;
    begin(
        out,
        object_types::ALLOCATE_EXTENDED_GUID_RANGE_RESPONSE,
        false,
        fields.as_slice(),
    )
}

// The number of a code in a cell error, where a sub-request can meet it.
fn code_number(code: Code) -> Option<u32>
    ensures { result ≡ code_number code }
{
    match code {
        Code::InvalidObject => Some(2),
        Code::NotSupported => Some(4),
        Code::Coherency => Some(12),
        Code::NotFound => Some(16),
        Code::StorageLimit => Some(21),
        Code::Unserializable => Some(23),
        Code::AlreadyLocked => Some(1001),
        _ => None,
    }
}

// What the sub-response of a reply holds.
fn write_answered(alloc: Global, out: &mut Octets, reply: &Reply) -> Result<(), NoMemory>
    ensures { OnOk result (out.new ≡ out.old ++ reply_objects (Submitted.Answered reply.now)) }
{
    match reply {
        Reply::Access => write_access(out),
        Reply::Pulled {
            index,
            knowledge,
            ..
        } => {
            write_query(alloc, out, index)?;
            write_knowledge(out, knowledge)
        }
        Reply::Stored { knowledge } => write_knowledge(out, knowledge),
        Reply::Drawn {
            guid,
            least,
            greatest,
        } => write_drawn(alloc, out, *guid, *least, *greatest),
        Reply::Refused { code } => write_error(out, code_number(*code).unwrap_or(0)),
        _ => Ok(()),
    }
}

/// What a sub-response holds.
pub fn write_reply(alloc: Global, out: &mut Octets, submitted: &Submitted) -> Result<(), NoMemory>
    ensures { OnOk result (out.new ≡ out.old ++ reply_objects submitted.now) }
{
    match submitted {
        Submitted::Answered { reply } => write_answered(alloc, out, reply),
        Submitted::DiskFault => write_error(out, 1002),
        Submitted::JournalFull => write_error(out, 1003),
        Submitted::NoMemory => write_error(out, 1004),
    }
}

/// The status byte of a sub-response.
pub fn status_byte(submitted: &Submitted) -> u8
    ensures { result ≡ status_byte submitted.now }
{
    match submitted {
        Submitted::Answered {
            reply: Reply::Refused { .. },
        } => 1,
        Submitted::Answered { .. } => 0,
        _ => 1,
    }
}
