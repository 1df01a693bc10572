// Writing a request. Where memory runs out, what was written so far is dropped.
ghost use Rattle.std.specs.Prelude.{◌≡◌, ◌++◌, true, OnOk, IfOk};
ghost use Rattle.std.specs.List.{flat_map};
ghost use Rattle.compact_values.specs.Compact.{compact};
ghost use Rattle.stream_objects.specs.Written.{started};
ghost use Rattle.doc_model.specs.wire.WrittenRequests.{query_bytes, put_bytes, allocate_bytes, held_bytes, sub_bytes, sent_bytes, sent_package_bytes, request_front, request_bytes};
ghost use Rattle.stream_objects.specs.declared.object_types.TheConstants.{SUB_REQUEST};

use compact_values::{ExGuid, NoMemory, Octets, Serial, write_compact, write_exguid};
use data_elements::{write_element, write_knowledge};
use doc_model::{CellRequest, Element, WireKind, WireSub, compact_size, exguid_size};
use std::alloc::Global;
use stream_objects::{begin, finish, object_types, start};

/// Version 12, least version 11, and the signature of requests.
const FRONT: [u8; 12] = [
    0x0C, 0x00, 0x0B, 0x00, 0x9C, 0xCF, 0x29, 0xF3, 0x39, 0x94, 0x06, 0x9B,
];

// A put.
#[tactic(auto, unfolding(doc_model::specs::wire::WrittenRequests::put_bytes, stream_objects::specs::Written::started))]
fn write_put(out: &mut Octets, index: &ExGuid, expected: &ExGuid, flags: u8) -> Result<(), NoMemory>
    ensures { OnOk result (out.new ≡ out.old ++ put_bytes index.now expected.now flags) }
{
    let size = exguid_size(index) + exguid_size(expected) + 1;
    start(out, object_types::PUT_CHANGES_REQUEST, false, size)?;
    write_exguid(out, index)?;
    write_exguid(out, expected)?;
    out.push(flags)
}

// A draw.
#[tactic(auto, unfolding(doc_model::specs::wire::WrittenRequests::allocate_bytes, stream_objects::specs::Written::started))]
fn write_allocate(out: &mut Octets, count: u64) -> Result<(), NoMemory>
    ensures { OnOk result (out.new ≡ out.old ++ allocate_bytes count) }
{
    let size = compact_size(count) + 1;
    start(
        out,
        object_types::ALLOCATE_EXTENDED_GUID_RANGE_REQUEST,
        false,
        size,
    )?;
    write_compact(out, count)?;
    out.push(0)
}

// A query.
#[tactic(auto, unfolding(doc_model::specs::wire::WrittenRequests::query_bytes))]
fn write_query(out: &mut Octets) -> Result<(), NoMemory>
    ensures { OnOk result (out.new ≡ out.old ++ query_bytes) }
{
    begin(out, object_types::QUERY_CHANGES_REQUEST, false, &[0])
}

// What a sub-request holds.
#[tactic(auto, unfolding(doc_model::specs::wire::WrittenRequests::held_bytes))]
fn write_held(out: &mut Octets, what: &WireKind) -> Result<(), NoMemory>
    ensures { OnOk result (out.new ≡ out.old ++ held_bytes what.now) }
{
    match what {
        WireKind::Access | WireKind::Unknown => Ok(()),
        WireKind::Pull { knowledge } => {
            write_query(out)?;
            write_knowledge(out, knowledge)
        }
        WireKind::Put {
            index,
            expected,
            flags,
        } => write_put(out, index, expected, *flags),
        WireKind::Draw { count } => write_allocate(out, *count),
    }
}

// The start of a sub-request and its fields.
#[tactic(auto, unfolding(stream_objects::specs::Written::started))]
fn write_head(out: &mut Octets, sub: &WireSub) -> Result<(), NoMemory>
    ensures { OnOk result (out.new ≡ out.old ++ started SUB_REQUEST true (compact sub.now.id ++ compact sub.now.kind ++ compact 0)) }
{
    let size = compact_size(sub.id) + compact_size(sub.kind) + compact_size(0);
    start(out, object_types::SUB_REQUEST, true, size)?;
    write_compact(out, sub.id)?;
    write_compact(out, sub.kind)?;
    write_compact(out, 0)
}

// A sub-request.
#[tactic(auto, unfolding(doc_model::specs::wire::WrittenRequests::sub_bytes))]
fn write_sub(out: &mut Octets, sub: &WireSub) -> Result<(), NoMemory>
    ensures { OnOk result (out.new ≡ out.old ++ sub_bytes sub.now) }
{
    write_head(out, sub)?;
    write_held(out, &sub.what)?;
    finish(out, object_types::SUB_REQUEST)
}

// The sub-requests, in order.
fn write_subs(out: &mut Octets, subs: &[WireSub]) -> Result<(), NoMemory>
    ensures { OnOk result (out.new ≡ out.old ++ flat_map sub_bytes subs.now) }
{
    for sub in subs {
        write_sub(out, sub)?;
    }
    Ok(())
}

// The elements with null serial numbers, in order.
fn write_elements(out: &mut Octets, elements: &[Element]) -> Result<(), NoMemory>
    ensures { OnOk result (out.new ≡ out.old ++ flat_map sent_bytes elements.now) }
{
    for element in elements {
        write_element(out, element, &Serial::Null)?;
    }
    Ok(())
}

// The package.
#[tactic(auto, unfolding(doc_model::specs::wire::WrittenRequests::sent_package_bytes))]
fn write_package(out: &mut Octets, elements: &[Element]) -> Result<(), NoMemory>
    ensures { OnOk result (out.new ≡ out.old ++ sent_package_bytes elements.now) }
{
    begin(out, object_types::DATA_ELEMENT_PACKAGE, true, &[0])?;
    write_elements(out, elements)?;
    finish(out, object_types::DATA_ELEMENT_PACKAGE)
}

/// Writes a request as clients send it (MS-FSSHTTPB 2.2.2): version 12 and least version 11, the sub-requests with
/// priority 0, and behind them the package, whose elements have null serial numbers.
///
/// It is read as the same request again where each kind is that of what the sub-request asks for, and the limits are kept:
/// 64 sub-requests, 4 puts, 8,192 elements and 262,144 objects.
#[tactic(auto, unfolding(doc_model::specs::wire::WrittenRequests::request_bytes))]
pub fn write_cell_request(alloc: Global, request: &CellRequest) -> Result<Octets, NoMemory>
    ensures { IfOk result (λ bytes. bytes ≡ request_bytes request.now) }
{
    let mut out = Octets::new(alloc);
    out.extend_from_slice(&FRONT)?;
    begin(&mut out, object_types::REQUEST, true, &[])?;
    write_subs(&mut out, request.subs.as_slice())?;
    write_package(&mut out, request.elements.as_slice())?;
    finish(&mut out, object_types::REQUEST)?;
    Ok(out)
}
