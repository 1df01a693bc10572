// Writing data elements, packages of them and knowledge (MS-FSSHTTPB 2.2.1.12 and 2.2.1.13).
ghost use Rattle.std.specs.Prelude.{◌≡◌, ◌++◌, true, length, take, OnOk, OnErr};
ghost use Rattle.std.specs.List.{flat_map};
ghost use Rattle.compact_values.specs.Compact.{compact};
ghost use Rattle.compact_values.specs.Ids.{exguid, serial};
ghost use Rattle.stream_objects.specs.Written.{started};
ghost use Rattle.doc_model.specs.wire.WrittenElements.{kind_number, body_bytes, element_bytes, numbered_bytes, package_bytes, range_bytes, ranges_bytes, cell_knowledge_bytes, knowledge_bytes};

use crate::write_group::{write_blob, write_objects};
use compact_values::{
    Guid, NoMemory, Octets, Serial, guid_bytes, write_compact, write_exguid, write_guid,
    write_serial,
};
use doc_model::{
    Body, Element, Knowledge, Numbered, NumberedElement, Range, compact_size, exguid_size,
    serial_size,
};
use stream_objects::{begin, finish, object_types, start};
use wire_kinds::{write_row, write_rows};

/// The GUID of cell knowledge.
const CELL_KNOWLEDGE: Guid = Guid {
    number: 0x327a_35f6_0761_4414_9686_51e9_0066_7a4d,
};

// The number of an element's kind.
fn kind_number(body: &Body) -> u64
    ensures kind { result ≡ kind_number body.now }
{
    match body {
        Body::Index { .. } => 1,
        Body::Storage { .. } => 2,
        Body::Cell { .. } => 3,
        Body::Revision { .. } => 4,
        Body::Group { .. } => 5,
        Body::Blob { .. } => 10,
    }
}

// The children of an element, in the order in which they are written. Without memory only a part of them is written.
#[tactic(auto, unfolding(doc_model::specs::wire::WrittenElements::body_bytes))]
fn write_body(out: &mut Octets, body: &Body) -> Result<(), NoMemory>
    ensures ok { OnOk result (out.new ≡ out.old ++ body_bytes body.now) }
    ensures err { OnErr result (take (length out.old) out.new ≡ out.old) }
{
    match body {
        Body::Index {
            manifests,
            cells,
            revisions,
        } => {
            write_rows(
                out,
                object_types::STORAGE_INDEX_MANIFEST_MAPPING,
                manifests.as_slice(),
            )?;
            write_rows(
                out,
                object_types::STORAGE_INDEX_CELL_MAPPING,
                cells.as_slice(),
            )?;
            write_rows(
                out,
                object_types::STORAGE_INDEX_REVISION_MAPPING,
                revisions.as_slice(),
            )
        }
        Body::Storage { schema, roots } => {
            write_row(out, object_types::STORAGE_MANIFEST_SCHEMA_GUID, schema)?;
            write_rows(
                out,
                object_types::STORAGE_MANIFEST_ROOT_DECLARE,
                roots.as_slice(),
            )
        }
        Body::Cell { current } => write_row(
            out,
            object_types::CELL_MANIFEST_CURRENT_REVISION,
            current,
        ),
        Body::Revision {
            id,
            base,
            roots,
            groups,
        } => {
            write_row(out, object_types::REVISION_MANIFEST, &(*id, *base))?;
            write_rows(
                out,
                object_types::REVISION_MANIFEST_ROOT_DECLARE,
                roots.as_slice(),
            )?;
            write_rows(
                out,
                object_types::REVISION_MANIFEST_OBJECT_GROUP_REFERENCES,
                groups.as_slice(),
            )
        }
        Body::Group { objects } => write_objects(out, objects.as_slice()),
        Body::Blob { bytes } => write_blob(out, bytes.as_slice()),
    }
}

// The start of an element and its fields.
#[tactic(auto, unfolding(stream_objects::specs::Written::started))]
fn write_head(out: &mut Octets, element: &Element, number: &Serial) -> Result<(), NoMemory>
    ensures ok { OnOk result (out.new ≡ out.old ++ started 1 true (exguid element.now.id ++ serial number.now ++ compact (kind_number element.now.body))) }
    ensures err { OnErr result (take (length out.old) out.new ≡ out.old) }
{
    let kind = kind_number(&element.body);
    let size = exguid_size(&element.id) + serial_size(number) + compact_size(kind);
    start(out, object_types::DATA_ELEMENT, true, size)?;
    write_exguid(out, &element.id)?;
    write_serial(out, number)?;
    write_compact(out, kind)
}

// An element. Without memory only a part of it is written.
#[tactic(auto, unfolding(doc_model::specs::wire::WrittenElements::element_bytes))]
fn append_element(out: &mut Octets, element: &Element, number: &Serial) -> Result<(), NoMemory>
    ensures ok { OnOk result (out.new ≡ out.old ++ element_bytes element.now number.now) }
    ensures err { OnErr result (take (length out.old) out.new ≡ out.old) }
{
    write_head(out, element, number)?;
    write_body(out, &element.body)?;
    finish(out, object_types::DATA_ELEMENT)
}

/// Adds the written form of an element with a serial number (MS-FSSHTTPB 2.2.1.12.1) at the end. Without memory nothing is
/// added.
pub fn write_element(out: &mut Octets, element: &Element, serial: &Serial) -> Result<(), NoMemory>
    ensures ok { OnOk result (out.new ≡ out.old ++ element_bytes element.now serial.now) }
    ensures err { OnErr result (out.new ≡ out.old) }
{
    let before = out.len();
    let written = append_element(out, element, serial);
    if written.is_err() {
        out.truncate(before);
    }
    written
}

// An element with its number, of a document's GUID.
#[tactic(auto, unfolding(doc_model::specs::wire::WrittenElements::numbered_bytes))]
fn append_numbered(out: &mut Octets, guid: Guid, numbered: &NumberedElement) -> Result<(), NoMemory>
    ensures ok { OnOk result (out.new ≡ out.old ++ numbered_bytes guid numbered.now) }
    ensures err { OnErr result (take (length out.old) out.new ≡ out.old) }
{
    let number = Serial::Number {
        guid,
        value: numbered.serial,
    };
    append_element(out, &numbered.element, &number)
}

// The elements of a package, in order.
fn append_each(out: &mut Octets, guid: Guid, elements: &[NumberedElement]) -> Result<(), NoMemory>
    ensures ok { OnOk result (out.new ≡ out.old ++ flat_map (numbered_bytes guid) elements.now) }
    ensures err { OnErr result (take (length out.old) out.new ≡ out.old) }
{
    for numbered in elements {
        append_numbered(out, guid, numbered)?;
    }
    Ok(())
}

// A package. Without memory only a part of it is written.
#[tactic(auto, unfolding(doc_model::specs::wire::WrittenElements::package_bytes))]
fn append_package(
    out: &mut Octets,
    guid: Guid,
    elements: &[NumberedElement],
) -> Result<(), NoMemory>
    ensures ok { OnOk result (out.new ≡ out.old ++ package_bytes guid elements.now) }
    ensures err { OnErr result (take (length out.old) out.new ≡ out.old) }
{
    begin(out, object_types::DATA_ELEMENT_PACKAGE, true, &[0])?;
    append_each(out, guid, elements)?;
    finish(out, object_types::DATA_ELEMENT_PACKAGE)
}

/// Adds the written form of a package at the end (MS-FSSHTTPB 2.2.1.12): the elements in order, each with its number as a
/// serial number of the document's GUID. Without memory nothing is added.
pub fn write_package(out: &mut Octets, guid: Guid, elements: &Numbered) -> Result<(), NoMemory>
    ensures ok { OnOk result (out.new ≡ out.old ++ package_bytes guid elements.now) }
    ensures err { OnErr result (out.new ≡ out.old) }
{
    let before = out.len();
    let written = append_package(out, guid, elements.as_slice());
    if written.is_err() {
        out.truncate(before);
    }
    written
}

// A range.
#[tactic(auto, unfolding(doc_model::specs::wire::WrittenElements::range_bytes, stream_objects::specs::Written::started))]
fn append_range(out: &mut Octets, range: &Range) -> Result<(), NoMemory>
    ensures ok { OnOk result (out.new ≡ out.old ++ range_bytes range.now) }
    ensures err { OnErr result (take (length out.old) out.new ≡ out.old) }
{
    let size = 16 + compact_size(range.from) + compact_size(range.to);
    start(out, object_types::CELL_KNOWLEDGE_RANGE, false, size)?;
    write_guid(out, range.guid)?;
    write_compact(out, range.from)?;
    write_compact(out, range.to)
}

// The ranges, in order.
fn append_each_range(out: &mut Octets, ranges: &[Range]) -> Result<(), NoMemory>
    ensures ok { OnOk result (out.new ≡ out.old ++ flat_map range_bytes ranges.now) }
    ensures err { OnErr result (take (length out.old) out.new ≡ out.old) }
{
    for range in ranges {
        append_range(out, range)?;
    }
    Ok(())
}

// The object of the ranges.
#[tactic(auto, unfolding(doc_model::specs::wire::WrittenElements::ranges_bytes))]
fn append_ranges(out: &mut Octets, ranges: &[Range]) -> Result<(), NoMemory>
    ensures ok { OnOk result (out.new ≡ out.old ++ ranges_bytes ranges.now) }
    ensures err { OnErr result (take (length out.old) out.new ≡ out.old) }
{
    begin(out, object_types::CELL_KNOWLEDGE, true, &[])?;
    append_each_range(out, ranges)?;
    finish(out, object_types::CELL_KNOWLEDGE)
}

// The object of cell knowledge.
#[tactic(auto, unfolding(doc_model::specs::wire::WrittenElements::cell_knowledge_bytes))]
fn append_cell_knowledge(out: &mut Octets, ranges: &[Range]) -> Result<(), NoMemory>
    ensures ok { OnOk result (out.new ≡ out.old ++ cell_knowledge_bytes ranges.now) }
    ensures err { OnErr result (take (length out.old) out.new ≡ out.old) }
{
    begin(
        out,
        object_types::SPECIALIZED_KNOWLEDGE,
        true,
        &guid_bytes(CELL_KNOWLEDGE),
    )?;
    append_ranges(out, ranges)?;
    finish(out, object_types::SPECIALIZED_KNOWLEDGE)
}

// Knowledge. Without memory only a part of it is written.
#[tactic(auto, unfolding(doc_model::specs::wire::WrittenElements::knowledge_bytes))]
fn append_knowledge(out: &mut Octets, ranges: &[Range]) -> Result<(), NoMemory>
    ensures ok { OnOk result (out.new ≡ out.old ++ knowledge_bytes (record { ranges = ranges.now })) }
    ensures err { OnErr result (take (length out.old) out.new ≡ out.old) }
{
    begin(out, object_types::KNOWLEDGE, true, &[])?;
    append_cell_knowledge(out, ranges)?;
    finish(out, object_types::KNOWLEDGE)
}

/// Adds the written form of knowledge at the end (MS-FSSHTTPB 2.2.1.13): its ranges in order, in the two objects of cell
/// knowledge, which are there even where there is no range. Without memory nothing is added.
pub fn write_knowledge(out: &mut Octets, knowledge: &Knowledge) -> Result<(), NoMemory>
    ensures ok { OnOk result (out.new ≡ out.old ++ knowledge_bytes knowledge.now) }
    ensures err { OnErr result (out.new ≡ out.old) }
{
    let before = out.len();
    let written = append_knowledge(out, knowledge.ranges.as_slice());
    if written.is_err() {
        out.truncate(before);
    }
    written
}
