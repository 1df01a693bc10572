// Responses, byte by byte. The objects: a start of 32 bits is 2, 4 more for compound, 8 times the type and 131,072 times the
// length; an end of 16 bits is 3 and 4 times the type.
ghost use Rattle.wire_responses.specs.Forms.{HasForm};

use compact_values::{ExGuid, Guid, NoMemory, Octets, Seq};
use data_elements::WireFault;
use doc_model::{
    Answer, Body, CellResponse, Code, Element, Knowledge, NumberedElement, Range, Reply, Seen,
    Submitted,
};
use std::alloc::Global;
use std::test::Fail;
use test_forms::{bytes_of, guid, id};
use wire_responses::*;

/// The numbers 1 to 1000 are drawn.
const DRAWN: &[&str] = &[
    "R",
    "0E 02 06 00 03 17 00",
    "0A 04 26 00 G 03 A2 0F",
    "07 01",
    "8B 01",
];

/// A draw is refused with 4.
const REFUSED: &[&str] = &[
    "R",
    "0E 02 06 00 03 17 01",
    "6E 02 20 00 E",
    "32 03 08 00 04 00 00 00",
    "37 01",
    "07 01",
    "8B 01",
];

/// The pull of an empty document.
const EMPTY: &[&str] = &[
    "R",
    "0E 02 06 00 03 05 00",
    "FA 02 04 00 00 00",
    "84 00",
    "26 02 20 00 K",
    "A4 00",
    "51",
    "13 01",
    "41",
    "07 01",
    "8B 01",
];

/// The whole request failed with 3.
const FAILED: &[&str] = &[
    "F",
    "6E 02 20 00 E",
    "32 03 08 00 03 00 00 00",
    "37 01",
    "8B 01",
];

/// There is access.
const ACCESS: &[&str] = &[
    "R",
    "0E 02 06 00 03 03 00",
    "1E 02 00 00",
    "6E 02 20 00 H",
    "92 02 08 00 00 00 00 00",
    "37 01",
    "0F 01",
    "36 02 00 00",
    "6E 02 20 00 H",
    "92 02 08 00 00 00 00 00",
    "37 01",
    "1B 01",
    "07 01",
    "8B 01",
];

/// A pull of one element: a cell manifest with the serial number 1, whose current revision is null.
const PULLED: &[&str] = &[
    "0C 00 0B 00 9D CF 29 F3 39 94 06 9B",
    "16 03 02 00 00",
    "AC 02 00",
    "0C 56 0C G 80 G 01 00 00 00 00 00 00 00 07",
    "58 02 00",
    "05",
    "55",
    "0E 02 06 00 03 05 00",
    "FA 02 24 00 14 G 00",
    "84 00",
    "26 02 20 00 K",
    "A4 00",
    "78 24 G 03 03",
    "51",
    "13 01",
    "41",
    "07 01",
    "8B 01",
];

/// What is written of one answer to a sub-request of id 1.
fn written(alloc: Global, kind: u64, reply: Reply) -> Result<Octets, NoMemory>
    requires { HasForm (Submitted.Answered reply) }
{
    let mut answers = Seq::new(alloc);
    answers.push(Answer {
        id: 1,
        kind,
        submitted: Submitted::Answered { reply },
    })?;
    write_cell_response(alloc, &answers)
}

fn is_written(alloc: Global, kind: u64, reply: Reply, form: &[&str]) -> Result<bool, NoMemory>
    requires { HasForm (Submitted.Answered reply) }
{
    let bytes = written(alloc, kind, reply)?;
    let wanted = bytes_of(alloc, form)?;
    Ok(bytes.as_slice() == wanted.as_slice())
}

fn is_read(alloc: Global, form: &[&str], expected: CellResponse) -> Result<bool, NoMemory> {
    let bytes = bytes_of(alloc, form)?;
    Ok(read_cell_response(alloc, bytes.as_slice()) == Ok(expected))
}

/// An answer to a sub-request of id 1 without any part.
fn blank(alloc: Global, kind: u64) -> Seen {
    Seen {
        id: 1,
        kind,
        fault: None,
        guid: Guid { number: 0 },
        index: ExGuid::Null,
        knowledge: Knowledge {
            ranges: Seq::new(alloc),
        },
        least: 0,
        greatest: 0,
    }
}

/// A response of one answer without elements.
fn response(alloc: Global, seen: Seen) -> Result<CellResponse, NoMemory> {
    let mut answers = Seq::new(alloc);
    answers.push(seen)?;
    Ok(CellResponse {
        answers,
        elements: Seq::new(alloc),
    })
}

/// The element of the pull.
fn element() -> NumberedElement {
    NumberedElement {
        serial: 1,
        element: Element {
            id: id(1),
            body: Body::Cell {
                current: ExGuid::Null,
            },
        },
    }
}

/// The knowledge of the serial number 1.
fn knowledge(alloc: Global) -> Result<Knowledge, NoMemory> {
    let mut ranges = Seq::new(alloc);
    ranges.push(Range {
        guid: guid(),
        from: 1,
        to: 1,
    })?;
    Ok(Knowledge { ranges })
}

#[test]
fn a_draw_is_written(rt: HostRuntime) -> Result<(), Fail> {
    let reply = Reply::Drawn {
        guid: guid(),
        least: 1,
        greatest: 1000,
    };
    assert!(rt; is_written(rt.alloc(), 11, reply, DRAWN)?);
    Ok(())
}

#[test]
fn a_draw_is_read(rt: HostRuntime) -> Result<(), Fail> {
    let mut seen = blank(rt.alloc(), 11);
    seen.guid = guid();
    seen.least = 1;
    seen.greatest = 1000;
    let expected = response(rt.alloc(), seen)?;
    assert!(rt; is_read(rt.alloc(), DRAWN, expected)?);
    Ok(())
}

#[test]
fn a_refusal_is_written(rt: HostRuntime) -> Result<(), Fail> {
    let reply = Reply::Refused {
        code: Code::NotSupported,
    };
    assert!(rt; is_written(rt.alloc(), 11, reply, REFUSED)?);
    Ok(())
}

#[test]
fn a_refusal_is_read(rt: HostRuntime) -> Result<(), Fail> {
    let mut seen = blank(rt.alloc(), 11);
    seen.fault = Some(4);
    let expected = response(rt.alloc(), seen)?;
    assert!(rt; is_read(rt.alloc(), REFUSED, expected)?);
    Ok(())
}

#[test]
fn access_is_written(rt: HostRuntime) -> Result<(), Fail> {
    assert!(rt; is_written(rt.alloc(), 1, Reply::Access, ACCESS)?);
    Ok(())
}

#[test]
fn access_is_read(rt: HostRuntime) -> Result<(), Fail> {
    let expected = response(rt.alloc(), blank(rt.alloc(), 1))?;
    assert!(rt; is_read(rt.alloc(), ACCESS, expected)?);
    Ok(())
}

#[test]
fn the_pull_of_an_empty_document_is_written(rt: HostRuntime) -> Result<(), Fail> {
    let reply = Reply::Pulled {
        guid: guid(),
        index: ExGuid::Null,
        elements: Seq::new(rt.alloc()),
        knowledge: Knowledge {
            ranges: Seq::new(rt.alloc()),
        },
    };
    assert!(rt; is_written(rt.alloc(), 2, reply, EMPTY)?);
    Ok(())
}

#[test]
fn the_pull_of_an_empty_document_is_read(rt: HostRuntime) -> Result<(), Fail> {
    let expected = response(rt.alloc(), blank(rt.alloc(), 2))?;
    assert!(rt; is_read(rt.alloc(), EMPTY, expected)?);
    Ok(())
}

#[test]
fn a_pull_is_written(rt: HostRuntime) -> Result<(), Fail> {
    let mut elements = Seq::new(rt.alloc());
    elements.push(element())?;
    let reply = Reply::Pulled {
        guid: guid(),
        index: id(2),
        elements,
        knowledge: knowledge(rt.alloc())?,
    };
    assert!(rt; is_written(rt.alloc(), 2, reply, PULLED)?);
    Ok(())
}

#[test]
fn a_pull_is_read(rt: HostRuntime) -> Result<(), Fail> {
    let mut seen = blank(rt.alloc(), 2);
    seen.index = id(2);
    seen.knowledge = knowledge(rt.alloc())?;
    let mut expected = response(rt.alloc(), seen)?;
    expected.elements.push(element())?;
    assert!(rt; is_read(rt.alloc(), PULLED, expected)?);
    Ok(())
}

#[test]
fn a_failure_of_the_request_is_written(rt: HostRuntime) -> Result<(), Fail> {
    let bytes = write_cell_failure(rt.alloc(), 3)?;
    let failed = bytes_of(rt.alloc(), FAILED)?;
    assert_eq!(rt; bytes.as_slice(), failed.as_slice());
    Ok(())
}

#[test]
fn a_failure_of_the_request_is_no_response(rt: HostRuntime) -> Result<(), Fail> {
    let fault = Err(WireFault::SchemaFault { place: 16 });
    let failed = bytes_of(rt.alloc(), FAILED)?;
    assert_eq!(rt; read_cell_response(rt.alloc(), failed.as_slice()), fault);
    Ok(())
}
