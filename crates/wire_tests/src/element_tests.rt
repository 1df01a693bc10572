// Data elements and packages, byte by byte. Their objects: a start of 16 bits is 4 for compound, 8 times the type and 512
// times the length; an end of 8 bits is 1 and 4 times the type.
use crate::test_bodies::{
    a_bare_revision, a_blob, a_blob_group, a_group, a_linked_group, a_revision, a_storage,
    an_index, an_inline_group,
};
use crate::test_lists::list_of;
use compact_values::{ExGuid, NoMemory, Octets, Seq, Serial};
use data_elements::*;
use doc_model::{Body, Element, Elements, Numbered, NumberedElement};
use std::alloc::Global;
use std::process::Abort;
use std::test::Fail;
use stream_objects::read_tree;
use test_forms::{bytes_of, guid, id};

/// The start of an element without an id and with the serial number 7 of the GUID, up to its kind.
const HEAD: &str = "0C 36 00 80 G 07 00 00 00 00 00 00 00";

/// What an element says, its kind and children, and whether it is written so.
#[derive(Drop)]
struct Row {
    form: Octets,
    body: Body,
    written: bool,
}

/// Rows in order, and whether memory ran out.
#[derive(Drop)]
struct Table {
    alloc: Global,
    rows: Seq<Row>,
    full: bool,
}

impl Table {
    fn new(alloc: Global) -> Table {
        let rows = Seq::new(alloc);
        Table {
            alloc,
            rows,
            full: false,
        }
    }

    /// What is written so, and read again.
    fn both(&mut self, form: &str, body: Result<Body, NoMemory>) {
        self.full = self.add(form, body, true).is_err() || self.full;
    }

    /// What is only read so.
    fn read(&mut self, form: &str, body: Result<Body, NoMemory>) {
        self.full = self.add(form, body, false).is_err() || self.full;
    }

    fn add(
        &mut self,
        form: &str,
        body: Result<Body, NoMemory>,
        written: bool,
    ) -> Result<(), NoMemory> {
        let form = bytes_of(self.alloc, &[HEAD, form, "05"])?;
        let body = body?;
        self.rows.push(Row {
            form,
            body,
            written,
        })
    }
}

/// What is read of these bytes. None where they are no object.
fn read(alloc: Global, bytes: &[u8]) -> Option<Result<Elements, ElementFault>> {
    match read_tree(alloc, bytes, 0) {
        Ok((tree, _next)) => Some(read_package(alloc, bytes, &tree)),
        Err(_) => None,
    }
}

fn is_written(alloc: Global, element: &Element, form: &Octets) -> Result<bool, NoMemory> {
    let serial = Serial::Number {
        guid: guid(),
        value: 7,
    };
    let mut out = Octets::new(alloc);
    write_element(&mut out, element, &serial)?;
    Ok(out == *form)
}

fn is_read(alloc: Global, element: Element, form: &Octets) -> Result<bool, NoMemory> {
    let mut package = bytes_of(alloc, &["AC 02 00"])?;
    package.extend_from_slice(form.as_slice())?;
    package.push(0x55)?;
    let elements = list_of(alloc, element)?;
    Ok(read(alloc, package.as_slice()) == Some(Ok(elements)))
}

fn check_row(rt: &impl Abort, alloc: Global, row: Row) -> Result<(), Fail> {
    let Row {
        form,
        body,
        written,
    } = row;
    let element = Element {
        id: ExGuid::Null,
        body,
    };
    if written {
        assert!(rt; is_written(alloc, &element, &form)?);
    }
    assert!(rt; is_read(alloc, element, &form)?);
    Ok(())
}

/// Checks the rows of a table in order.
fn play(rt: &impl Abort, table: Table) -> Result<(), Fail> {
    let Table { alloc, rows, full } = table;
    assert!(rt; !full);
    for row in rows.into_vec() {
        check_row(rt, alloc, row)?;
    }
    Ok(())
}

#[test]
fn elements_that_are_written(rt: HostRuntime) -> Result<(), Fail> {
    let alloc = rt.alloc();
    let mut table = Table::new(alloc);
    table.both(
        "03 88 24 0C G 00 70 28 00 00 0C G 00 68 46 14 G 0C G 00",
        an_index(alloc),
    );
    table.both("05 60 20 G 38 06 00 00 00", a_storage(alloc, 1));
    table.both("09 D0 44 0C G 14 G 50 04 00 00 C8 02 00", a_revision(alloc));
    table.both(
        "0B EC 00 28 4E 04 G 0C G 03 B2 04 03 00 C0 0A 00 03 05 00 00 75 \
         F4 00 E0 28 03 00 00 0C G B0 0A 00 00 05 07 08 79",
        a_group(alloc, 300),
    );
    // the size 0 is left out
    table.both(
        "0B EC 00 28 4A 04 G 0C G 03 03 00 C0 0A 00 03 05 00 00 75 \
         F4 00 E0 28 03 00 00 0C G B0 0A 00 00 05 07 08 79",
        a_group(alloc, 0),
    );
    table.both("15 10 08 07 01 02 03", a_blob(alloc, "01 02 03"));
    play(&rt, table)
}

#[test]
fn elements_that_are_read(rt: HostRuntime) -> Result<(), Fail> {
    let alloc = rt.alloc();
    let mut table = Table::new(alloc);
    // no size is the size 0
    table.read(
        "0B EC 00 28 0A 00 00 03 00 00 75 F4 00 E0 06 00 00 00 79",
        a_blob_group(alloc, 0),
    );
    table.read(
        "0B EC 00 28 0C 00 00 03 00 00 00 75 F4 00 E0 06 00 00 00 79",
        a_blob_group(alloc, 0),
    );
    table.read(
        "0B EC 00 28 0E 00 00 03 B2 04 00 00 75 F4 00 E0 06 00 00 00 79",
        a_blob_group(alloc, 300),
    );
    // the data before the declarations
    table.read(
        "0B F4 00 B0 08 00 00 03 AA B0 08 00 00 03 BB 79 \
         EC 00 C0 0A 00 03 03 00 00 C0 0A 00 05 03 00 00 75",
        an_inline_group(alloc, &["AA", "BB"]),
    );
    // the roots before the schema
    table.read(
        "05 38 06 00 00 00 38 06 00 00 00 60 20 G",
        a_storage(alloc, 2),
    );
    // the id is null, the base has the value 1
    table.read(
        "09 D0 24 00 0C G",
        a_bare_revision(alloc, ExGuid::Null, id(1)),
    );
    play(&rt, table)
}

/// The start of a package, and in it of an element up to its kind.
const FRONT: &str = "AC 02 00 0C 06 00 00";

/// Elements out of their form, from their kind on, and the place of the fault.
const MALFORMED: [(&str, usize); 21] = [
    // 18 with 1C
    (
        "0B EC 00 C0 0A 00 03 03 00 00 75 F4 00 E0 06 00 00 00 79",
        5,
    ),
    // the blob of 05 is null, that of 1C isn't
    (
        "0B EC 00 28 0A 00 00 03 00 00 75 F4 00 E0 26 00 00 0C G 79",
        5,
    ),
    // a declaration without data
    ("0B EC 00 C0 0A 00 03 03 00 00 75 F4 00 79", 5),
    // a fragment, kind 6
    ("0D", 5),
    // two 0B
    ("07 58 02 00 58 02 00", 5),
    // a 1D that isn't compound
    ("0B E8 00 F4 00 79", 10),
    // a byte too many in 02, 0B and 11
    ("15 10 04 00 00", 10),
    ("07 58 04 00 00", 10),
    ("03 88 06 00 00 00", 10),
    // in 16 and 1E
    (
        "0B EC 00 C0 0A 00 03 03 00 00 75 F4 00 B0 08 00 00 00 00 79",
        22,
    ),
    ("0B EC 00 75 F4 02 00 79", 13),
    // in 07, behind a 0C, and in 0C
    ("05 60 20 G 38 08 00 00 00 00", 28),
    ("05 60 22 G 00", 10),
    // in 0A and 19, behind a 1A, and in 1A
    ("09 D0 04 00 00 50 06 00 00 00", 14),
    ("09 D0 04 00 00 C8 04 00 00", 14),
    ("09 D0 06 00 00 00", 10),
    // in 0D and 0E
    ("03 68 08 00 00 00 00", 10),
    ("03 70 0A 00 00 00 00 00", 10),
    // in 18, whose 16 is in form
    (
        "0B EC 00 C0 0C 00 03 03 00 00 00 75 F4 00 B0 06 00 00 00 79",
        12,
    ),
    // in 05 with four compact integers, whose 1C is in form
    (
        "0B EC 00 28 0E 00 00 03 00 00 00 00 75 F4 00 E0 06 00 00 00 79",
        12,
    ),
    // in 1C, whose 05 is in form
    (
        "0B EC 00 28 0A 00 00 03 00 00 75 F4 00 E0 08 00 00 00 00 79",
        22,
    ),
];

fn is_refused(alloc: Global, forms: &[&str], place: usize) -> Result<bool, NoMemory> {
    let bytes = bytes_of(alloc, forms)?;
    Ok(read(alloc, bytes.as_slice()) == Some(Err(ElementFault::SchemaFault { place })))
}

#[test]
fn elements_out_of_form(rt: HostRuntime) -> Result<(), Fail> {
    let alloc = rt.alloc();
    for (form, place) in &MALFORMED {
        assert!(rt;
            is_refused(alloc, &[FRONT, form, "05 55"], *place)?,
            "{form}"
        );
    }
    // a byte too many in 15 and 01
    assert!(rt; is_refused(alloc, &["AC 04 00 00 55"], 2)?);
    assert!(rt; is_refused(alloc, &["AC 02 00 0C 08 00 00 03 00 05 55"], 5)?);
    Ok(())
}

/// How many elements are read of a package of so many elements without anything, or why none are.
fn many(alloc: Global, count: usize) -> Result<Option<Result<usize, ElementFault>>, NoMemory> {
    let mut bytes = bytes_of(alloc, &["AC 02 00"])?;
    for _ in 0..count {
        bytes.extend_from_slice(&[0x0C, 0x06, 0x00, 0x00, 0x03, 0x05])?;
    }
    bytes.push(0x55)?;
    Ok(read(alloc, bytes.as_slice()).map(|found| found.map(|elements| elements.len())))
}

#[test]
fn too_many_elements(rt: HostRuntime) -> Result<(), Fail> {
    assert!(rt; many(rt.alloc(), 8192)? == Some(Ok(8192)));
    assert!(rt; many(rt.alloc(), 8193)? == Some(Err(ElementFault::TooMany)));
    Ok(())
}

/// An element of each kind, in order.
fn some_bodies(alloc: Global) -> Result<Seq<Body>, NoMemory> {
    let mut bodies = Seq::new(alloc);
    bodies.push(an_index(alloc)?)?;
    bodies.push(a_storage(alloc, 1)?)?;
    bodies.push(Body::Cell { current: id(3) })?;
    bodies.push(a_revision(alloc)?)?;
    bodies.push(a_group(alloc, 300)?)?;
    bodies.push(a_linked_group(alloc)?)?;
    bodies.push(a_blob(alloc, "G")?)?;
    Ok(bodies)
}

/// Elements of these kinds, with the ids of the values 0, 1 and so on.
fn some_elements(alloc: Global) -> Result<Elements, NoMemory> {
    let mut elements = Seq::new(alloc);
    let mut number = 0_u32;
    for body in some_bodies(alloc)?.into_vec() {
        let id = id(number);
        elements.push(Element { id, body })?;
        number = number.saturating_add(1);
    }
    Ok(elements)
}

/// The same with the serial numbers 0, 1 and so on.
fn some_numbered(alloc: Global) -> Result<Numbered, NoMemory> {
    let mut numbered = Seq::new(alloc);
    let mut serial = 0_u64;
    for element in some_elements(alloc)?.into_vec() {
        numbered.push(NumberedElement { serial, element })?;
        serial = serial.saturating_add(1);
    }
    Ok(numbered)
}

/// Whether a package of these elements is read again, with their numbers and without.
fn are_read_again(alloc: Global) -> Result<bool, NoMemory> {
    let numbered = some_numbered(alloc)?;
    let mut out = Octets::new(alloc);
    write_package(&mut out, guid(), &numbered)?;
    let Ok((tree, _next)) = read_tree(alloc, out.as_slice(), 0) else {
        return Ok(false);
    };
    let elements = read_package(alloc, out.as_slice(), &tree);
    let again = read_numbered(alloc, out.as_slice(), &tree);
    Ok(elements == Ok(some_elements(alloc)?) && again == Ok(numbered))
}

fn is_written_as(alloc: Global, elements: &Numbered, forms: &[&str]) -> Result<bool, NoMemory> {
    let mut out = Octets::new(alloc);
    write_package(&mut out, guid(), elements)?;
    Ok(out == bytes_of(alloc, forms)?)
}

#[test]
fn packages(rt: HostRuntime) -> Result<(), Fail> {
    let alloc = rt.alloc();
    assert!(rt; is_written_as(alloc, &Seq::new(alloc), &["AC 02 00 55"])?);
    let element = Element {
        id: ExGuid::Null,
        body: Body::Cell {
            current: ExGuid::Null,
        },
    };
    let one = list_of(alloc, NumberedElement { serial: 7, element })?;
    assert!(rt; is_written_as(alloc, &one, &["AC 02 00", HEAD, "07 58 02 00 05 55"])?);
    assert!(rt; are_read_again(alloc)?);
    Ok(())
}
