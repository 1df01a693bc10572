// Knowledge, byte by byte. The start of a 44 is 26 02 20 00, and its end 13 01.
use compact_values::{NoMemory, Octets, Seq};
use data_elements::*;
use doc_model::{Knowledge, Range};
use std::alloc::Global;
use std::test::Fail;
use stream_objects::read_tree;
use test_forms::{bytes_of, guid};

/// The ranges that are known, and the form in which they are written.
const WRITTEN: [(&[(u64, u64)], &str); 3] = [
    (&[], "84 00 26 02 20 00 K A4 00 51 13 01 41"),
    (
        &[(1, 128)],
        "84 00 26 02 20 00 K A4 00 78 26 G 03 02 02 51 13 01 41",
    ),
    // the first holds nothing
    (
        &[(9, 2), (0, u64::MAX)],
        "84 00 26 02 20 00 K A4 00 78 24 G 13 05 78 34 G 00 80 FF FF FF FF FF FF FF FF 51 13 01 41",
    ),
];

/// The ranges that are read of forms which aren't written.
const READ: [(&[(u64, u64)], &str); 3] = [
    // a null 17
    (
        &[(1, 5)],
        "84 00 26 02 20 00 K A4 00 78 24 G 03 0B B8 02 00 51 13 01 41",
    ),
    // the entry 7 of other knowledge, and the range 1 to 5 of cells
    (
        &[(1, 5)],
        "84 00 26 02 20 00 G A4 00 B8 32 80 G 07 00 00 00 00 00 00 00 51 13 01 \
         26 02 20 00 K A4 00 78 24 G 03 0B 51 13 01 41",
    ),
    // both of cells
    (
        &[(1, 5), (7, 7)],
        "84 00 26 02 20 00 K A4 00 78 24 G 03 0B 51 13 01 \
         26 02 20 00 K A4 00 B8 32 80 G 07 00 00 00 00 00 00 00 51 13 01 41",
    ),
];

/// Knowledge with a byte too many in one object, and the place of the fault.
const MALFORMED: [(&str, usize); 5] = [
    // 10
    ("84 02 00 26 02 20 00 K A4 00 51 13 01 41", 2),
    // 44
    ("84 00 26 02 22 00 K 00 A4 00 51 13 01 41", 6),
    // 14
    ("84 00 26 02 20 00 K A4 02 00 51 13 01 41", 24),
    // 17
    ("84 00 26 02 20 00 K A4 00 B8 04 00 00 51 13 01 41", 26),
    // 0F
    ("84 00 26 02 20 00 K A4 00 78 26 G 03 0B 00 51 13 01 41", 26),
];

/// What is read of a form. None where it is no object.
fn read(alloc: Global, form: &str) -> Result<Option<Result<Knowledge, ElementFault>>, NoMemory> {
    let bytes = bytes_of(alloc, &[form])?;
    Ok(match read_tree(alloc, bytes.as_slice(), 0) {
        Ok((tree, _next)) => Some(read_knowledge(alloc, bytes.as_slice(), &tree)),
        Err(_) => None,
    })
}

/// Ranges of the GUID.
fn known(alloc: Global, rows: &[(u64, u64)]) -> Result<Knowledge, NoMemory> {
    let mut ranges = Seq::new(alloc);
    for (from, to) in rows {
        let (from, to) = (*from, *to);
        let guid = guid();
        ranges.push(Range { guid, from, to })?;
    }
    Ok(Knowledge { ranges })
}

fn is_read(alloc: Global, form: &str, ranges: &[(u64, u64)]) -> Result<bool, NoMemory> {
    let knowledge = known(alloc, ranges)?;
    Ok(read(alloc, form)? == Some(Ok(knowledge)))
}

fn is_written(alloc: Global, form: &str, ranges: &[(u64, u64)]) -> Result<bool, NoMemory> {
    let mut out = Octets::new(alloc);
    write_knowledge(&mut out, &known(alloc, ranges)?)?;
    Ok(out == bytes_of(alloc, &[form])?)
}

fn is_refused(alloc: Global, form: &str, place: usize) -> Result<bool, NoMemory> {
    Ok(read(alloc, form)? == Some(Err(ElementFault::SchemaFault { place })))
}

#[test]
fn knowledge(rt: HostRuntime) -> Result<(), Fail> {
    let alloc = rt.alloc();
    for (ranges, form) in &WRITTEN {
        assert!(rt; is_written(alloc, form, ranges)?, "{form}");
        assert!(rt; is_read(alloc, form, ranges)?, "{form}");
    }
    for (ranges, form) in &READ {
        assert!(rt; is_read(alloc, form, ranges)?, "{form}");
    }
    for (form, place) in &MALFORMED {
        assert!(rt; is_refused(alloc, form, *place)?, "{form}");
    }
    Ok(())
}
