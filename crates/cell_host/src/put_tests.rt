// Files that clients save and download through the program.
use crate::test_calls::{
    Ask, COHERENCY, IMPLY_NULL, INVALID_OBJECT, LAST, LAST_WRITER_WINS, NO_FILE, NOT_FOUND,
    PARTIAL, STORAGE_LIMIT, Wanted, play, range,
};
use crate::test_files::{Brought, CLIENT, DOCUMENT, id};
use compact_values::ExGuid;
use doc_model::{Body, NumberedElement};
use std::alloc::Global;
use std::process::Abort;
use std::test::Fail;

#[test]
fn a_file_is_saved_once(rt: HostRuntime) -> Result<(), Fail> {
    let rows = [
        (Ask::Put(id(1), ExGuid::Null, 0), Wanted::Stored(5)),
        (Ask::Put(id(1), ExGuid::Null, 0), Wanted::Fault(COHERENCY)),
        (
            Ask::Put(id(1), ExGuid::Null, LAST_WRITER_WINS),
            Wanted::Fault(INVALID_OBJECT),
        ),
        (Ask::Pull(&[]), Wanted::Pulled(id(1), 5)),
    ];
    play(&rt, rt.alloc(), Brought::Small(CLIENT), &rows, 5)?;
    Ok(())
}

#[test]
fn what_is_known_does_not_come_again(rt: HostRuntime) -> Result<(), Fail> {
    let known = [range(1, 5)];
    let rows = [
        (Ask::Put(id(1), ExGuid::Null, 0), Wanted::Stored(5)),
        (Ask::Pull(&known), Wanted::Pulled(id(1), 5)),
    ];
    play(&rt, rt.alloc(), Brought::Small(CLIENT), &rows, 0)?;
    Ok(())
}

#[test]
fn a_part_waits_for_the_last(rt: HostRuntime) -> Result<(), Fail> {
    let rows = [
        (Ask::Put(id(1), ExGuid::Null, PARTIAL), Wanted::Stored(0)),
        (Ask::Pull(&[]), Wanted::Pulled(ExGuid::Null, 0)),
        (Ask::Put(id(1), ExGuid::Null, LAST), Wanted::Stored(5)),
        (Ask::Pull(&[]), Wanted::Pulled(id(1), 5)),
    ];
    play(&rt, rt.alloc(), Brought::Small(CLIENT), &rows, 5)?;
    Ok(())
}

#[test]
fn an_expected_index_may_be_implied_null(rt: HostRuntime) -> Result<(), Fail> {
    let rows = [
        (Ask::Put(id(1), id(99), 0), Wanted::Fault(COHERENCY)),
        (Ask::Put(id(1), id(99), IMPLY_NULL), Wanted::Stored(5)),
    ];
    play(&rt, rt.alloc(), Brought::Small(CLIENT), &rows, 0)?;
    Ok(())
}

#[test]
fn numbers_of_the_document_are_drawn_first(rt: HostRuntime) -> Result<(), Fail> {
    let index = ExGuid::Id {
        guid: DOCUMENT,
        value: 1,
    };
    // the five elements have the numbers 1 to 5
    let rows = [
        (Ask::Draw(4), Wanted::Drawn(1, 4)),
        (
            Ask::Put(index, ExGuid::Null, 0),
            Wanted::Fault(INVALID_OBJECT),
        ),
        (Ask::Draw(1), Wanted::Drawn(5, 5)),
        (Ask::Put(index, ExGuid::Null, 0), Wanted::Stored(5)),
    ];
    play(&rt, rt.alloc(), Brought::Small(DOCUMENT), &rows, 0)?;
    Ok(())
}

#[test]
fn what_is_put_is_a_file(rt: HostRuntime) -> Result<(), Fail> {
    let rows = [
        (Brought::WithCell(id(99)), 1, Wanted::Stored(6)),
        // elements have ids of their own
        (Brought::WithCell(id(1)), 1, Wanted::Fault(INVALID_OBJECT)),
        (
            Brought::WithCell(ExGuid::Null),
            1,
            Wanted::Fault(INVALID_OBJECT),
        ),
        (Brought::Nothing, 99, Wanted::Fault(NOT_FOUND)),
        (Brought::WithIndex(id(99)), 99, Wanted::Fault(NO_FILE)),
        (Brought::Circle, 1, Wanted::Fault(NO_FILE)),
        // a revision has a beginning and its groups
        (Brought::OnItself, 1, Wanted::Fault(NO_FILE)),
        (Brought::WithoutGroup, 1, Wanted::Fault(NOT_FOUND)),
        // wide files are judged at once; the second has 2^42 bytes
        (Brought::Wide(0), 1, Wanted::Stored(5)),
        (Brought::Wide(1), 1, Wanted::Fault(STORAGE_LIMIT)),
    ];
    for (what, index, wanted) in rows {
        let put = (Ask::Put(id(index), ExGuid::Null, 0), wanted);
        play(&rt, rt.alloc(), what, &[put], 0)?;
    }
    Ok(())
}

/// Whether one element is a group, of so many objects.
fn has_group(elements: &[NumberedElement], count: usize) -> bool {
    elements.iter().any(|numbered| match &numbered.element.body {
        Body::Group { objects } => objects.len() == count,
        _ => false,
    })
}

/// What is brought is saved, and its file of five elements comes back, with a group of so many objects.
fn comes_back(
    rt: &impl Abort,
    alloc: Global,
    what: Brought,
    elements: u64,
    objects: usize,
) -> Result<(), Fail> {
    let rows = [
        (Ask::Put(id(1), ExGuid::Null, 0), Wanted::Stored(elements)),
        (Ask::Pull(&[]), Wanted::Pulled(id(1), 5)),
    ];
    let response = play(rt, alloc, what, &rows, 5)?;
    assert!(rt; has_group(response.elements.as_slice(), objects));
    Ok(())
}

#[test]
fn files_of_all_heights_come_back(rt: HostRuntime) -> Result<(), Fail> {
    // a root and its leaves; the last file has 65 leaves, and two nodes above them
    let files = [
        (0, 1),
        (1, 2),
        (65_536, 2),
        (65_537, 3),
        (4_194_304, 65),
        (4_194_305, 68),
    ];
    for (size, objects) in files {
        comes_back(&rt, rt.alloc(), Brought::Long(size), 5, objects)?;
    }
    Ok(())
}

#[test]
fn the_largest_file_comes_back(rt: HostRuntime) -> Result<(), Fail> {
    // a root, four nodes and 256 leaves
    comes_back(&rt, rt.alloc(), Brought::Long(16_777_216), 5, 261)
}

#[test]
fn as_many_elements_as_may_be_are_put(rt: HostRuntime) -> Result<(), Fail> {
    comes_back(&rt, rt.alloc(), Brought::Blobs, 8192, 2)
}
