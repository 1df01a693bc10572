// Puts of 8,192 elements and of a file of 16 MiB: their elements written as a package and as the body of a change, and read
// from both. What each takes stands in docs/PERFORMANCE.md.
use change_record::{can_move, read_change, write_change};
use compact_values::{ExGuid, Guid, NoMemory, Octets, Seq, Text};
use data_elements::{read_package, write_package};
use doc_model::{Body, Call, Content, Element, Elements, NumberedElement, Object, Put, Sub};
use std::alloc::Global;
use std::test::Fail;
use stream_objects::read_tree;

const CLIENT: Guid = Guid { number: 7 };

/// How many small elements there are, and what each has.
const MANY: u32 = 8_192;

const SMALL: &[u8] = &[1, 2, 3];

/// The length of the file, how many leaves it has, and of what pieces each is made.
const LENGTH: usize = 16_777_216;

const LEAVES: u32 = 256;

const PIECES: usize = 16;

const PIECE: &[u8; 4_096] = &[7; 4_096];

#[derive(Clone, Copy, Debug, PartialEq, Eq)]
enum Which {
    Many,
    Large,
}

fn many(alloc: Global) -> Result<Elements, NoMemory> {
    let mut elements = Seq::new(alloc);
    for value in 1..MANY + 1 {
        let mut bytes = Octets::new(alloc);
        bytes.extend_from_slice(SMALL)?;
        let id = ExGuid::Id {
            guid: CLIENT,
            value,
        };
        let body = Body::Blob { bytes };
        elements.push(Element { id, body })?;
    }
    Ok(elements)
}

// An object of the file: its bytes.
fn leaf(alloc: Global, value: u32) -> Result<Object, NoMemory> {
    let mut bytes = Octets::new(alloc);
    for _ in 0..PIECES {
        bytes.extend_from_slice(PIECE)?;
    }
    Ok(Object {
        id: ExGuid::Id {
            guid: CLIENT,
            value,
        },
        partition: 1,
        size: bytes.len() as u64,
        references: Seq::new(alloc),
        cells: Seq::new(alloc),
        content: Content::Inline { bytes },
    })
}

// A group with the leaves of the file, as clients cut it.
fn large(alloc: Global) -> Result<Elements, NoMemory> {
    let mut objects = Seq::new(alloc);
    for value in 0..LEAVES {
        objects.push(leaf(alloc, value)?)?;
    }
    let mut elements = Seq::new(alloc);
    let id = ExGuid::Id {
        guid: CLIENT,
        value: LEAVES,
    };
    let body = Body::Group { objects };
    elements.push(Element { id, body })?;
    Ok(elements)
}

fn elements(alloc: Global, which: Which) -> Result<Elements, NoMemory> {
    match which {
        Which::Many => many(alloc),
        Which::Large => large(alloc),
    }
}

// The elements as a package.
fn package(alloc: Global, which: Which) -> Result<Octets, NoMemory> {
    let mut numbered = Seq::new(alloc);
    let mut serial = 0_u64;
    for element in elements(alloc, which)?.into_vec() {
        serial = serial.saturating_add(1);
        numbered.push(NumberedElement { serial, element })?;
    }
    let mut out = Octets::new(alloc);
    write_package(&mut out, CLIENT, &numbered)?;
    Ok(out)
}

// A put of the elements.
fn put(alloc: Global, which: Which) -> Result<Call, NoMemory> {
    let put = Put {
        index: ExGuid::Null,
        expected: ExGuid::Null,
        imply_null: false,
        partial: true,
        last: false,
        last_writer_wins: false,
        carried: None,
        elements: elements(alloc, which)?,
    };
    Ok(Call {
        moment: 7,
        user: Text::from_str(alloc, "anna")?,
        sub: Sub::Put { put },
    })
}

// The body of a put of the elements.
fn change(alloc: Global, which: Which) -> Option<Octets> {
    let call = put(alloc, which).ok()?;
    if !can_move(&call.sub) {
        return None;
    }
    write_change(alloc, &call).ok()
}

// How many elements are read from their package.
fn read_of_package(alloc: Global, which: Which) -> Option<usize> {
    let bytes = package(alloc, which).ok()?;
    let (tree, _) = read_tree(alloc, bytes.as_slice(), 0).ok()?;
    Some(read_package(alloc, bytes.as_slice(), &tree).ok()?.len())
}

// How many elements the put has that is read from its body.
fn read_of_change(alloc: Global, which: Which) -> Option<usize> {
    let bytes = change(alloc, which)?;
    let call = read_change(alloc, bytes.as_slice()).ok()?;
    match &call.sub {
        Sub::Put { put } => Some(put.elements.len()),
        _ => None,
    }
}

#[test]
fn many_elements_are_made(rt: HostRuntime) -> Result<(), Fail> {
    assert_eq!(rt; put(rt.alloc(), Which::Many)?.moment, 7);
    Ok(())
}

#[test]
fn many_elements_are_written_as_a_package(rt: HostRuntime) -> Result<(), Fail> {
    assert!(rt; package(rt.alloc(), Which::Many)?.len() > 0);
    Ok(())
}

#[test]
fn many_elements_are_written_as_a_change(rt: HostRuntime) -> Result<(), Fail> {
    assert!(rt; change(rt.alloc(), Which::Many).is_some());
    Ok(())
}

#[test]
fn many_elements_are_read_from_a_package(rt: HostRuntime) -> Result<(), Fail> {
    assert_eq!(rt; read_of_package(rt.alloc(), Which::Many), Some(8_192));
    Ok(())
}

#[test]
fn many_elements_are_read_from_a_change(rt: HostRuntime) -> Result<(), Fail> {
    assert_eq!(rt; read_of_change(rt.alloc(), Which::Many), Some(8_192));
    Ok(())
}

#[test]
fn a_large_file_is_made(rt: HostRuntime) -> Result<(), Fail> {
    assert_eq!(rt; put(rt.alloc(), Which::Large)?.moment, 7);
    Ok(())
}

#[test]
fn a_large_file_is_written_as_a_package(rt: HostRuntime) -> Result<(), Fail> {
    assert!(rt; package(rt.alloc(), Which::Large)?.len() > LENGTH);
    Ok(())
}

#[test]
fn a_large_file_is_written_as_a_change(rt: HostRuntime) -> Result<(), Fail> {
    let body = change(rt.alloc(), Which::Large).ok_or("change")?;
    assert!(rt; body.len() > LENGTH);
    Ok(())
}

#[test]
fn a_large_file_is_read_from_a_package(rt: HostRuntime) -> Result<(), Fail> {
    assert!(rt; read_of_package(rt.alloc(), Which::Large).is_some());
    Ok(())
}

#[test]
fn a_large_file_is_read_from_a_change(rt: HostRuntime) -> Result<(), Fail> {
    assert!(rt; read_of_change(rt.alloc(), Which::Large).is_some());
    Ok(())
}
