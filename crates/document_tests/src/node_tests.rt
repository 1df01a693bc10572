ghost use Rattle.std.specs.Prelude.{◌≤◌};

use compact_values::{Guid, Octets};
use doc_model::{Body, Content, Object};
use file_nodes::*;
use std::alloc::Global;
use std::test::Fail;

const G: Guid = Guid {
    number: 0x0011_2233_4455_6677_8899_aabb_ccdd_eeff,
};

/// The objects of the group, which is the last of five elements.
fn objects_in(chunked: &Chunked) -> &[Object] {
    match chunked.elements.as_slice() {
        [_, _, _, _, group] => match &group.body {
            Body::Group { objects } => objects.as_slice(),
            _ => &[],
        },
        _ => &[],
    }
}

/// How many of the objects behind the root refer to nothing.
fn leaves_among(objects: &[Object]) -> usize {
    objects
        .iter()
        .skip(1)
        .filter(|object| object.references.is_empty())
        .count()
}

/// How many leaves and ids a file of so many bytes has.
fn counts(alloc: Global, length: usize) -> Result<(usize, u32), Fail>
    requires { length ≤ 16777216 }
{
    let bytes = vec![in alloc; 7_u8; length]?;
    let chunked = chunk(alloc, bytes.as_slice(), G, 1)?;
    Ok((leaves_among(objects_in(&chunked)), chunked.used))
}

#[test]
fn leaves_and_ids_of_a_root(rt: HostRuntime) -> Result<(), Fail> {
    let alloc = rt.alloc();
    assert!(rt; counts(alloc, 0)? == (0, 7));
    assert!(rt; counts(alloc, 1)? == (1, 8));
    assert!(rt; counts(alloc, 65_536)? == (1, 8));
    assert!(rt; counts(alloc, 65_537)? == (2, 9));
    Ok(())
}

#[test]
fn leaves_and_ids_of_intermediate_nodes(rt: HostRuntime) -> Result<(), Fail> {
    let alloc = rt.alloc();
    assert!(rt; counts(alloc, 4_194_304)? == (64, 71));
    assert!(rt; counts(alloc, 4_194_305)? == (65, 74));
    assert!(rt; counts(alloc, 16_777_216)? == (256, 267));
    Ok(())
}

/// The bytes of the root of an empty file: its start, the signature with the hash of nothing, the data size 0, its end.
const EMPTY_ROOT: [u8; 48] = [
    0x04, 0x01, 0x08, 0x43, 0x41, 0xE3, 0xB0, 0xC4, 0x42, 0x98, 0xFC, 0x1C, 0x14, 0x9A, 0xFB, 0xF4,
    0xC8, 0x99, 0x6F, 0xB9, 0x24, 0x27, 0xAE, 0x41, 0xE4, 0x64, 0x9B, 0x93, 0x4C, 0xA4, 0x95, 0x99,
    0x1B, 0x78, 0x52, 0xB8, 0x55, 0x10, 0x11, 0, 0, 0, 0, 0, 0, 0, 0, 0x81,
];

#[test]
fn root_of_an_empty_file(rt: HostRuntime) -> Result<(), Fail> {
    let chunked = chunk(rt.alloc(), &[], G, 1)?;
    let objects = objects_in(&chunked);
    assert_eq!(rt; objects.len(), 1);
    let Content::Inline { bytes } = &objects[0].content else {
        return Err(Fail::new("no bytes"));
    };
    assert!(rt; bytes.as_slice() == EMPTY_ROOT.as_slice());
    Ok(())
}
