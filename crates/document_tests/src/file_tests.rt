use compact_values::{ExGuid, Guid, Ids, Octets};
use doc_model::{Body, Content};
use file_nodes::*;
use std::alloc::Global;
use std::test::Fail;

fn id(value: u32) -> ExGuid {
    ExGuid::Id {
        guid: Guid { number: 7 },
        value,
    }
}

/// An object, which a map borrows.
#[derive(Drop)]
struct Kept {
    value: u32,
    references: Ids,
    bytes: Octets,
}

/// Keeps an object. `None` where memory ran out.
fn keep(
    alloc: Global,
    kept: &mut Vec<Kept>,
    value: u32,
    references: &[u32],
    bytes: &[u8],
) -> Option<()> {
    let mut ids = Ids::new(alloc);
    for reference in references {
        ids.push(id(*reference)).ok()?;
    }
    let mut own = Octets::new(alloc);
    own.extend_from_slice(bytes).ok()?;
    kept.push(Kept {
        value,
        references: ids,
        bytes: own,
    })
    .ok()
}

/// The file of an object among these.
fn file_from(alloc: Global, kept: &[Kept], root: u32) -> Result<Octets, NodeFault> {
    let mut map = ObjectMap::new(alloc);
    for object in kept {
        let bytes = object.bytes.as_slice();
        match map.add(id(object.value), &object.references, bytes) {
            Ok(()) => {}
            Err(_) => return Err(NodeFault::NoMemory),
        }
    }
    file_of(alloc, &map, &id(root))
}

/// An intermediate node with an empty signature and this data size: the start of 1F, the object 21 with the item
/// `00`, the object 22 with 8 bytes, the end of 1F.
fn node(size: u64) -> [u8; 16] {
    let [a, b, c, d, e, f, g, h] = size.to_le_bytes();
    [
        0xFC, 0x00, 0x08, 0x03, 0x00, 0x10, 0x11, a, b, c, d, e, f, g, h, 0x7D,
    ]
}

/// Objects 2 with the bytes `ab` and 3 with `c`, and over them an object 1 with these references and bytes.
fn small(alloc: Global, references: &[u32], bytes: &[u8]) -> Option<Vec<Kept>> {
    let mut kept = Vec::new(alloc);
    keep(alloc, &mut kept, 2, &[], b"ab")?;
    keep(alloc, &mut kept, 3, &[], b"c")?;
    keep(alloc, &mut kept, 1, references, bytes)?;
    Some(kept)
}

fn small_file(alloc: Global, references: &[u32], bytes: &[u8]) -> Option<Octets> {
    file_from(alloc, small(alloc, references, bytes)?.as_slice(), 1).ok()
}

fn small_fault(alloc: Global, references: &[u32], bytes: &[u8]) -> Option<NodeFault> {
    file_from(alloc, small(alloc, references, bytes)?.as_slice(), 1).err()
}

#[test]
fn leaves_are_joined_in_order(rt: HostRuntime) -> Result<(), Fail> {
    let alloc = rt.alloc();
    let file = small_file(alloc, &[2, 3, 2], &node(5)).ok_or("the objects are a file")?;
    assert_eq!(rt; file.as_slice(), b"abcab".as_slice());
    let empty = small_file(alloc, &[], b"zz").ok_or("a root without references is a file")?;
    assert_eq!(rt; empty.len(), 0);
    Ok(())
}

#[test]
fn first_object_with_an_id_counts(rt: HostRuntime) -> Result<(), Fail> {
    let alloc = rt.alloc();
    let mut kept = small(alloc, &[2], &node(2)).ok_or("memory")?;
    keep(alloc, &mut kept, 2, &[], b"xyz").ok_or("memory")?;
    let file = file_from(alloc, kept.as_slice(), 1)
        .ok()
        .ok_or("the objects are a file")?;
    assert_eq!(rt; file.as_slice(), b"ab".as_slice());
    Ok(())
}

#[test]
fn faults_of_objects(rt: HostRuntime) {
    let alloc = rt.alloc();
    let itself = small_fault(alloc, &[1], &node(0));
    assert!(rt; itself == Some(NodeFault::TooHigh));
    let size = small_fault(alloc, &[2], &node(3));
    assert!(rt; size == Some(NodeFault::SizeDiffers { said: 3, found: 2 }));
    let no_node = small_fault(alloc, &[2, 3], b"ab");
    assert!(rt; no_node == Some(NodeFault::NotANode { object: id(1) }));
    let absent = small_fault(alloc, &[2, 9], &node(2));
    assert!(rt; absent == Some(NodeFault::Absent { object: id(9) }));
    let no_root = file_of(alloc, &ObjectMap::new(alloc), &id(1)).err();
    assert!(rt; no_root == Some(NodeFault::Absent { object: id(1) }));
}

/// A node and one more byte.
#[test]
fn nodes_end_with_their_bytes(rt: HostRuntime) {
    let mut bytes = [0; 17];
    bytes[..16].copy_from_slice(&node(2));
    let more = small_fault(rt.alloc(), &[2], &bytes);
    assert!(rt; more == Some(NodeFault::NotANode { object: id(1) }));
}

/// A path of so many objects, down to a leaf of one byte.
fn path(alloc: Global, objects: u32) -> Option<Vec<Kept>> {
    let mut kept = Vec::new(alloc);
    for value in 1..objects {
        keep(alloc, &mut kept, value, &[value + 1], &node(1))?;
    }
    keep(alloc, &mut kept, objects, &[], b"x")?;
    Some(kept)
}

#[test]
fn paths_of_8_and_9_objects(rt: HostRuntime) -> Result<(), Fail> {
    let alloc = rt.alloc();
    let eight = path(alloc, 8).ok_or("memory")?;
    let file = file_from(alloc, eight.as_slice(), 1)
        .ok()
        .ok_or("the objects are a file")?;
    assert_eq!(rt; file.as_slice(), b"x".as_slice());
    let nine = path(alloc, 9).ok_or("memory")?;
    assert!(rt; file_from(alloc, nine.as_slice(), 1).err() == Some(NodeFault::TooHigh));
    Ok(())
}

/// A root 7 over six nodes, each with 64 references to the one below, down to the leaf 0. The sizes are true.
fn wide(alloc: Global, leaf: &[u8]) -> Option<Vec<Kept>> {
    let mut kept = Vec::new(alloc);
    keep(alloc, &mut kept, 0, &[], leaf)?;
    let mut size = leaf.len() as u64;
    for value in 1..8 {
        size = size.wrapping_mul(64);
        keep(alloc, &mut kept, value, &[value - 1; 64], &node(size))?;
    }
    Some(kept)
}

#[test]
fn each_object_is_walked_once_for_a_height(rt: HostRuntime) -> Result<(), Fail> {
    let alloc = rt.alloc();
    let nothing = wide(alloc, b"").ok_or("memory")?;
    let file = file_from(alloc, nothing.as_slice(), 7)
        .ok()
        .ok_or("the objects are a file")?;
    assert_eq!(rt; file.len(), 0);
    let large = wide(alloc, b"x").ok_or("memory")?;
    assert!(rt; file_from(alloc, large.as_slice(), 7).err() == Some(NodeFault::TooLarge));
    Ok(())
}

/// A root over 64 nodes, each with 4 references to a leaf of 65,536 bytes, and over these last objects.
fn largest(alloc: Global, last: &[u32], size: u64) -> Option<Vec<Kept>> {
    let mut kept = Vec::new(alloc);
    keep(alloc, &mut kept, 3, &[], &[5; 65_536])?;
    keep(alloc, &mut kept, 2, &[3, 3, 3, 3], &node(262_144))?;
    keep(alloc, &mut kept, 4, &[], b"x")?;
    let mut values = vec![in alloc; 2; 64].ok()?;
    values.extend_from_slice(last).ok()?;
    keep(alloc, &mut kept, 1, values.as_slice(), &node(size))?;
    Some(kept)
}

#[test]
fn files_of_16_mib(rt: HostRuntime) -> Result<(), Fail> {
    let alloc = rt.alloc();
    let most = largest(alloc, &[], 16_777_216).ok_or("memory")?;
    let file = file_from(alloc, most.as_slice(), 1)
        .ok()
        .ok_or("the objects are a file")?;
    assert_eq!(rt; file.len(), 16_777_216);
    let more = largest(alloc, &[4], 16_777_217).ok_or("memory")?;
    assert!(rt; file_from(alloc, more.as_slice(), 1).err() == Some(NodeFault::TooLarge));
    Ok(())
}

/// The objects of a file that was cut.
fn objects_of(alloc: Global, chunked: &Chunked) -> Option<ObjectMap<'_>> {
    let mut map = ObjectMap::new(alloc);
    for element in chunked.elements.as_slice() {
        if let Body::Group { objects } = &element.body {
            for object in objects.as_slice() {
                if let Content::Inline { bytes } = &object.content {
                    map.add(object.id, &object.references, bytes.as_slice())
                        .ok()?;
                }
            }
        }
    }
    Some(map)
}

/// A file of 16 MiB. The root of a file that is cut from 1 on has the value 7.
#[test]
fn cut_file_is_put_together(rt: HostRuntime) -> Result<(), Fail> {
    let alloc = rt.alloc();
    let mut bytes = vec![in alloc; 7_u8; 16_777_213]?;
    bytes.extend_from_slice(b"end")?;
    let chunked = chunk(alloc, bytes.as_slice(), Guid { number: 7 }, 1)?;
    let objects = objects_of(alloc, &chunked).ok_or("memory")?;
    let file = file_of(alloc, &objects, &id(7))
        .ok()
        .ok_or("the objects are a file")?;
    assert!(rt; file.as_slice() == bytes.as_slice());
    Ok(())
}
