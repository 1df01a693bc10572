// What clients put in the tests: files, and what is no file.
use compact_values::{CellIds, ExGuid, Guid, Ids, Octets, Seq};
use doc_model::{Body, Content, Element, Elements, Object, Objects};
use file_nodes::chunk;
use std::alloc::Global;
use std::test::Fail;

/// The document's GUID, 00112233-4455-6677-8899-aabbccddeeff.
pub(crate) const DOCUMENT: Guid = Guid {
    number: 0x0011_2233_4455_6677_8899_aabb_ccdd_eeff,
};

/// Another GUID, whose numbers need not be drawn.
pub(crate) const CLIENT: Guid = Guid { number: 7 };

pub(crate) fn id(value: u32) -> ExGuid {
    ExGuid::Id {
        guid: CLIENT,
        value,
    }
}

/// What a request brings.
#[derive(Clone, Copy)]
pub(crate) enum Brought {
    Nothing,
    /// A small file, whose ids have this GUID. Its index is number 1.
    Small(Guid),
    /// A file of so many bytes, in which leaves side by side differ.
    Long(usize),
    /// A small file, and a cell manifest of this id.
    WithCell(ExGuid),
    /// A small file, and an index of this id, which maps nothing.
    WithIndex(ExGuid),
    /// A small file without its group.
    WithoutGroup,
    /// A small file whose revision stands on itself.
    OnItself,
    /// A small file whose root refers to itself.
    Circle,
    /// A root and six nodes below it, each with 64 references to the next, and a leaf of so many bytes.
    Wide(usize),
    /// A small file, and small blobs, 8,192 elements together.
    Blobs,
}

/// The elements that a request brings.
pub(crate) fn elements_of(alloc: Global, what: Brought) -> Result<Elements, Fail> {
    match what {
        Brought::Nothing => Ok(Seq::new(alloc)),
        Brought::Small(guid) => cut(alloc, b"a small file", guid),
        Brought::Long(size) => long_file(alloc, size),
        Brought::WithCell(id) => with_cell(alloc, id),
        Brought::WithIndex(id) => with_index(alloc, id),
        Brought::WithoutGroup => first_elements(alloc, 4),
        Brought::OnItself => on_itself(alloc),
        Brought::Circle => circle(alloc),
        Brought::Wide(size) => wide_file(alloc, size),
        Brought::Blobs => with_blobs(alloc),
    }
}

/// A file cut into elements, with ids from 1 on.
pub(crate) fn cut(alloc: Global, bytes: &[u8], guid: Guid) -> Result<Elements, Fail> {
    if bytes.len() > 16_777_216 {
        return Err("the file is too long".into());
    }
    Ok(chunk(alloc, bytes, guid, 1)?.elements)
}

fn long_file(alloc: Global, size: usize) -> Result<Elements, Fail> {
    let mut bytes = Vec::with_capacity(alloc, size)?;
    for place in 0..size {
        bytes.push((place % 251) as u8)?;
    }
    cut(alloc, &bytes, CLIENT)
}

/// A small file's index, storage manifest, cell manifest, revision and group, so many of them.
fn first_elements(alloc: Global, count: usize) -> Result<Elements, Fail> {
    let mut elements = cut(alloc, b"a small file", CLIENT)?;
    elements.truncate(count);
    Ok(elements)
}

fn with_cell(alloc: Global, id: ExGuid) -> Result<Elements, Fail> {
    let body = Body::Cell {
        current: ExGuid::Null,
    };
    let mut elements = first_elements(alloc, 5)?;
    elements.push(Element { id, body })?;
    Ok(elements)
}

fn with_index(alloc: Global, id: ExGuid) -> Result<Elements, Fail> {
    let body = Body::Index {
        manifests: Seq::new(alloc),
        cells: Seq::new(alloc),
        revisions: Seq::new(alloc),
    };
    let mut elements = first_elements(alloc, 5)?;
    elements.push(Element { id, body })?;
    Ok(elements)
}

/// A list of one item.
pub(crate) fn only<T: Drop>(alloc: Global, item: T) -> Result<Seq<T>, Fail> {
    let mut items = Seq::new(alloc);
    items.push(item)?;
    Ok(items)
}

fn on_itself(alloc: Global) -> Result<Elements, Fail> {
    let mut elements = first_elements(alloc, 3)?;
    let body = Body::Revision {
        id: id(6),
        base: id(6),
        roots: Seq::new(alloc),
        groups: only(alloc, id(5))?,
    };
    elements.push(Element { id: id(4), body })?;
    let mut group = cut(alloc, b"a small file", CLIENT)?.into_vec();
    if let Some(last) = group.pop() {
        elements.push(last)?;
    }
    Ok(elements)
}

/// A small file with these objects in the place of its own.
fn file_of(alloc: Global, objects: Objects) -> Result<Elements, Fail> {
    let body = Body::Group { objects };
    let mut elements = first_elements(alloc, 4)?;
    elements.push(Element { id: id(5), body })?;
    Ok(elements)
}

fn object(alloc: Global, id: ExGuid, references: Ids, bytes: Octets) -> Object {
    Object {
        id,
        partition: 1,
        size: 0,
        references,
        cells: CellIds::new(alloc),
        content: Content::Inline { bytes },
    }
}

fn circle(alloc: Global) -> Result<Elements, Fail> {
    let references = only(alloc, id(7))?;
    let root = object(alloc, id(7), references, Octets::new(alloc));
    file_of(alloc, only(alloc, root)?)
}

/// The bytes of an intermediate node with an empty signature and this data size.
fn node(alloc: Global, size: u64) -> Result<Octets, Fail> {
    let mut bytes = Octets::new(alloc);
    bytes.extend_from_slice(&[0xFC, 0x00, 0x08, 0x03, 0x00, 0x10, 0x11])?;
    bytes.extend_from_slice(&size.to_le_bytes())?;
    bytes.push(0x7D)?;
    Ok(bytes)
}

/// The root 7 and the nodes below it. The sizes are true.
fn wide_file(alloc: Global, leaf: usize) -> Result<Elements, Fail> {
    let bytes = Seq::from_vec(vec![in alloc; b'x'; leaf]?);
    let mut size = leaf as u64;
    let mut objects = only(alloc, object(alloc, id(107), Ids::new(alloc), bytes))?;
    let mut below = id(107);
    for value in [106, 105, 104, 103, 102, 101, 7] {
        size = size.wrapping_mul(64);
        let references = Seq::from_vec(vec![in alloc; below; 64]?);
        objects.push(object(alloc, id(value), references, node(alloc, size)?))?;
        below = id(value);
    }
    file_of(alloc, objects)
}

fn with_blobs(alloc: Global) -> Result<Elements, Fail> {
    let mut elements = first_elements(alloc, 5)?;
    for value in 101..8_288_u32 {
        let body = Body::Blob {
            bytes: only(alloc, 0xAB)?,
        };
        elements.push(Element {
            id: id(value),
            body,
        })?;
    }
    Ok(elements)
}
