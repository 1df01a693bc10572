// Files that tests save.
use crate::test_calls::{Fault, G, upload};
use compact_values::{CellId, Copied, ExGuid, Guid, Ids, Seq, Serial};
use doc_model::{Body, CellMap, Element, Elements, ManifestMap, Put, RevisionMap, Sub};
use file_nodes::{Chunked, chunk};
use std::alloc::Global;

/// A client, whose numbers need not be drawn.
pub const CLIENT: Guid = Guid { number: 7 };

/// The client's file.
pub const SMALL: &[u8] = b"a small file";

pub fn id(value: u32) -> ExGuid {
    ExGuid::Id {
        guid: CLIENT,
        value,
    }
}

/// A number of the document.
pub fn own(value: u32) -> ExGuid {
    ExGuid::Id { guid: G, value }
}

/// The index of a file with the numbers of this GUID.
pub fn index(guid: Guid) -> ExGuid {
    ExGuid::Id { guid, value: 1 }
}

/// A file cut into elements, with numbers of this GUID from 1 on.
pub fn cut(alloc: Global, bytes: &[u8], guid: Guid) -> Result<Elements, Fault> {
    if bytes.len() > 16_777_216 {
        return Err(Fault::NotValid);
    }
    let Chunked { elements, .. } = chunk(alloc, bytes, guid, 1)?;
    Ok(elements)
}

/// A put of a file over this index.
pub fn save(alloc: Global, bytes: &[u8], guid: Guid, expected: ExGuid) -> Result<Sub, Fault> {
    let put = upload(index(guid), expected, cut(alloc, bytes, guid)?);
    Ok(Sub::Put { put })
}

/// A put of a file that wins as the last writer.
pub fn overwrite(alloc: Global, bytes: &[u8], guid: Guid, expected: ExGuid) -> Result<Sub, Fault> {
    let put = Put {
        last_writer_wins: true,
        ..upload(index(guid), expected, cut(alloc, bytes, guid)?)
    };
    Ok(Sub::Put { put })
}

/// The elements of the client's file: all but the group, and the group.
fn in_parts(alloc: Global) -> Result<(Elements, Elements), Fault> {
    let mut front = cut(alloc, SMALL, CLIENT)?.into_vec();
    let Some(group) = front.pop() else {
        return Err(Fault::NotThere);
    };
    Ok((Seq::from_vec(front), only(alloc, group)?))
}

/// Its elements, the group being the first one.
pub fn group_first(alloc: Global) -> Result<Elements, Fault> {
    let (front, mut all) = in_parts(alloc)?;
    all.append(front)?;
    Ok(all)
}

/// The first part of it, the group.
pub fn first_part(alloc: Global) -> Result<Sub, Fault> {
    let (_, group) = in_parts(alloc)?;
    let put = Put {
        partial: true,
        ..upload(index(CLIENT), ExGuid::Null, group)
    };
    Ok(Sub::Put { put })
}

/// The last part of it, over this index.
pub fn last_part(alloc: Global, expected: ExGuid) -> Result<Sub, Fault> {
    let (front, _) = in_parts(alloc)?;
    let put = Put {
        partial: true,
        last: true,
        ..upload(index(CLIENT), expected, front)
    };
    Ok(Sub::Put { put })
}

/// All of it but the group, which its revision names.
pub fn without_group(alloc: Global) -> Result<Sub, Fault> {
    let (front, _) = in_parts(alloc)?;
    let put = upload(index(CLIENT), ExGuid::Null, front);
    Ok(Sub::Put { put })
}

/// A list of one item.
pub fn only<T: Drop>(alloc: Global, item: T) -> Result<Seq<T>, Fault> {
    let mut items = Seq::new(alloc);
    items.push(item)?;
    Ok(items)
}

/// The cell that a storage index maps first.
pub fn cell_of(element: &Element) -> Option<CellId> {
    match &element.body {
        Body::Index { cells, .. } => match cells.as_slice().first() {
            Some(map) => Some(map.cell),
            None => None,
        },
        _ => None,
    }
}

/// That this revision's manifest is that element.
pub fn revision_map(revision: ExGuid, target: ExGuid) -> RevisionMap {
    RevisionMap {
        revision,
        target,
        serial: Serial::Null,
    }
}

/// Storage index 11, of the storage manifest 2, the cell manifest 12 and the revision manifests 4 and 13.
fn next_index(alloc: Global, cell: CellId) -> Result<Element, Fault> {
    let manifest = ManifestMap {
        target: id(2),
        serial: Serial::Null,
    };
    let cell = CellMap {
        cell,
        target: id(12),
        serial: Serial::Null,
    };
    let mut revisions = only(alloc, revision_map(id(6), id(4)))?;
    revisions.push(revision_map(id(14), id(13)))?;
    Ok(Element {
        id: id(11),
        body: Body::Index {
            manifests: only(alloc, manifest)?,
            cells: only(alloc, cell)?,
            revisions,
        },
    })
}

/// The elements of the client's file, and of a save behind it, whose revision 14 has nothing but its base, revision 6.
fn eight(alloc: Global) -> Result<Elements, Fault> {
    let mut elements = cut(alloc, SMALL, CLIENT)?;
    let Some(index) = elements.as_slice().first() else {
        return Err(Fault::NotThere);
    };
    let cell = cell_of(index).ok_or(Fault::NotThere)?;
    elements.push(next_index(alloc, cell)?)?;
    elements.push(Element {
        id: id(12),
        body: Body::Cell { current: id(14) },
    })?;
    elements.push(Element {
        id: id(13),
        body: Body::Revision {
            id: id(14),
            base: id(6),
            roots: Seq::new(alloc),
            groups: Ids::new(alloc),
        },
    })?;
    Ok(elements)
}

/// The save behind the client's file, with all of the file's elements again.
pub fn next_save(alloc: Global) -> Result<Sub, Fault> {
    let put = upload(id(11), index(CLIENT), eight(alloc)?);
    Ok(Sub::Put { put })
}

/// These elements, and the index under which the file is restored with the first number of the document.
pub fn nine(alloc: Global) -> Result<Elements, Fault> {
    let mut elements = eight(alloc)?;
    let Some(index) = elements.as_slice().first() else {
        return Err(Fault::NotThere);
    };
    let restored = Element {
        id: own(1),
        body: index.body.copied(alloc)?,
    };
    elements.push(restored)?;
    Ok(elements)
}
