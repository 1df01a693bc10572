// What elements say, for tests.
use crate::test_lists::list_of;
use compact_values::{CellId, CellIds, ExGuid, Ids, NoMemory, Seq, Serial};
use doc_model::{Body, CellMap, Content, ManifestMap, Object, RevisionMap, RevisionRoot, Root};
use std::alloc::Global;
use test_forms::{bytes_of, guid, id};

pub const NO_CELL: CellId = CellId {
    first: ExGuid::Null,
    second: ExGuid::Null,
};

/// An index of one mapping of each kind.
pub fn an_index(alloc: Global) -> Result<Body, NoMemory> {
    let target = id(1);
    let serial = Serial::Null;
    let cell = NO_CELL;
    let revision = id(2);
    let manifests = list_of(alloc, ManifestMap { target, serial })?;
    let cells = list_of(
        alloc,
        CellMap {
            cell,
            target,
            serial,
        },
    )?;
    let revisions = list_of(
        alloc,
        RevisionMap {
            revision,
            target,
            serial,
        },
    )?;
    Ok(Body::Index {
        manifests,
        cells,
        revisions,
    })
}

/// A storage of so many roots.
pub fn a_storage(alloc: Global, count: usize) -> Result<Body, NoMemory> {
    let mut roots = Seq::new(alloc);
    for _ in 0..count {
        roots.push(Root {
            root: ExGuid::Null,
            cell: NO_CELL,
        })?;
    }
    let schema = guid();
    Ok(Body::Storage { schema, roots })
}

/// A revision without roots and groups.
pub fn a_bare_revision(alloc: Global, id: ExGuid, base: ExGuid) -> Result<Body, NoMemory> {
    Ok(Body::Revision {
        id,
        base,
        roots: Seq::new(alloc),
        groups: Seq::new(alloc),
    })
}

/// A revision with a root and a group.
pub fn a_revision(alloc: Global) -> Result<Body, NoMemory> {
    let root = RevisionRoot {
        root: ExGuid::Null,
        object: ExGuid::Null,
    };
    Ok(Body::Revision {
        id: id(1),
        base: id(2),
        roots: list_of(alloc, root)?,
        groups: list_of(alloc, ExGuid::Null)?,
    })
}

/// An object that refers to nothing.
fn bare(alloc: Global, partition: u64, size: u64, content: Content) -> Object {
    Object {
        id: ExGuid::Null,
        partition,
        size,
        references: Ids::new(alloc),
        cells: CellIds::new(alloc),
        content,
    }
}

/// A group of one object of this size, whose bytes are in the blob without an id.
pub fn a_blob_group(alloc: Global, size: u64) -> Result<Body, NoMemory> {
    let content = Content::Apart { blob: ExGuid::Null };
    let objects = list_of(alloc, bare(alloc, 1, size, content))?;
    Ok(Body::Group { objects })
}

/// A group of objects of the partitions 1, 2 and so on, each with one of these bytes.
pub fn an_inline_group(alloc: Global, parts: &[&str]) -> Result<Body, NoMemory> {
    let mut objects = Seq::new(alloc);
    let mut partition = 1_u64;
    for part in parts {
        let bytes = bytes_of(alloc, &[part])?;
        objects.push(bare(alloc, partition, 1, Content::Inline { bytes }))?;
        partition = partition.saturating_add(1);
    }
    Ok(Body::Group { objects })
}

/// A group of an object of this size whose bytes are in a blob, and one that has its two bytes with it.
pub fn a_group(alloc: Global, size: u64) -> Result<Body, NoMemory> {
    let mut objects = Seq::new(alloc);
    objects.push(Object {
        id: id(0),
        references: list_of(alloc, ExGuid::Null)?,
        ..bare(alloc, 1, size, Content::Apart { blob: id(1) })
    })?;
    let bytes = bytes_of(alloc, &["07 08"])?;
    objects.push(bare(alloc, 1, 2, Content::Inline { bytes }))?;
    Ok(Body::Group { objects })
}

/// A group of an object in a blob and one with its bytes, which refers to an object and a cell.
pub fn a_linked_group(alloc: Global) -> Result<Body, NoMemory> {
    let cell = CellId {
        first: id(1),
        second: ExGuid::Null,
    };
    let mut objects = Seq::new(alloc);
    objects.push(Object {
        id: id(4),
        partition: 2,
        size: 1 << 40,
        references: list_of(alloc, id(5))?,
        cells: list_of(alloc, cell)?,
        content: Content::Apart { blob: id(6) },
    })?;
    objects.push(Object {
        id: id(5),
        partition: 0,
        size: 0,
        references: list_of(alloc, id(4))?,
        cells: list_of(alloc, cell)?,
        content: Content::Inline {
            bytes: bytes_of(alloc, &["G"])?,
        },
    })?;
    Ok(Body::Group { objects })
}

pub fn a_blob(alloc: Global, form: &str) -> Result<Body, NoMemory> {
    let bytes = bytes_of(alloc, &[form])?;
    Ok(Body::Blob { bytes })
}
