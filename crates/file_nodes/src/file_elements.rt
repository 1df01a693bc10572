//! The data elements round the objects of a file: one storage with one cell, whose one revision has them (MS-FSSHTTPB 2.2.1.12).

ghost use Rattle.std.specs.Prelude.{◌≡◌, ◌+◌, ◌++◌, ◌∷◌, ◌<◌, ◌^◌, [], IfOk, OnOk};
ghost use Rattle.doc_model.specs.declared.element.Body.TheVariants.{Group};
ghost use Rattle.file_nodes.specs.Chunks.{id_of, index_body, storage_body, cell_body, revision_body, elements_round};

use compact_values::{CellId, ExGuid, Guid, NoMemory, Seq, Serial};
use doc_model::{
    Body, CellMap, Element, Elements, ManifestMap, Objects, RevisionMap, RevisionRoot, Root,
};
use std::alloc::Global;

/// The schema of the storage.
const SCHEMA: Guid = Guid {
    number: 0x0eb9_3394_571d_41e9_aad3_880d_92d3_1955,
};

/// The root of the storage.
const STORAGE_ROOT: ExGuid = ExGuid::Id {
    guid: Guid {
        number: 0x84de_fab9_aaa3_4a0d_a3a8_520c_77ac_7073,
    },
    value: 2,
};

/// Its cell.
const ROOT_CELL: CellId = CellId {
    first: ExGuid::Id {
        guid: Guid {
            number: 0x84de_fab9_aaa3_4a0d_a3a8_520c_77ac_7073,
        },
        value: 1,
    },
    second: ExGuid::Id {
        guid: Guid {
            number: 0x6f2a_4665_42c8_46c7_bab4_e28f_dce1_e32b,
        },
        value: 1,
    },
};

/// The root of the revision.
const REVISION_ROOT: ExGuid = ExGuid::Id {
    guid: Guid {
        number: 0x4a37_17f8_1c14_49e7_9526_81d9_42de_1741,
    },
    value: 1,
};

/// A list of one item.
fn only<T: Drop>(alloc: Global, item: T) -> Result<Seq<T>, NoMemory>
    ensures { IfOk result (λ items. items ≡ item ∷ []) }
{
    let mut items = Seq::new(alloc);
    items.push(item)?;
    Ok(items)
}

/// What the storage index says: where the storage manifest, the cell manifest and the revision manifest are.
fn index_body(alloc: Global, guid: Guid, first: u32) -> Result<Body, NoMemory>
    requires { first + 6 < 2 ^ 32 }
    ensures { IfOk result (λ body. body ≡ index_body guid first) }
{
    let id = |value: u32| ExGuid::Id { guid, value };
    let manifests = only(
        alloc,
        ManifestMap {
            target: id(first + 1),
            serial: Serial::Null,
        },
    )?;
    let cells = only(
        alloc,
        CellMap {
            cell: ROOT_CELL,
            target: id(first + 2),
            serial: Serial::Null,
        },
    )?;
    let revisions = only(
        alloc,
        RevisionMap {
            revision: id(first + 5),
            target: id(first + 3),
            serial: Serial::Null,
        },
    )?;
    Ok(Body::Index {
        manifests,
        cells,
        revisions,
    })
}

/// What the storage manifest says: one root with its cell.
fn storage_body(alloc: Global) -> Result<Body, NoMemory>
    ensures { IfOk result (λ body. body ≡ storage_body) }
{
    let roots = only(
        alloc,
        Root {
            root: STORAGE_ROOT,
            cell: ROOT_CELL,
        },
    )?;
    Ok(Body::Storage {
        schema: SCHEMA,
        roots,
    })
}

/// What the revision manifest says: no base, one root with the root object, and one group.
fn revision_body(alloc: Global, guid: Guid, first: u32) -> Result<Body, NoMemory>
    requires { first + 6 < 2 ^ 32 }
    ensures { IfOk result (λ body. body ≡ revision_body guid first) }
{
    let id = |value: u32| ExGuid::Id { guid, value };
    let roots = only(
        alloc,
        RevisionRoot {
            root: REVISION_ROOT,
            object: id(first + 6),
        },
    )?;
    let groups = only(alloc, id(first + 4))?;
    Ok(Body::Revision {
        id: id(first + 5),
        base: ExGuid::Null,
        roots,
        groups,
    })
}

/// The elements of a file with these objects, in order of their ids.
pub fn file_elements(
    alloc: Global,
    objects: Objects,
    guid: Guid,
    first: u32,
) -> Result<Elements, NoMemory>
    requires { first + 6 < 2 ^ 32 }
    ensures { IfOk result (λ elements. elements ≡ elements_round objects guid first) }
{
    let index = index_body(alloc, guid, first)?;
    let storage = storage_body(alloc)?;
    let cell = Body::Cell {
        current: ExGuid::Id {
            guid,
            value: first + 5,
        },
    };
    let revision = revision_body(alloc, guid, first)?;
    let mut elements = Seq::new(alloc);
    push_element(&mut elements, guid, first, index)?;
    push_element(&mut elements, guid, first + 1, storage)?;
    push_element(&mut elements, guid, first + 2, cell)?;
    push_element(&mut elements, guid, first + 3, revision)?;
    push_element(&mut elements, guid, first + 4, Body::Group { objects })?;
    Ok(elements)
}

/// Adds an element with this id at the end.
fn push_element(elements: &mut Elements, guid: Guid, value: u32, body: Body) -> Result<(), NoMemory>
    ensures { OnOk result (elements.new ≡ elements.old ++ record { id = id_of guid value; body = body } ∷ []) }
{
    elements.push(Element {
        id: ExGuid::Id { guid, value },
        body,
    })
}
