// Cells that are mapped twice, and chains of revisions that cells share.
use crate::test_calls::{Fault, G, range, refused, stored, upload};
use crate::test_files::{CLIENT, SMALL, cell_of, cut, id, only, revision_map};
use crate::test_table::{Table, play};
use compact_values::{CellId, ExGuid, Ids, Seq, Serial};
use doc_model::{Body, CellMap, Code, Element, Elements, ManifestMap, RevisionMaps, Sub};
use std::alloc::Global;
use std::process::Abort;
use std::test::Fail;

/// The revision of the client's file, and the element that is its manifest.
const FIRST: (u32, u32) = (6, 4);

/// The numbers of the revisions behind it are from here on, and those of their manifests.
const REVISIONS: u32 = 10_000;

const MANIFESTS: u32 = 20_000;

/// The element behind whose number none is sent.
const NOWHERE: u32 = 99;

/// The revision that stands on so many others.
fn revision(below: u32) -> ExGuid {
    if below == 0 {
        id(FIRST.0)
    } else {
        id(REVISIONS.wrapping_add(below))
    }
}

fn cell_manifest(number: u32, current: ExGuid) -> Element {
    Element {
        id: id(number),
        body: Body::Cell { current },
    }
}

/// Of the cell of the file, and of one that differs from it in its second half alone, the elements that are their manifests.
fn cells(alloc: Global, file: CellId, maps: &[(bool, u32)]) -> Result<Seq<CellMap>, Fault> {
    let mut all = Seq::new(alloc);
    for (is_file, number) in maps {
        let other = CellId {
            first: file.first,
            second: ExGuid::Id { guid: G, value: 1 },
        };
        all.push(CellMap {
            cell: if *is_file { file } else { other },
            target: id(*number),
            serial: Serial::Null,
        })?;
    }
    Ok(all)
}

/// The manifests of revisions that stand one on the other, the first of them on that of the file: so many in all.
fn chain(alloc: Global, length: u32) -> Result<(Elements, RevisionMaps), Fault> {
    let mut elements = Seq::new(alloc);
    let mut maps = only(alloc, revision_map(id(FIRST.0), id(FIRST.1)))?;
    for below in 1..length {
        let manifest = id(MANIFESTS.wrapping_add(below));
        maps.push(revision_map(revision(below), manifest))?;
        elements.push(Element {
            id: manifest,
            body: Body::Revision {
                id: revision(below),
                base: revision(below.wrapping_sub(1)),
                roots: Seq::new(alloc),
                groups: Ids::new(alloc),
            },
        })?;
    }
    Ok((elements, maps))
}

/// A put of the client's file with a chain of so many revisions behind it. Elements 12 and 13 are the manifests of cells, with the
/// revisions that stand on so many others.
fn linked(
    alloc: Global,
    maps: &[(bool, u32)],
    length: u32,
    currents: (u32, u32),
) -> Result<Sub, Fault> {
    let mut elements = cut(alloc, SMALL, CLIENT)?;
    let Some(index) = elements.as_slice().first() else {
        return Err(Fault::NotThere);
    };
    let file = cell_of(index).ok_or(Fault::NotThere)?;
    let manifest = ManifestMap {
        target: id(2),
        serial: Serial::Null,
    };
    let (behind, revisions) = chain(alloc, length)?;
    elements.append(behind)?;
    elements.push(cell_manifest(12, revision(currents.0)))?;
    elements.push(cell_manifest(13, revision(currents.1)))?;
    elements.push(Element {
        id: id(11),
        body: Body::Index {
            manifests: only(alloc, manifest)?,
            cells: cells(alloc, file, maps)?,
            revisions,
        },
    })?;
    let put = upload(id(11), ExGuid::Null, elements);
    Ok(Sub::Put { put })
}

/// A put as `linked` makes it: the maps of cells, the length of the chain, the currents of the cells, and how many elements are
/// stored of it, or why it is refused.
type Linked<'a> = (&'a [(bool, u32)], u32, (u32, u32), Result<u64, Code>);

/// Makes each of these puts on a document of its own.
fn put_each(rt: &impl Abort, alloc: Global, rows: &[Linked<'_>]) -> Result<(), Fail> {
    for (maps, length, currents, answer) in rows {
        let mut table = Table::new(alloc);
        let put = linked(alloc, *maps, *length, *currents);
        match answer {
            Ok(count) => table.moves(10, put, stored(alloc, &[range(1, *count)])),
            Err(code) => table.stays(10, put, refused(*code)),
        }
        play(rt, table)?;
    }
    Ok(())
}

#[test]
fn of_two_maps_of_a_cell_the_first_counts(rt: HostRuntime) -> Result<(), Fail> {
    let rows: [Linked<'_>; 4] = [
        (&[(true, 12), (true, NOWHERE)], 2, (1, 0), Ok(9)),
        (
            &[(true, NOWHERE), (true, 12)],
            2,
            (1, 0),
            Err(Code::NotFound),
        ),
        (
            &[(true, 12), (false, NOWHERE)],
            2,
            (1, 0),
            Err(Code::NotFound),
        ),
        (
            &[(true, 12), (false, 13), (true, NOWHERE), (false, NOWHERE)],
            2,
            (1, 0),
            Ok(9),
        ),
    ];
    put_each(&rt, rt.alloc(), &rows)
}

#[test]
fn cells_share_a_chain_of_at_most_1024(rt: HostRuntime) -> Result<(), Fail> {
    let both = [(true, 12), (false, 13)];
    let rows: [Linked<'_>; 6] = [
        (&both, 1024, (1023, 1000), Ok(1031)),
        (&both, 1024, (1000, 1023), Ok(1031)),
        (&both, 1024, (1023, 1023), Ok(1031)),
        (&both, 1025, (1000, 1024), Err(Code::Unserializable)),
        (&both, 1025, (1024, 1000), Err(Code::Unserializable)),
        (&both, 1025, (1023, 1000), Ok(1032)),
    ];
    put_each(&rt, rt.alloc(), &rows)
}
