// Several requests, one after the other, on one document.
use crate::answer::{answers_on, parse_request};
use crate::test_calls::{Ask, LAST, LAST_WRITER_WINS, PARTIAL, range, ranges, sub_of};
use crate::test_files::{CLIENT, DOCUMENT, cut, id, only};
use compact_values::{CellId, Copied, ExGuid, Guid, Ids, Seq, Serial};
use doc_model::{
    Answer, Body, CellMap, CellRequest, Code, Element, Elements, Knowledge, ManifestMap,
    NumberedElement, Range, Reply, RevisionMap, RevisionRoot, Submitted,
};
use plain_core::PlainCore;
use std::alloc::Global;
use std::process::Abort;
use std::test::Fail;
use wire_requests::write_cell_request;

/// What a request of one sub-request must be answered.
#[derive(Clone, Copy)]
enum Wanted<'a> {
    Refused(Code),
    /// The numbers of what was put.
    Stored(&'a [Range]),
    /// The index, the places of the elements that come, and what is known.
    Pulled(ExGuid, &'a [usize], &'a [Range]),
}

/// A request of one sub-request.
#[derive(Clone, Copy)]
struct Call<'a> {
    moment: u32,
    ask: Ask<'a>,
    /// The places of the elements that it brings.
    brings: &'a [usize],
    wanted: Wanted<'a>,
}

/// The places of the first, the second and the third file.
const A: [usize; 5] = [0, 1, 2, 3, 4];

const B: [usize; 5] = [5, 6, 7, 8, 9];

const C: [usize; 5] = [10, 11, 12, 13, 14];

fn element_at(alloc: Global, all: &[Element], place: usize) -> Result<Element, Fail> {
    match all.get(place) {
        Some(element) => Ok(element.copied(alloc)?),
        None => Err("the element is there".into()),
    }
}

/// The reply of the document to a request, which is written and read.
fn reply_to(
    alloc: Global,
    core: &mut PlainCore,
    moment: u32,
    request: &CellRequest,
) -> Result<Reply, Fail> {
    let input = write_cell_request(alloc, request)?;
    let Some(read) = parse_request(alloc, input.as_slice())? else {
        return Err("the request has its form".into());
    };
    let mut answers = answers_on(alloc, core, u64::from(moment), &read)?.into_vec();
    match answers.pop() {
        Some(
            Answer {
                submitted: Submitted::Answered { reply },
                ..
            },
        ) => Ok(reply),
        _ => Err("the sub-request is answered".into()),
    }
}

/// What is brought of all elements.
fn request_of(alloc: Global, all: &[Element], call: Call) -> Result<CellRequest, Fail> {
    let mut elements = Seq::new(alloc);
    for place in call.brings {
        elements.push(element_at(alloc, all, *place)?)?;
    }
    Ok(CellRequest {
        subs: only(alloc, sub_of(alloc, call.ask)?)?,
        elements,
    })
}

/// The reply to a pull. Elements have the numbers of their places, counted from 1.
fn pulled(
    alloc: Global,
    all: &[Element],
    index: ExGuid,
    places: &[usize],
    list: &[Range],
) -> Result<Reply, Fail> {
    let mut elements = Seq::new(alloc);
    for place in places {
        elements.push(NumberedElement {
            serial: (*place as u64).wrapping_add(1),
            element: element_at(alloc, all, *place)?,
        })?;
    }
    Ok(Reply::Pulled {
        guid: DOCUMENT,
        index,
        elements,
        knowledge: Knowledge {
            ranges: ranges(alloc, list)?,
        },
    })
}

fn reply_wanted(alloc: Global, all: &[Element], wanted: Wanted) -> Result<Reply, Fail> {
    match wanted {
        Wanted::Refused(code) => Ok(Reply::Refused { code }),
        Wanted::Stored(list) => Ok(Reply::Stored {
            knowledge: Knowledge {
                ranges: ranges(alloc, list)?,
            },
        }),
        Wanted::Pulled(index, places, list) => pulled(alloc, all, index, places, list),
    }
}

/// Makes these calls on a new document. The elements that they name are places of one list.
fn play(rt: &impl Abort, alloc: Global, all: &[Element], calls: &[Call]) -> Result<(), Fail> {
    let mut core = PlainCore::new(alloc, DOCUMENT)?;
    for call in calls {
        let request = request_of(alloc, all, *call)?;
        let reply = reply_to(alloc, &mut core, call.moment, &request)?;
        let wanted = reply_wanted(alloc, all, call.wanted)?;
        assert_eq!(rt; reply, wanted, "at {}", call.moment);
    }
    Ok(())
}

/// The cell that a storage index maps first.
fn cell_of(element: &Element) -> Option<CellId> {
    match &element.body {
        Body::Index { cells, .. } => match cells.as_slice().first() {
            Some(map) => Some(map.cell),
            None => None,
        },
        _ => None,
    }
}

/// The first root of a revision.
fn root_of(element: &Element) -> Option<RevisionRoot> {
    match &element.body {
        Body::Revision { roots, .. } => match roots.as_slice().first() {
            Some(root) => Some(*root),
            None => None,
        },
        _ => None,
    }
}

fn revision_map(revision: ExGuid, target: ExGuid) -> RevisionMap {
    RevisionMap {
        revision,
        target,
        serial: Serial::Null,
    }
}

/// Storage index 11, of the storage manifest 2, the cell manifest 12 and the revision manifests 13 and 4.
fn next_index(alloc: Global, cell: CellId) -> Result<Element, Fail> {
    let manifest = ManifestMap {
        target: id(2),
        serial: Serial::Null,
    };
    let cell = CellMap {
        cell,
        target: id(12),
        serial: Serial::Null,
    };
    let mut revisions = only(alloc, revision_map(id(14), id(13)))?;
    revisions.push(revision_map(id(6), id(4)))?;
    Ok(Element {
        id: id(11),
        body: Body::Index {
            manifests: only(alloc, manifest)?,
            cells: only(alloc, cell)?,
            revisions,
        },
    })
}

/// A small file, and the three elements of a save behind it: revision 14 stands on revision 6 and has its root.
fn two_saves(alloc: Global) -> Result<Elements, Fail> {
    let mut elements = cut(alloc, b"a small file", CLIENT)?;
    let [index, _, _, revision, _] = elements.as_slice() else {
        return Err("a file is five elements".into());
    };
    let cell = cell_of(index).ok_or("the index has a cell")?;
    let root = root_of(revision).ok_or("the revision has a root")?;
    elements.push(next_index(alloc, cell)?)?;
    elements.push(Element {
        id: id(12),
        body: Body::Cell { current: id(14) },
    })?;
    elements.push(Element {
        id: id(13),
        body: Body::Revision {
            id: id(14),
            base: id(6),
            roots: only(alloc, root)?,
            groups: Ids::new(alloc),
        },
    })?;
    Ok(elements)
}

fn put<'a>(
    moment: u32,
    index: ExGuid,
    expected: ExGuid,
    flags: u8,
    brings: &'a [usize],
    wanted: Wanted<'a>,
) -> Call<'a> {
    Call {
        moment,
        ask: Ask::Put(index, expected, flags),
        brings,
        wanted,
    }
}

fn pull<'a>(known: &'a [Range], wanted: Wanted<'a>) -> Call<'a> {
    Call {
        moment: 400,
        ask: Ask::Pull(known),
        brings: &[],
        wanted,
    }
}

#[test]
fn a_save_stands_on_the_one_before(rt: HostRuntime) -> Result<(), Fail> {
    let alloc = rt.alloc();
    let first = [range(1, 5)];
    let second = [range(6, 8)];
    let both = [range(1, 8)];
    let reached = [range(2, 2), range(4, 8)];
    // numbers that no element has, and those of another document, are no knowledge of this one
    let other = Range {
        guid: CLIENT,
        from: 1,
        to: 8,
    };
    let unknown = [range(0, 0), range(9, 20), other];
    let new = [5, 6, 7];
    // neither the index nor the cell manifest of before
    let all = [1, 3, 4, 5, 6, 7];
    let calls = [
        put(100, id(1), ExGuid::Null, 0, &A, Wanted::Stored(&first)),
        put(200, id(11), id(1), 0, &new, Wanted::Stored(&second)),
        pull(&first, Wanted::Pulled(id(11), &new, &both)),
        pull(&[], Wanted::Pulled(id(11), &all, &reached)),
        pull(&unknown, Wanted::Pulled(id(11), &all, &reached)),
    ];
    play(&rt, alloc, two_saves(alloc)?.as_slice(), &calls)
}

/// The index of the file of the client of this number.
fn index_of(number: u128) -> ExGuid {
    ExGuid::Id {
        guid: Guid { number },
        value: 1,
    }
}

/// The files of three clients.
fn three_files(alloc: Global) -> Result<Elements, Fail> {
    let mut all = Seq::new(alloc);
    for number in [0xA, 0xB, 0xC] {
        all.append(cut(alloc, b"a small file", Guid { number })?)?;
    }
    Ok(all)
}

#[test]
fn of_two_saves_of_one_version_the_first_is_stored(rt: HostRuntime) -> Result<(), Fail> {
    let alloc = rt.alloc();
    let (a, b, c) = (index_of(0xA), index_of(0xB), index_of(0xC));
    let first = [range(1, 5)];
    let second = [range(6, 10)];
    let third = [range(11, 15)];
    let calls = [
        put(100, a, ExGuid::Null, 0, &A, Wanted::Stored(&first)),
        put(200, b, a, 0, &B, Wanted::Stored(&second)),
        put(300, c, a, 0, &C, Wanted::Refused(Code::Coherency)),
        pull(&[], Wanted::Pulled(b, &B, &second)),
        put(500, c, a, LAST_WRITER_WINS, &C, Wanted::Stored(&third)),
    ];
    play(&rt, alloc, three_files(alloc)?.as_slice(), &calls)
}

#[test]
fn an_upload_expects_what_is_stored_at_its_end(rt: HostRuntime) -> Result<(), Fail> {
    let alloc = rt.alloc();
    let (a, b) = (index_of(0xA), index_of(0xB));
    let first = [range(1, 5)];
    let second = [range(6, 10)];
    let calls = [
        put(100, a, ExGuid::Null, PARTIAL, &A, Wanted::Stored(&[])),
        put(200, b, ExGuid::Null, 0, &B, Wanted::Stored(&first)),
        put(
            300,
            a,
            ExGuid::Null,
            LAST,
            &[],
            Wanted::Refused(Code::Coherency),
        ),
        // what came of it is still kept
        put(400, a, b, LAST, &[], Wanted::Stored(&second)),
    ];
    play(&rt, alloc, three_files(alloc)?.as_slice(), &calls)
}

#[test]
fn what_came_first_has_the_first_numbers(rt: HostRuntime) -> Result<(), Fail> {
    let alloc = rt.alloc();
    let a = index_of(0xA);
    let first = [range(1, 5)];
    let rest = [1, 2, 3, 4];
    // the group first
    let mut all = three_files(alloc)?.into_vec();
    all.truncate(5);
    all.reverse();
    let calls = [
        put(100, a, ExGuid::Null, PARTIAL, &[0], Wanted::Stored(&[])),
        put(200, a, ExGuid::Null, LAST, &rest, Wanted::Stored(&first)),
        pull(&[], Wanted::Pulled(a, &A, &first)),
    ];
    play(&rt, alloc, &all, &calls)
}

#[test]
fn an_upload_is_kept_for_a_day(rt: HostRuntime) -> Result<(), Fail> {
    let alloc = rt.alloc();
    let (a, b) = (index_of(0xA), index_of(0xB));
    let first = [range(1, 5)];
    let second = [range(6, 10)];
    let ends = [
        (86_499, Wanted::Stored(&second)),
        (86_500, Wanted::Refused(Code::NotFound)),
    ];
    for (moment, wanted) in ends {
        let calls = [
            put(100, a, ExGuid::Null, PARTIAL, &A, Wanted::Stored(&[])),
            put(moment, b, ExGuid::Null, 0, &B, Wanted::Stored(&first)),
            put(moment, a, b, LAST, &[], wanted),
        ];
        play(&rt, alloc, three_files(alloc)?.as_slice(), &calls)?;
    }
    Ok(())
}
