// What clients ask in the tests, and what they must be answered.
use crate::host::host_once;
use crate::test_files::{Brought, DOCUMENT, elements_of};
use compact_values::{ExGuid, NoMemory, Seq};
use doc_model::{
    CellRequest, CellResponse, Element, Knowledge, Range, Ranges, Seen, WireKind, WireSub,
};
use host_edge::{ListClock, MemSink, MemSource};
use std::alloc::Global;
use std::process::Abort;
use std::test::Fail;
use wire_requests::write_cell_request;
use wire_responses::read_cell_response;

/// The number of the error "invalid object".
pub(crate) const INVALID_OBJECT: u32 = 2;

/// "Coherency".
pub(crate) const COHERENCY: u32 = 12;

/// "Referenced data element not found".
pub(crate) const NOT_FOUND: u32 = 16;

/// "Storage limit".
pub(crate) const STORAGE_LIMIT: u32 = 21;

/// "Request not serializable": what was put is no file.
pub(crate) const NO_FILE: u32 = 23;

/// The flag that an expected index counts as null while there is none.
pub(crate) const IMPLY_NULL: u8 = 0x01;

/// The flag of a part of an upload.
pub(crate) const PARTIAL: u8 = 0x02;

/// The flags of the last part of an upload.
pub(crate) const LAST: u8 = 0x06;

/// The flag that the expected index doesn't matter.
pub(crate) const LAST_WRITER_WINS: u8 = 0x80;

/// What a sub-request asks.
#[derive(Clone, Copy)]
pub(crate) enum Ask<'a> {
    /// The index, the expected index and the flags.
    Put(ExGuid, ExGuid, u8),
    /// What the client knows.
    Pull(&'a [Range]),
    Draw(u64),
}

/// What a sub-response must say.
#[derive(Clone, Copy)]
pub(crate) enum Wanted {
    /// The number of the error.
    Fault(u32),
    /// The client knows the numbers 1 to this one, and no others.
    Stored(u64),
    /// The index, and the last number that is known.
    Pulled(ExGuid, u64),
    /// The first and the last number of the document that were drawn.
    Drawn(u64, u64),
}

pub(crate) fn range(from: u64, to: u64) -> Range {
    Range {
        guid: DOCUMENT,
        from,
        to,
    }
}

pub(crate) fn ranges(alloc: Global, list: &[Range]) -> Result<Ranges, NoMemory> {
    let mut all = Seq::new(alloc);
    all.extend_from_slice(list)?;
    Ok(all)
}

pub(crate) fn sub_of(alloc: Global, ask: Ask) -> Result<WireSub, NoMemory> {
    let (kind, what) = match ask {
        Ask::Put(index, expected, flags) => (
            5,
            WireKind::Put {
                index,
                expected,
                flags,
            },
        ),
        Ask::Pull(known) => (
            2,
            WireKind::Pull {
                knowledge: Knowledge {
                    ranges: ranges(alloc, known)?,
                },
            },
        ),
        Ask::Draw(count) => (11, WireKind::Draw { count }),
    };
    Ok(WireSub { id: 1, kind, what })
}

/// The response of the new document to a request.
fn answered(alloc: Global, request: &CellRequest) -> Result<CellResponse, Fail> {
    let input = write_cell_request(alloc, request)?;
    let mut source = MemSource::new(alloc, input.as_slice(), &[])?;
    let mut out = MemSink::new(alloc, 25_165_824, &[])?;
    let mut err = MemSink::new(alloc, 64, &[])?;
    let mut clock = ListClock::new(alloc, &[7])?;
    let words = ["answer", "00112233-4455-6677-8899-aabbccddeeff"];
    let status = host_once(alloc, &words, &mut source, &mut out, &mut err, &mut clock);
    if status != 0 {
        return Err("the request is answered".into());
    }
    let response = read_cell_response(alloc, out.bytes())
        .ok()
        .ok_or("the response has its form")?;
    Ok(response)
}

fn is_up_to(ranges: &[Range], to: u64) -> bool {
    if to == 0 {
        return ranges.is_empty();
    }
    ranges.len() == 1 && ranges.first() == Some(&range(1, to))
}

fn is_wanted(seen: &Seen, wanted: Wanted) -> bool {
    let known = seen.knowledge.ranges.as_slice();
    match wanted {
        Wanted::Fault(number) => seen.fault == Some(number),
        Wanted::Stored(to) => seen.fault.is_none() && is_up_to(known, to),
        Wanted::Pulled(index, to) => {
            seen.fault.is_none() && seen.index == index && is_up_to(known, to)
        }
        Wanted::Drawn(from, to) => {
            seen.fault.is_none()
                && seen.guid == DOCUMENT
                && seen.least == from
                && seen.greatest == to
        }
    }
}

/// Whether the sub-requests were answered so, one for one.
fn are_wanted(seen: &[Seen], rows: &[(Ask, Wanted)]) -> bool {
    if seen.len() != rows.len() {
        return false;
    }
    for place in 0..rows.len() {
        let (_, wanted) = rows[place];
        if !is_wanted(&seen[place], wanted) {
            return false;
        }
    }
    true
}

/// Whether the first so many of these elements came, with the numbers from 1 on, and no others.
fn have_come(response: &CellResponse, sent: &[Element], count: usize) -> bool {
    let came = response.elements.as_slice();
    if came.len() != count || sent.len() < count {
        return false;
    }
    for place in 0..count {
        if came[place].serial != place as u64 + 1 || came[place].element != sent[place] {
            return false;
        }
    }
    true
}

/// Sends the new document one request that brings this and asks what the rows ask. Each row is answered as it says, and the
/// first so many elements of those that were brought come with the response, which is handed back.
pub(crate) fn play(
    rt: &impl Abort,
    alloc: Global,
    what: Brought,
    rows: &[(Ask, Wanted)],
    count: usize,
) -> Result<CellResponse, Fail> {
    let mut subs = Seq::new(alloc);
    for (ask, _) in rows {
        subs.push(sub_of(alloc, *ask)?)?;
    }
    let elements = elements_of(alloc, what)?;
    let sent = CellRequest { subs, elements };
    let response = answered(alloc, &sent)?;
    assert!(rt; are_wanted(response.answers.as_slice(), rows));
    assert!(rt; have_come(&response, sent.elements.as_slice(), count));
    Ok(response)
}
