// Sets of serial numbers.
use compact_values::{Guid, NoMemory, Seq};
use doc_model::{Range, Ranges};
use knowledge_set::KnowledgeSet;
use std::alloc::Global;
use std::process::Abort;
use std::test::Fail;

/// The number of a GUID, and a range's first and last value.
type Row = (u128, u64, u64);

/// The greatest value.
const LAST: u64 = u64::MAX;

fn guid(number: u128) -> Guid {
    Guid { number }
}

fn ranges_of(alloc: Global, rows: &[Row]) -> Result<Ranges, NoMemory> {
    let mut ranges = Seq::new(alloc);
    for (number, from, to) in rows {
        ranges.push(Range {
            guid: guid(*number),
            from: *from,
            to: *to,
        })?;
    }
    Ok(ranges)
}

fn set_of(alloc: Global, rows: &[Row]) -> Result<KnowledgeSet, NoMemory> {
    let ranges = ranges_of(alloc, rows)?;
    KnowledgeSet::from_parts(alloc, &ranges)
}

/// The set has just these ranges.
fn has(rt: &impl Abort, alloc: Global, set: &KnowledgeSet, rows: &[Row]) -> Result<(), Fail> {
    let parts = set.parts(alloc)?;
    let ranges = ranges_of(alloc, rows)?;
    assert!(rt; parts == ranges, "not the ranges");
    Ok(())
}

#[test]
fn ranges_are_as_few_as_can_be(rt: HostRuntime) -> Result<(), Fail> {
    let alloc = rt.alloc();
    let rows: [(&[Row], &[Row]); 12] = [
        (&[], &[]),
        (&[(1, 4, 2)], &[]),
        (&[(1, 1, 3)], &[(1, 1, 3)]),
        (&[(1, 1, 3), (1, 4, 6)], &[(1, 1, 6)]),
        (&[(1, 1, 3), (1, 5, 6)], &[(1, 1, 3), (1, 5, 6)]),
        (&[(1, 5, 6), (1, 1, 3)], &[(1, 1, 3), (1, 5, 6)]),
        (&[(2, 1, 1), (1, 9, 9)], &[(1, 9, 9), (2, 1, 1)]),
        (&[(1, 1, 3), (2, 4, 6)], &[(1, 1, 3), (2, 4, 6)]),
        (&[(1, 1, 5), (1, 3, 9), (1, 2, 2)], &[(1, 1, 9)]),
        (&[(1, 1, 1), (1, 3, 3), (1, 2, 2)], &[(1, 1, 3)]),
        (&[(1, 7, 8), (1, 0, LAST)], &[(1, 0, LAST)]),
        (&[(1, LAST, LAST), (1, 0, LAST - 1)], &[(1, 0, LAST)]),
    ];
    for (parts, maximal) in rows.iter() {
        let set = set_of(alloc, parts)?;
        has(&rt, alloc, &set, maximal)?;
    }
    Ok(())
}

#[test]
fn numbers_are_found(rt: HostRuntime) -> Result<(), Fail> {
    let set = set_of(rt.alloc(), &[(1, 2, 4), (1, 6, 6), (3, 0, LAST)])?;
    let rows: [(u128, u64, bool); 13] = [
        (0, 2, false),
        (1, 0, false),
        (1, 1, false),
        (1, 2, true),
        (1, 4, true),
        (1, 5, false),
        (1, 6, true),
        (1, 7, false),
        (2, 2, false),
        (2, 6, false),
        (3, 0, true),
        (3, LAST, true),
        (4, 0, false),
    ];
    for (number, value, known) in rows.iter() {
        assert_eq!(rt; set.knows(guid(*number), *value), *known, "{value}");
    }
    Ok(())
}

#[test]
fn sets_are_merged(rt: HostRuntime) -> Result<(), Fail> {
    let alloc = rt.alloc();
    let rows: [(&[Row], &[Row], &[Row]); 8] = [
        (&[], &[], &[]),
        (&[(1, 1, 3)], &[], &[(1, 1, 3)]),
        (&[], &[(1, 1, 3)], &[(1, 1, 3)]),
        (&[(1, 1, 3)], &[(1, 4, 6)], &[(1, 1, 6)]),
        (&[(1, 4, 6)], &[(1, 1, 2)], &[(1, 1, 2), (1, 4, 6)]),
        (
            &[(1, 1, 1), (1, 3, 3), (1, 5, 5)],
            &[(1, 2, 4)],
            &[(1, 1, 5)],
        ),
        (
            &[(1, 3, 3), (1, 5, 5), (1, 9, 9)],
            &[(1, 1, 7)],
            &[(1, 1, 7), (1, 9, 9)],
        ),
        (
            &[(2, 1, 3)],
            &[(1, 2, 5), (3, 2, 5)],
            &[(1, 2, 5), (2, 1, 3), (3, 2, 5)],
        ),
    ];
    for (own, other, both) in rows.iter() {
        let mut set = set_of(alloc, own)?;
        let more = set_of(alloc, other)?;
        set.merge(&more)?;
        has(&rt, alloc, &set, both)?;
        has(&rt, alloc, &more, other)?;
    }
    Ok(())
}

/// So many numbers of GUID 1, each third from this one on, the greatest first.
fn thirds(alloc: Global, first: u64, count: u64) -> Result<Ranges, NoMemory> {
    let mut ranges = Seq::new(alloc);
    for i in 0..count {
        let place = count.saturating_sub(i).saturating_sub(1);
        let value = first.saturating_add(place.saturating_mul(3));
        ranges.push(Range {
            guid: guid(1),
            from: value,
            to: value,
        })?;
    }
    Ok(ranges)
}

#[test]
fn many_ranges_are_merged(rt: HostRuntime) -> Result<(), Fail> {
    let alloc = rt.alloc();
    let count = 20_000_u64;
    let mut set = KnowledgeSet::from_parts(alloc, &thirds(alloc, 0, count)?)?;
    let second = KnowledgeSet::from_parts(alloc, &thirds(alloc, 1, count)?)?;
    let third = KnowledgeSet::from_parts(alloc, &thirds(alloc, 2, count)?)?;
    assert_eq!(rt; set.parts(alloc)?.len(), 20_000);
    set.merge(&second)?;
    assert_eq!(rt; set.parts(alloc)?.len(), 20_000);
    assert!(rt; !set.knows(guid(1), 59_999));
    set.merge(&third)?;
    has(&rt, alloc, &set, &[(1, 0, 59_999)])
}
