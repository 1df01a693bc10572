// The versions of a document, and what restores them.
use crate::test_calls::{
    L, draw, drawn, file, lock, locked, range, refused, restore, stored, versions,
};
use crate::test_files::{CLIENT, index, overwrite, own, save};
use crate::test_table::{Table, play};
use compact_values::{ExGuid, Guid};
use doc_model::{Coauthors, Code, LockKind, LockStep, Reply, Sub};
use std::test::Fail;

/// Whose numbers the elements of three files have.
const A: Guid = Guid { number: 0xA };

const B: Guid = Guid { number: 0xB };

const C: Guid = Guid { number: 0xC };

/// Three saves, the last of which wins over the second.
fn add_saves(table: &mut Table) {
    let alloc = table.alloc;
    let first = save(alloc, b"the first file", A, ExGuid::Null);
    table.moves(10, first, stored(alloc, &[range(1, 5)]));
    let second = save(alloc, b"the second file", B, index(A));
    table.moves(20, second, stored(alloc, &[range(6, 10)]));
    let third = save(alloc, b"the third file", C, index(A));
    table.stays(25, third, refused(Code::Coherency));
    let third = overwrite(alloc, b"the third file", C, index(A));
    table.moves(30, third, stored(alloc, &[range(11, 15)]));
}

#[test]
fn versions_come_in_order(rt: HostRuntime) -> Result<(), Fail> {
    let alloc = rt.alloc();
    let mut table = Table::new(alloc);
    table.stays(0, Ok(Sub::Versions), versions(alloc, &[]));
    add_saves(&mut table);
    let three = [(index(A), 10), (index(B), 20), (index(C), 30)];
    table.stays(31, Ok(Sub::Versions), versions(alloc, &three));
    for number in [0, 4, u64::MAX] {
        table.stays(32, restore(number, None), refused(Code::VersionUnknown));
    }
    play(&rt, table)
}

#[test]
fn a_version_is_restored(rt: HostRuntime) -> Result<(), Fail> {
    let alloc = rt.alloc();
    let mut table = Table::new(alloc);
    add_saves(&mut table);
    table.moves(35, draw(100), drawn(1, 100));
    table.moves(40, restore(1, None), Ok(Reply::Done));
    let four = [
        (index(A), 10),
        (index(B), 20),
        (index(C), 30),
        (own(101), 40),
    ];
    table.stays(41, Ok(Sub::Versions), versions(alloc, &four));
    table.stays(42, Ok(Sub::ReadFile), file(alloc, b"the first file"));
    // the first file is stored under another index now
    let next = save(alloc, b"the next file", CLIENT, index(A));
    table.stays(43, next, refused(Code::Coherency));
    table.moves(44, draw(1), drawn(102, 102));
    play(&rt, table)
}

#[test]
fn each_restore_has_an_index_of_its_own(rt: HostRuntime) -> Result<(), Fail> {
    let alloc = rt.alloc();
    let mut table = Table::new(alloc);
    add_saves(&mut table);
    table.moves(40, restore(1, None), Ok(Reply::Done));
    table.moves(50, restore(1, None), Ok(Reply::Done));
    let five = [
        (index(A), 10),
        (index(B), 20),
        (index(C), 30),
        (own(1), 40),
        (own(2), 50),
    ];
    table.stays(51, Ok(Sub::Versions), versions(alloc, &five));
    play(&rt, table)
}

#[test]
fn a_restore_keeps_to_the_lock(rt: HostRuntime) -> Result<(), Fail> {
    let mut table = Table::new(rt.alloc());
    add_saves(&mut table);
    let take = LockStep::TakeExclusive { id: L, timeout: 60 };
    let taken = locked(LockKind::Exclusive, Coauthors::Nobody);
    table.moves(100, lock(take), taken);
    table.stays(159, restore(1, None), refused(Code::AlreadyLocked));
    table.stays(159, restore(1, Some(A)), refused(Code::AlreadyLocked));
    table.moves(159, restore(1, Some(L)), Ok(Reply::Done));
    // the lock ends at 160
    table.moves(160, restore(1, None), Ok(Reply::Done));
    play(&rt, table)
}

#[test]
fn without_a_number_nothing_is_restored(rt: HostRuntime) -> Result<(), Fail> {
    let mut table = Table::new(rt.alloc());
    add_saves(&mut table);
    for count in 0..42_949_u64 {
        let before = 100_000 * count;
        table.moves(40, draw(100_000), drawn(before + 1, before + 100_000));
    }
    table.moves(50, draw(67_294), drawn(4_294_900_001, 4_294_967_294));
    table.moves(51, restore(1, None), Ok(Reply::Done));
    table.stays(52, restore(1, None), refused(Code::NoNumbers));
    table.stays(53, draw(1), refused(Code::NotSupported));
    play(&rt, table)
}
