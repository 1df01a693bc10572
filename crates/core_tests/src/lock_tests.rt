// The lock of a document, and the puts that it keeps out.
use crate::test_calls::{Fault, L, lock, locked, range, refused, stored};
use crate::test_files::{CLIENT, index, save};
use crate::test_table::{Table, play};
use compact_values::{ExGuid, Guid};
use doc_model::{Coauthors, Code, LockKind, LockStep, Put, Reply, Sub};
use std::alloc::Global;
use std::test::Fail;

/// Another exclusive lock id, two schema lock ids, and three clients.
const M: Guid = Guid { number: 0x11 };

const S: Guid = Guid { number: 0x20 };

const T: Guid = Guid { number: 0x21 };

const A: Guid = Guid { number: 0x30 };

const B: Guid = Guid { number: 0x31 };

const C: Guid = Guid { number: 0x32 };

/// Whose numbers the elements of a second file have.
const OTHER: Guid = Guid { number: 8 };

fn exclusive() -> Result<Reply, Fault> {
    locked(LockKind::Exclusive, Coauthors::Nobody)
}

fn schema(status: Coauthors) -> Result<Reply, Fault> {
    locked(LockKind::Schema, status)
}

fn take(id: Guid, timeout: u64) -> Result<Sub, Fault> {
    lock(LockStep::TakeExclusive { id, timeout })
}

fn join(schema: Guid, client: Guid, timeout: u64) -> Result<Sub, Fault> {
    lock(LockStep::TakeShared {
        schema,
        client,
        timeout,
        coauthor: true,
    })
}

fn convert(client: Guid, release: bool) -> Result<Sub, Fault> {
    lock(LockStep::ToExclusive {
        schema: S,
        client,
        id: L,
        timeout: 3600,
        release,
    })
}

/// The first save of a document, by who carries this lock id.
fn first_save(alloc: Global, carried: Option<Guid>) -> Result<Sub, Fault> {
    carrying(save(alloc, b"one", CLIENT, ExGuid::Null)?, carried)
}

/// The save behind it.
fn second_save(alloc: Global, carried: Option<Guid>) -> Result<Sub, Fault> {
    carrying(save(alloc, b"two", OTHER, index(CLIENT))?, carried)
}

fn carrying(sub: Sub, carried: Option<Guid>) -> Result<Sub, Fault> {
    match sub {
        Sub::Put { put } => Ok(Sub::Put {
            put: Put { carried, ..put },
        }),
        other => Ok(other),
    }
}

#[test]
fn an_exclusive_lock_keeps_puts_out_until_its_end(rt: HostRuntime) -> Result<(), Fail> {
    let alloc = rt.alloc();
    let mut table = Table::new(alloc);
    table.moves(0, take(L, 1000), exclusive());
    table.stays(998, first_save(alloc, None), refused(Code::AlreadyLocked));
    table.stays(
        998,
        first_save(alloc, Some(M)),
        refused(Code::AlreadyLocked),
    );
    table.moves(
        999,
        first_save(alloc, Some(L)),
        stored(alloc, &[range(1, 5)]),
    );
    table.stays(999, second_save(alloc, None), refused(Code::AlreadyLocked));
    table.moves(
        1000,
        second_save(alloc, None),
        stored(alloc, &[range(6, 10)]),
    );
    play(&rt, table)
}

#[test]
fn a_refreshed_lock_is_live_for_longer(rt: HostRuntime) -> Result<(), Fail> {
    let alloc = rt.alloc();
    let mut table = Table::new(alloc);
    table.moves(0, take(L, 1000), exclusive());
    let refresh = LockStep::RefreshExclusive { id: L, timeout: 60 };
    table.moves(999, lock(refresh), exclusive());
    table.stays(1058, first_save(alloc, None), refused(Code::AlreadyLocked));
    table.stays(1058, take(M, 60), refused(Code::AlreadyLocked));
    table.stays(
        1059,
        lock(LockStep::CheckExclusive { id: M }),
        Ok(Reply::Done),
    );
    // The moments go back, and the lock is live again.
    let drop = lock(LockStep::DropExclusive { id: M });
    table.stays(1058, drop, refused(Code::AlreadyLocked));
    table.moves(1059, first_save(alloc, None), stored(alloc, &[range(1, 5)]));
    play(&rt, table)
}

#[test]
fn who_shares_a_lock_saves_with_its_id(rt: HostRuntime) -> Result<(), Fail> {
    let alloc = rt.alloc();
    let mut table = Table::new(alloc);
    table.moves(0, join(S, A, 3600), schema(Coauthors::Alone));
    table.moves(0, join(S, B, 3600), schema(Coauthors::Several));
    table.stays(1, first_save(alloc, None), refused(Code::AlreadyLocked));
    table.stays(1, first_save(alloc, Some(T)), refused(Code::AlreadyLocked));
    table.stays(1, first_save(alloc, Some(A)), refused(Code::AlreadyLocked));
    table.moves(1, first_save(alloc, Some(S)), stored(alloc, &[range(1, 5)]));
    table.moves(
        3600,
        second_save(alloc, None),
        stored(alloc, &[range(6, 10)]),
    );
    play(&rt, table)
}

#[test]
fn the_last_who_shares_a_lock_may_have_it_alone(rt: HostRuntime) -> Result<(), Fail> {
    let alloc = rt.alloc();
    let mut table = Table::new(alloc);
    table.moves(0, join(S, A, 3600), schema(Coauthors::Alone));
    table.moves(0, join(S, B, 3600), schema(Coauthors::Several));
    table.stays(0, convert(A, false), refused(Code::ManyClients));
    table.moves(0, convert(A, true), refused(Code::LeftOnFailedConversion));
    let status = LockStep::Status {
        schema: S,
        client: B,
    };
    table.stays(0, lock(status), schema(Coauthors::Alone));
    let refresh = LockStep::RefreshShared {
        schema: S,
        client: A,
        timeout: 3600,
    };
    table.stays(0, lock(refresh), refused(Code::NotLocked));
    table.stays(0, join(T, C, 3600), refused(Code::AlreadyLocked));
    table.moves(0, convert(B, false), exclusive());
    table.stays(1, first_save(alloc, Some(S)), refused(Code::AlreadyLocked));
    table.moves(1, first_save(alloc, Some(L)), stored(alloc, &[range(1, 5)]));
    play(&rt, table)
}

#[test]
fn sixty_four_clients_share_a_lock(rt: HostRuntime) -> Result<(), Fail> {
    let mut table = Table::new(rt.alloc());
    table.moves(0, join(S, A, 100), schema(Coauthors::Alone));
    for place in 0..63_u64 {
        let number = 1000 + u128::from(place);
        let joined = join(S, Guid { number }, 200);
        table.moves(0, joined, schema(Coauthors::Several));
    }
    table.stays(99, join(S, B, 60), refused(Code::TooManyCoauthors));
    table.moves(
        99,
        join(S, Guid { number: 1062 }, 200),
        schema(Coauthors::Several),
    );
    // the place of A, which is there until 100
    table.moves(100, join(S, B, 60), schema(Coauthors::Several));
    // What had expired left the lock with its change, and isn't there again at a moment before.
    let gone = LockStep::DropShared {
        schema: S,
        client: A,
    };
    table.stays(99, lock(gone), refused(Code::NotLocked));
    play(&rt, table)
}
