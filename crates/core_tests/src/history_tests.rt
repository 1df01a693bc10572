// A history with every kind of call, and the document that it leads to.
use crate::test_calls::{
    Fault, G, L, draw, drawn, file, join, leave, lock, locked, made, pull, pulled, range, refused,
    remove_key, restore, set_key, stored, upload, versions,
};
use crate::test_files::{
    CLIENT, SMALL, cut, first_part, group_first, index, last_part, overwrite, own, save,
};
use crate::test_table::{Row, Table, make_all};
use compact_values::{ExGuid, Guid, Seq, Text};
use doc_model::{Coauthors, Code, Core, EditorStep, Elements, LockKind, LockStep, Reply, Sub};
use plain_core::PlainCore;
use std::alloc::Global;
use std::test::Fail;

/// A schema lock id, and two clients.
const S: Guid = Guid { number: 0x20 };

const A: Guid = Guid { number: 0x30 };

const B: Guid = Guid { number: 0x31 };

/// Whose numbers the elements of the other file have.
const OTHER: Guid = Guid { number: 8 };

fn me(alloc: Global, user: &str) -> Result<Reply, Fault> {
    let user = Text::from_str(alloc, user)?;
    Ok(Reply::Me { user })
}

/// What a new document is asked.
fn add_readings(table: &mut Table) {
    let alloc = table.alloc;
    table.stays(0, Ok(Sub::Access), Ok(Reply::Access));
    table.stays(1, Ok(Sub::WhoAmI), me(alloc, "ann"));
    table.stays(2, Ok(Sub::AmIAlone), Ok(Reply::Lone { alone: true }));
    table.stays(3, Ok(Sub::Versions), versions(alloc, &[]));
    table.stays(4, Ok(Sub::ReadFile), file(alloc, &[]));
    let nothing = pulled(alloc, ExGuid::Null, &[], &[], &[]);
    table.stays(5, pull(alloc, &[range(1, 9)]), nothing);
    table.moves(6, draw(100_000), drawn(1, 100_000));
    table.stays(7, draw(0), refused(Code::NotSupported));
    table.stays(8, draw(100_001), refused(Code::NotSupported));
}

/// Two editors, one of which leaves.
fn add_editor_steps(table: &mut Table) {
    let alloc = table.alloc;
    table.moves(10, join(A, 3600), Ok(Reply::Done));
    table.moves(11, join(B, 3600), Ok(Reply::Done));
    table.stays(12, Ok(Sub::AmIAlone), Ok(Reply::Lone { alone: false }));
    table.moves(13, set_key(alloc, A, "one"), Ok(Reply::Done));
    table.moves(14, set_key(alloc, A, "other"), Ok(Reply::Done));
    table.stays(15, remove_key(alloc, A, "third"), Ok(Reply::Done));
    table.moves(16, remove_key(alloc, A, "other"), Ok(Reply::Done));
    let step = EditorStep::Refresh {
        client: A,
        timeout: 86_400,
    };
    table.moves(17, Ok(Sub::Editor { step }), Ok(Reply::Done));
    table.moves(18, leave(B), Ok(Reply::Done));
    table.stays(19, leave(B), refused(Code::EditorUnknown));
}

fn exclusive() -> Result<Reply, Fault> {
    locked(LockKind::Exclusive, Coauthors::Nobody)
}

fn schema(status: Coauthors) -> Result<Reply, Fault> {
    locked(LockKind::Schema, status)
}

const TAKE: LockStep = LockStep::TakeExclusive { id: L, timeout: 60 };

const REFRESH: LockStep = LockStep::RefreshExclusive { id: L, timeout: 60 };

const DROP: LockStep = LockStep::DropExclusive { id: L };

const CHECK: LockStep = LockStep::CheckExclusive { id: L };

const CHECK_OTHER: LockStep = LockStep::CheckExclusive { id: S };

const SHARE: LockStep = LockStep::ToShared {
    id: L,
    schema: S,
    client: A,
    timeout: 60,
    coauthor: true,
};

fn put_nothing(alloc: Global) -> Result<Sub, Fault> {
    let put = upload(ExGuid::Null, ExGuid::Null, Seq::new(alloc));
    Ok(Sub::Put { put })
}

/// The steps of an exclusive lock, which ends as one that A shares.
fn add_exclusive_steps(table: &mut Table) {
    let alloc = table.alloc;
    table.stays(20, lock(REFRESH), refused(Code::NotLocked));
    table.moves(21, lock(TAKE), exclusive());
    table.stays(22, lock(CHECK), Ok(Reply::Done));
    table.stays(23, lock(CHECK_OTHER), refused(Code::AlreadyLocked));
    table.stays(24, put_nothing(alloc), refused(Code::AlreadyLocked));
    table.moves(25, lock(REFRESH), exclusive());
    table.moves(26, lock(DROP), Ok(Reply::Done));
    table.moves(27, lock(TAKE), exclusive());
    table.moves(28, lock(SHARE), schema(Coauthors::Alone));
}

const JOIN: LockStep = LockStep::TakeShared {
    schema: S,
    client: B,
    timeout: 60,
    coauthor: true,
};

const STAY: LockStep = LockStep::RefreshShared {
    schema: S,
    client: B,
    timeout: 60,
};

const LEAVE: LockStep = LockStep::DropShared {
    schema: S,
    client: B,
};

const CHECK_SHARED: LockStep = LockStep::CheckShared { schema: S };

const STATUS: LockStep = LockStep::Status {
    schema: S,
    client: A,
};

const MARK: LockStep = LockStep::Mark {
    schema: S,
    client: A,
};

/// The client makes its share an exclusive lock, or with `release` leaves where it can't.
fn convert(client: Guid, release: bool) -> Result<Sub, Fault> {
    lock(LockStep::ToExclusive {
        schema: S,
        client,
        id: L,
        timeout: 60,
        release,
    })
}

/// The steps of a shared lock, which is free at the end.
fn add_shared_steps(table: &mut Table) {
    table.moves(30, lock(JOIN), schema(Coauthors::Several));
    table.stays(31, lock(STATUS), schema(Coauthors::Several));
    table.stays(32, lock(MARK), Ok(Reply::Done));
    table.stays(33, lock(CHECK_SHARED), Ok(Reply::Done));
    table.moves(34, lock(STAY), schema(Coauthors::Several));
    table.moves(35, lock(LEAVE), Ok(Reply::Done));
    table.stays(36, lock(STAY), refused(Code::NotLocked));
    table.moves(37, lock(JOIN), schema(Coauthors::Several));
    table.stays(38, convert(A, false), refused(Code::ManyClients));
    table.moves(39, convert(A, true), refused(Code::LeftOnFailedConversion));
    table.moves(40, convert(B, false), exclusive());
    table.moves(41, lock(DROP), Ok(Reply::Done));
}

/// The elements of both files, as they came.
fn both_files(alloc: Global) -> Result<Elements, Fault> {
    let mut all = group_first(alloc)?;
    all.append(cut(alloc, b"the other file", OTHER)?)?;
    Ok(all)
}

/// What a pull is answered that brings the last element of the other file.
fn last_pulled(alloc: Global) -> Result<Reply, Fault> {
    let all = both_files(alloc)?;
    pulled(alloc, index(OTHER), all.as_slice(), &[10], &[range(1, 10)])
}

/// A file in two parts, and the other one over it.
fn add_puts(table: &mut Table) {
    let alloc = table.alloc;
    table.moves(50, first_part(alloc), stored(alloc, &[]));
    let last = last_part(alloc, ExGuid::Null);
    table.moves(51, last, stored(alloc, &[range(1, 5)]));
    let late = save(alloc, b"the other file", OTHER, ExGuid::Null);
    table.stays(52, late, refused(Code::Coherency));
    let next = save(alloc, b"the other file", OTHER, index(CLIENT));
    table.moves(53, next, stored(alloc, &[range(6, 10)]));
    let again = overwrite(alloc, b"the other file", OTHER, index(CLIENT));
    table.stays(54, again, refused(Code::InvalidObject));
    table.stays(55, pull(alloc, &[range(1, 9)]), last_pulled(alloc));
}

/// A restore of the first file, a part that is kept, and a lock.
fn add_versions(table: &mut Table) {
    let alloc = table.alloc;
    let two = [(index(CLIENT), 51), (index(OTHER), 53)];
    let three = [(index(CLIENT), 51), (index(OTHER), 53), (own(100_001), 63)];
    table.stays(60, Ok(Sub::Versions), versions(alloc, &two));
    table.stays(61, Ok(Sub::ReadFile), file(alloc, b"the other file"));
    table.stays(62, restore(3, None), refused(Code::VersionUnknown));
    table.moves(63, restore(1, None), Ok(Reply::Done));
    table.stays(64, Ok(Sub::ReadFile), file(alloc, SMALL));
    table.stays(65, Ok(Sub::Versions), versions(alloc, &three));
    table.moves(66, draw(1), drawn(100_002, 100_002));
    table.moves(67, first_part(alloc), stored(alloc, &[]));
    table.moves(68, lock(JOIN), schema(Coauthors::Alone));
}

fn every_row(alloc: Global) -> Result<Seq<Row>, Fault> {
    let mut table = Table::new(alloc);
    add_readings(&mut table);
    add_editor_steps(&mut table);
    add_exclusive_steps(&mut table);
    add_shared_steps(&mut table);
    add_puts(&mut table);
    add_versions(&mut table);
    table.into_rows()
}

#[test]
fn every_kind_of_call(rt: HostRuntime) -> Result<(), Fail> {
    let alloc = rt.alloc();
    let mut core = PlainCore::new(alloc, G)?;
    let rows = every_row(alloc)?;
    make_all(&rt, alloc, &mut core, rows.as_slice())
}

/// Makes the calls of the rows that change the document.
fn make_moved<C: Core>(core: &mut C, rows: &[Row]) -> Result<(), Fail> {
    for row in rows {
        if row.moved {
            made(core, &row.call)?;
        }
    }
    Ok(())
}

#[test]
fn the_moved_calls_make_the_document_again(rt: HostRuntime) -> Result<(), Fail> {
    let alloc = rt.alloc();
    let rows = every_row(alloc)?;
    let mut core = PlainCore::new(alloc, G)?;
    make_all(&rt, alloc, &mut core, rows.as_slice())?;
    let mut again = PlainCore::new(alloc, G)?;
    make_moved(&mut again, rows.as_slice())?;
    assert!(rt; again.copy(alloc)? == core.copy(alloc)?);
    Ok(())
}
