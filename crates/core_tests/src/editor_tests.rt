// The editors of a document.
use crate::test_calls::{Fault, join, leave, refused, remove_key, set_key};
use crate::test_table::{Table, play};
use compact_values::{Guid, Text};
use doc_model::{Code, Reply, Sub};
use std::alloc::Global;
use std::test::Fail;

/// Two clients.
const E: Guid = Guid { number: 0x30 };

const F: Guid = Guid { number: 0x31 };

fn lone(alone: bool) -> Result<Reply, Fault> {
    Ok(Reply::Lone { alone })
}

#[test]
fn editors_know_whether_they_are_alone(rt: HostRuntime) -> Result<(), Fail> {
    let mut table = Table::new(rt.alloc());
    table.stays(0, Ok(Sub::AmIAlone), lone(true));
    table.moves(0, join(E, 3600), Ok(Reply::Done));
    table.stays(1, Ok(Sub::AmIAlone), lone(true));
    table.moves(1, join(F, 60), Ok(Reply::Done));
    table.stays(60, Ok(Sub::AmIAlone), lone(false));
    // F is there until 61
    table.stays(61, Ok(Sub::AmIAlone), lone(true));
    table.stays(61, leave(F), refused(Code::EditorUnknown));
    play(&rt, table)
}

/// E sets a key of so many letters.
fn set_letters(alloc: Global, count: usize) -> Result<Sub, Fault> {
    let mut text = Text::new(alloc);
    for _ in 0..count {
        text.push_str("a")?;
    }
    set_key(alloc, E, text.as_str())
}

#[test]
fn an_editor_has_few_and_short_keys(rt: HostRuntime) -> Result<(), Fail> {
    let alloc = rt.alloc();
    let mut table = Table::new(alloc);
    table.moves(0, join(E, 3600), Ok(Reply::Done));
    table.stays(1, set_letters(alloc, 1025), refused(Code::MetadataLong));
    for key in ["1", "2", "3", "4", "5", "6", "7", "8"] {
        table.moves(2, set_key(alloc, E, key), Ok(Reply::Done));
    }
    table.stays(3, set_key(alloc, E, "9"), refused(Code::MetadataFull));
    table.stays(4, remove_key(alloc, E, "9"), Ok(Reply::Done));
    play(&rt, table)
}

#[test]
fn sixty_four_clients_edit(rt: HostRuntime) -> Result<(), Fail> {
    let mut table = Table::new(rt.alloc());
    table.moves(0, join(E, 100), Ok(Reply::Done));
    for place in 0..63_u64 {
        let number = 1000 + u128::from(place);
        table.moves(0, join(Guid { number }, 200), Ok(Reply::Done));
    }
    table.stays(99, join(F, 60), refused(Code::EditorsFull));
    // the place of E, which is there until 100
    table.moves(100, join(F, 60), Ok(Reply::Done));
    play(&rt, table)
}
