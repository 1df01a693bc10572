// Calls of every kind that may move a document, each picked by its number.
use crate::test_documents::call;
use compact_values::{ExGuid, Guid, Octets, Text};
use doc_model::{Call, EditorStep, Elements, LockStep, Put, Sub};
use file_nodes::{Chunked, chunk};
use std::alloc::Global;

/// How many kinds of calls there are.
pub const KINDS: u32 = 15;

const LOCK: Guid = Guid { number: 0x10 };

const SCHEMA: Guid = Guid { number: 0x20 };

/// Two clients.
const ANNA: Guid = Guid { number: 0x30 };

const BERTA: Guid = Guid { number: 0x31 };

/// The files are fronts of this one.
const FILE: &[u8; 96] = &[0x5A; 96];

/// The GUIDs under which files are saved begin here.
const SAVES: u128 = 0x1000;

// A number that looks like any other: the middle of a square.
fn mixed(number: u32) -> u64 {
    let spread = number as u64 * 2_654_435_761 / 256 % 16_777_216;
    spread * spread / 4_096
}

/// The kind of a call.
pub fn kind_of(number: u32) -> u32 {
    (mixed(number) % KINDS as u64) as u32
}

fn client(number: u32) -> Guid {
    if number % 2 == 0 { ANNA } else { BERTA }
}

// The lock id that a save names, if it names one.
fn carried(number: u32) -> Option<Guid> {
    if mixed(number) / 16 % 2 == 0 {
        Some(LOCK)
    } else {
        None
    }
}

// Between one and 24 hours.
fn timeout(number: u32) -> u64 {
    3_600 + mixed(number) % 82_000
}

fn file(alloc: Global, number: u32, guid: Guid) -> Option<Elements> {
    let length = (mixed(number) / 64 % 96) as usize;
    let file = FILE.get(..length)?;
    let Chunked { elements, .. } = chunk(alloc, file, guid, 1).ok()?;
    Some(elements)
}

// A save that wins as the last writer: of a file, or, where it isn't the last part of its upload, of some of its elements.
fn save(alloc: Global, number: u32, whole: bool) -> Option<Sub> {
    let guid = Guid {
        number: SAVES + number as u128,
    };
    let put = Put {
        index: ExGuid::Id { guid, value: 1 },
        expected: ExGuid::Null,
        imply_null: false,
        partial: !whole,
        last: whole,
        last_writer_wins: true,
        carried: carried(number),
        elements: file(alloc, number, guid)?,
    };
    Some(Sub::Put { put })
}

fn lock_step(number: u32, kind: u32) -> LockStep {
    let timeout = timeout(number);
    let client = client(number);
    match kind {
        3 => LockStep::TakeExclusive { id: LOCK, timeout },
        4 => LockStep::RefreshExclusive { id: LOCK, timeout },
        5 => LockStep::DropExclusive { id: LOCK },
        6 => LockStep::TakeShared {
            schema: SCHEMA,
            client,
            timeout,
            coauthor: true,
        },
        7 => LockStep::RefreshShared {
            schema: SCHEMA,
            client,
            timeout,
        },
        8 => LockStep::ToExclusive {
            schema: SCHEMA,
            client,
            id: LOCK,
            timeout,
            release: true,
        },
        9 => LockStep::ToShared {
            id: LOCK,
            schema: SCHEMA,
            client,
            timeout,
            coauthor: false,
        },
        _ => LockStep::DropShared {
            schema: SCHEMA,
            client,
        },
    }
}

fn editor_step(alloc: Global, number: u32, kind: u32) -> Option<EditorStep> {
    let client = client(number);
    Some(match kind {
        11 => EditorStep::Join {
            client,
            timeout: timeout(number),
        },
        12 => {
            let mut value = Octets::new(alloc);
            value.extend_from_slice(&number.to_le_bytes()).ok()?;
            let key = Text::from_str(alloc, "colour").ok()?;
            EditorStep::SetKey { client, key, value }
        }
        _ => EditorStep::Leave { client },
    })
}

fn asked(alloc: Global, number: u32) -> Option<Sub> {
    let kind = kind_of(number);
    match kind {
        0 => Some(Sub::Draw {
            count: 1 + mixed(number) % 1_000,
        }),
        1 => save(alloc, number, true),
        2 => save(alloc, number, false),
        3..=10 => Some(Sub::Lock {
            step: lock_step(number, kind),
        }),
        11..=13 => Some(Sub::Editor {
            step: editor_step(alloc, number, kind)?,
        }),
        _ => Some(Sub::Restore {
            number: 1 + mixed(number) % 3,
            carried: carried(number),
        }),
    }
}

/// How many seconds pass from one call to the next.
const PAUSE: u64 = 600;

/// The call with this number.
pub fn generated(alloc: Global, number: u32) -> Option<Call> {
    call(alloc, number as u64 * PAUSE, asked(alloc, number)?)
}
