ghost use Rattle.std.specs.Prelude.{ℕ, ◌+◌, ◌<◌, ◌^◌, IfOk, IfSome};
ghost use Rattle.doc_model.specs.rules.Editing.{editor_timeout_of};

use compact_values::{Guid, NoMemory, Octets, Seq, Text};
use doc_model::{Code, Editor, EditorStep, Editors, Entry, Reply};
use editors_table::*;
use std::alloc::Global;
use std::process::Abort;
use std::test::Fail;

/// Three clients.
const E: Guid = Guid { number: 0x30 };

const F: Guid = Guid { number: 0x31 };

const G: Guid = Guid { number: 0x32 };

/// As many keys as an editor may have.
const KEYS: [&str; 8] = ["k0", "k1", "k2", "k3", "k4", "k5", "k6", "k7"];

/// The table that a document has after a step, and what the step is answered.
fn taken(
    alloc: Global,
    table: Editors,
    moment: u64,
    user: &str,
    asked: EditorStep,
) -> Result<(Editors, Reply), NoMemory>
    requires { IfSome (editor_timeout_of asked) (λ t. moment + t < 2 ^ 64) }
{
    let user = Text::from_str(alloc, user)?;
    let plan = step(alloc, &table, moment, &user, &asked)?;
    let answer = reply(&plan);
    if plan.moved {
        Ok((plan.after, answer))
    } else {
        Ok((table, answer))
    }
}

/// What is asked of the table.
#[derive(Clone, Copy)]
enum Ask {
    /// A client comes, for 3,600 seconds.
    Join(Guid),
    /// A client stays, for 60 seconds.
    Refresh(Guid),
    Leave(Guid),
    /// E sets this key to this value.
    Set(&'static str, &'static [u8]),
    /// E removes this key.
    Remove(&'static str),
}

fn step_of(alloc: Global, ask: Ask) -> Result<EditorStep, NoMemory>
    ensures { IfOk result (λ s. IfSome (editor_timeout_of s) (λ t. t < 2 ^ 16)) }
{
    match ask {
        Ask::Join(client) => Ok(EditorStep::Join {
            client,
            timeout: 3600,
        }),
        Ask::Refresh(client) => Ok(EditorStep::Refresh {
            client,
            timeout: 60,
        }),
        Ask::Leave(client) => Ok(EditorStep::Leave { client }),
        Ask::Set(key, value) => set(alloc, key, value),
        Ask::Remove(key) => remove(alloc, key),
    }
}

/// A moment, a user, what that user asks, and why it is refused.
type Row = (u32, &'static str, Ask, Option<Code>);

/// The table after these steps, each of which is answered as its row says.
fn play(rt: &impl Abort, alloc: Global, table: Editors, rows: &[Row]) -> Result<Editors, Fail> {
    let mut table = table;
    for (moment, user, ask, code) in rows {
        let asked = step_of(alloc, *ask)?;
        let (next, reply) = taken(alloc, table, u64::from(*moment), user, asked)?;
        assert!(rt; reply == answer(*code), "at {moment}");
        table = next;
    }
    Ok(table)
}

fn answer(code: Option<Code>) -> Reply {
    match code {
        Some(code) => Reply::Refused { code },
        None => Reply::Done,
    }
}

/// A text of so many pieces.
fn repeated(alloc: Global, piece: &str, count: usize) -> Result<Text, NoMemory> {
    let mut text = Text::new(alloc);
    for _ in 0..count {
        text.push_str(piece)?;
    }
    Ok(text)
}

fn zeros(alloc: Global, count: usize) -> Result<Octets, NoMemory> {
    let mut bytes = Seq::new(alloc);
    for _ in 0..count {
        bytes.push(0)?;
    }
    Ok(bytes)
}

fn entry(alloc: Global, key: &str, value: &[u8]) -> Result<Entry, NoMemory> {
    let mut bytes = Seq::new(alloc);
    bytes.extend_from_slice(value)?;
    Ok(Entry {
        key: Text::from_str(alloc, key)?,
        value: bytes,
    })
}

/// E sets a key.
fn set(alloc: Global, key: &str, value: &[u8]) -> Result<EditorStep, NoMemory>
    ensures { IfOk result (λ s. IfSome (editor_timeout_of s) (λ t. t < 2 ^ 16)) }
{
    let Entry { key, value } = entry(alloc, key, value)?;
    Ok(EditorStep::SetKey {
        client: E,
        key,
        value,
    })
}

/// E removes a key.
fn remove(alloc: Global, key: &str) -> Result<EditorStep, NoMemory>
    ensures { IfOk result (λ s. IfSome (editor_timeout_of s) (λ t. t < 2 ^ 16)) }
{
    let key = Text::from_str(alloc, key)?;
    Ok(EditorStep::RemoveKey { client: E, key })
}

/// An editor with these keys, all of the value "a" but for one, which has "b".
fn editor(
    alloc: Global,
    client: Guid,
    user: &str,
    until: u64,
    keys: &[&str],
    other: &str,
) -> Result<Editor, NoMemory> {
    let mut entries = Seq::new(alloc);
    for key in keys {
        let value = if *key == other { b"b" } else { b"a" };
        entries.push(entry(alloc, key, value)?)?;
    }
    Ok(Editor {
        client,
        user: Text::from_str(alloc, user)?,
        until,
        entries,
    })
}

/// E alone, until 3600, with all of the keys.
fn table_of_e(alloc: Global, other: &str) -> Result<Editors, NoMemory> {
    let mut table = Seq::new(alloc);
    table.push(editor(alloc, E, "eve", 3600, &KEYS, other)?)?;
    Ok(table)
}

/// 64 editors without keys, the first one until 100 and the others until 200.
fn full(alloc: Global) -> Result<Editors, NoMemory> {
    let mut table = Seq::new(alloc);
    table.push(editor(alloc, Guid { number: 1000 }, "first", 100, &[], "")?)?;
    for i in 1..63_u64 {
        let number = 1000 + u128::from(i);
        table.push(editor(alloc, Guid { number }, "one", 200, &[], "")?)?;
    }
    table.push(editor(alloc, E, "eve", 200, &["k0"], "")?)?;
    Ok(table)
}

#[test]
fn editors_come_and_expire(rt: HostRuntime) -> Result<(), Fail> {
    let alloc = rt.alloc();
    let come: [Row; 3] = [
        (0, "eve", Ask::Join(E), None),
        (0, "eve", Ask::Set("k0", b"a"), None),
        (10, "fay", Ask::Join(F), None),
    ];
    let table = play(&rt, alloc, Seq::new(alloc), &come)?;
    let alone = [10, 3599, 3600].map(|moment| is_alone(&table, moment));
    assert_eq!(rt; alone, [false, false, true]);
    // E isn't there at its end, and has lost its keys when it comes again.
    let again: [Row; 2] = [
        (3600, "eve", Ask::Leave(E), Some(Code::EditorUnknown)),
        (3600, "eve", Ask::Join(E), None),
    ];
    let table = play(&rt, alloc, table, &again)?;
    let mut wanted = Seq::new(alloc);
    wanted.push(editor(alloc, F, "fay", 3610, &[], "")?)?;
    wanted.push(editor(alloc, E, "eve", 7200, &[], "")?)?;
    assert!(rt; table == wanted);
    let leave: [Row; 2] = [
        (3600, "gus", Ask::Leave(G), Some(Code::EditorUnknown)),
        (3600, "eve", Ask::Leave(E), None),
    ];
    let table = play(&rt, alloc, table, &leave)?;
    assert_eq!(rt; table.len(), 1);
    assert!(rt; is_alone(&table, 3600));
    Ok(())
}

#[test]
fn keys_are_set_and_removed(rt: HostRuntime) -> Result<(), Fail> {
    let alloc = rt.alloc();
    let set: [Row; 12] = [
        (0, "eve", Ask::Join(E), None),
        (0, "eve", Ask::Set("k0", b"a"), None),
        (0, "eve", Ask::Set("k1", b"a"), None),
        (0, "eve", Ask::Set("k2", b"a"), None),
        (0, "eve", Ask::Set("k3", b"a"), None),
        (0, "eve", Ask::Set("k4", b"a"), None),
        (0, "eve", Ask::Set("k5", b"a"), None),
        (0, "eve", Ask::Set("k6", b"a"), None),
        (0, "eve", Ask::Set("k7", b"a"), None),
        (0, "eve", Ask::Set("k8", b"a"), Some(Code::MetadataFull)),
        (0, "eve", Ask::Set("k3", b"b"), None),
        (0, "eve", Ask::Remove("k8"), None),
    ];
    let table = play(&rt, alloc, Seq::new(alloc), &set)?;
    assert!(rt; table == table_of_e(alloc, "k3")?);
    // A refresh by another user leaves the name.
    let removed: [Row; 2] = [
        (9, "fay", Ask::Refresh(E), None),
        (9, "eve", Ask::Remove("k7"), None),
    ];
    let table = play(&rt, alloc, table, &removed)?;
    let mut wanted = Seq::new(alloc);
    wanted.push(editor(alloc, E, "eve", 69, &KEYS[..7], "k3")?)?;
    assert!(rt; table == wanted);
    Ok(())
}

/// What E is answered that sets a key of so many pieces to so many zeros.
fn answer_to_key(
    alloc: Global,
    piece: &str,
    count: usize,
    length: usize,
) -> Result<Reply, NoMemory> {
    let joined = step_of(alloc, Ask::Join(E))?;
    let (table, _) = taken(alloc, Seq::new(alloc), 0, "eve", joined)?;
    let asked = EditorStep::SetKey {
        client: E,
        key: repeated(alloc, piece, count)?,
        value: zeros(alloc, length)?,
    };
    let (_, reply) = taken(alloc, table, 0, "eve", asked)?;
    Ok(reply)
}

#[test]
fn keys_and_values_have_1024_bytes(rt: HostRuntime) -> Result<(), Fail> {
    let long = Some(Code::MetadataLong);
    let cases = [
        ("a", 1025, 0, long),
        ("a", 1024, 0, None),
        ("é", 512, 0, None),
        ("é", 513, 0, long),
        ("a", 1, 1024, None),
        ("a", 1, 1025, long),
    ];
    for (piece, count, length, code) in cases {
        let reply = answer_to_key(rt.alloc(), piece, count, length)?;
        assert!(rt; reply == answer(code), "{count} of {piece}, and {length}");
    }
    Ok(())
}

#[test]
fn sixty_four_clients_edit(rt: HostRuntime) -> Result<(), Fail> {
    let alloc = rt.alloc();
    let refused: [Row; 1] = [(99, "fay", Ask::Join(F), Some(Code::EditorsFull))];
    let table = play(&rt, alloc, full(alloc)?, &refused)?;
    assert!(rt; table == full(alloc)?);
    // Its own place, in which it keeps its keys.
    let own: [Row; 1] = [(99, "eva", Ask::Join(E), None)];
    let table = play(&rt, alloc, table, &own)?;
    let wanted = editor(alloc, E, "eva", 3699, &["k0"], "")?;
    assert!(rt; table.as_slice().last() == Some(&wanted));
    let come: [Row; 1] = [(100, "fay", Ask::Join(F), None)];
    let table = play(&rt, alloc, table, &come)?;
    assert_eq!(rt; table.len(), 64);
    Ok(())
}
