// Calls and their bodies, byte by byte. The bytes are put together from docs/PROTOCOL.md.
use crate::test_reading::is_refused;
use change_record::*;
use compact_values::{ExGuid, Guid, NoMemory, Octets, Seq, Text};
use doc_model::{Body, Call, EditorStep, Element, LockStep, Put, Sub};
use std::alloc::Global;
use std::process::Abort;
use std::test::Fail;
use test_forms::{bytes_of, client, guid, schema};

/// What is asked at the moment 7 by `anonymous`, and its body.
#[derive(Drop)]
struct Row {
    form: Octets,
    call: Call,
}

/// Rows in order, and whether memory ran out.
#[derive(Drop)]
struct Table {
    alloc: Global,
    rows: Seq<Row>,
    full: bool,
}

impl Table {
    fn new(alloc: Global) -> Table {
        let rows = Seq::new(alloc);
        Table {
            alloc,
            rows,
            full: false,
        }
    }

    fn add(&mut self, form: &str, moment: u64, sub: Sub) -> Result<(), NoMemory> {
        let form = bytes_of(self.alloc, &[form])?;
        let user = Text::from_str(self.alloc, "anonymous")?;
        let call = Call { moment, user, sub };
        self.rows.push(Row { form, call })
    }

    fn row(&mut self, form: &str, sub: Sub) {
        self.full = self.add(form, 7, sub).is_err() || self.full;
    }

    fn made(&mut self, form: &str, sub: Result<Sub, NoMemory>) {
        match sub {
            Ok(sub) => self.row(form, sub),
            Err(_) => self.full = true,
        }
    }

    fn lock(&mut self, form: &str, step: LockStep) {
        self.row(form, Sub::Lock { step });
    }

    fn edit(&mut self, form: &str, step: EditorStep) {
        self.row(form, Sub::Editor { step });
    }
}

/// The body of a call. None where it has none, or memory ran out.
fn body_of(alloc: Global, call: &Call) -> Option<Octets> {
    if !can_move(&call.sub) {
        return None;
    }
    write_change(alloc, call).ok()
}

/// Whether each front of these bytes is the body of no change.
fn no_front_is_read(alloc: Global, bytes: &[u8]) -> bool {
    for length in 0..bytes.len() {
        if !is_refused(alloc, &bytes[..length]) {
            return false;
        }
    }
    true
}

/// Checks the rows in order: what is written, what is read, and that no front of it and nothing longer by a byte is read.
fn play(rt: &impl Abort, table: Table) -> Result<(), Fail> {
    let Table { alloc, rows, full } = table;
    assert!(rt; !full);
    let mut number = 0_usize;
    for row in rows.into_vec() {
        let Row { mut form, call } = row;
        let body = body_of(alloc, &call).ok_or("a change has a body")?;
        assert!(rt; body == form, "written: {number}");
        assert!(rt;
            read_change(alloc, form.as_slice()) == Ok(call),
            "read: {number}"
        );
        assert!(rt; no_front_is_read(alloc, form.as_slice()), "cut: {number}");
        form.push(0)?;
        assert!(rt; is_refused(alloc, form.as_slice()), "longer: {number}");
        number = number.saturating_add(1);
    }
    Ok(())
}

fn id(value: u32) -> ExGuid {
    ExGuid::Id {
        guid: guid(),
        value,
    }
}

/// A put of the index 1 without elements.
fn bare_put(alloc: Global) -> Put {
    Put {
        index: id(1),
        expected: ExGuid::Null,
        imply_null: false,
        partial: false,
        last: false,
        last_writer_wins: false,
        carried: None,
        elements: Seq::new(alloc),
    }
}

/// A put with all flags, a lock id, and two elements: a blob of three bytes, and an index of nothing.
fn full_put(alloc: Global) -> Result<Sub, NoMemory> {
    let mut bytes = Octets::new(alloc);
    bytes.extend_from_slice(&[1, 2, 3])?;
    let mut put = bare_put(alloc);
    put.expected = id(2);
    put.imply_null = true;
    put.partial = true;
    put.last = true;
    put.last_writer_wins = true;
    put.carried = Some(schema());
    put.elements.push(Element {
        id: id(1),
        body: Body::Blob { bytes },
    })?;
    put.elements.push(Element {
        id: ExGuid::Null,
        body: Body::Index {
            manifests: Seq::new(alloc),
            cells: Seq::new(alloc),
            revisions: Seq::new(alloc),
        },
    })?;
    Ok(Sub::Put { put })
}

/// A put of the index 1 with one of the flags.
fn flagged_put(alloc: Global, flag: u8) -> Sub {
    let mut put = bare_put(alloc);
    match flag {
        0x01 => put.imply_null = true,
        0x02 => put.partial = true,
        0x04 => put.last = true,
        0x80 => put.last_writer_wins = true,
        _ => {}
    }
    Sub::Put { put }
}

#[test]
fn bodies_of_puts(rt: HostRuntime) -> Result<(), Fail> {
    let alloc = rt.alloc();
    let mut table = Table::new(alloc);
    table.row("01 U 0C G 00 00 00 00", flagged_put(alloc, 0x00));
    table.row("01 U 0C G 00 01 00 00", flagged_put(alloc, 0x01));
    table.row("01 U 0C G 00 02 00 00", flagged_put(alloc, 0x02));
    table.row("01 U 0C G 00 04 00 00", flagged_put(alloc, 0x04));
    table.row("01 U 0C G 00 80 00 00", flagged_put(alloc, 0x80));
    table.made(
        "01 U 0C G 14 G 87 01 S 05 \
         0C 26 0C G 00 15 10 08 07 01 02 03 05 0C 06 00 00 03 05",
        full_put(alloc),
    );
    play(&rt, table)
}

#[test]
fn bodies_of_steps_of_a_lock(rt: HostRuntime) -> Result<(), Fail> {
    let mut table = Table::new(rt.alloc());
    let id = guid();
    let schema = schema();
    let client = client();
    table.lock(
        "03 U 01 G 42 38",
        LockStep::TakeExclusive { id, timeout: 3600 },
    );
    table.lock("03 U 02 G", LockStep::DropExclusive { id });
    table.lock(
        "03 U 03 G 79",
        LockStep::RefreshExclusive { id, timeout: 60 },
    );
    table.lock(
        "03 U 04 G S C 04 8C 0A 01",
        LockStep::ToShared {
            id,
            schema,
            client,
            timeout: 86_400,
            coauthor: true,
        },
    );
    table.lock(
        "03 U 05 S C 79 00",
        LockStep::TakeShared {
            schema,
            client,
            timeout: 60,
            coauthor: false,
        },
    );
    table.lock("03 U 06 S C", LockStep::DropShared { schema, client });
    table.lock(
        "03 U 07 S C 42 38",
        LockStep::RefreshShared {
            schema,
            client,
            timeout: 3600,
        },
    );
    table.lock(
        "03 U 08 S C G 79 01",
        LockStep::ToExclusive {
            schema,
            client,
            id,
            timeout: 60,
            release: true,
        },
    );
    play(&rt, table)
}

/// A key of two characters, of which the second has two bytes, with its value.
fn set_key(alloc: Global, client: Guid) -> Result<Sub, NoMemory> {
    let key = Text::from_str(alloc, "ké")?;
    let mut value = Octets::new(alloc);
    value.extend_from_slice(&[0, 0xFF])?;
    let step = EditorStep::SetKey { client, key, value };
    Ok(Sub::Editor { step })
}

fn remove_key(alloc: Global, client: Guid) -> Result<Sub, NoMemory> {
    let key = Text::from_str(alloc, "k")?;
    let step = EditorStep::RemoveKey { client, key };
    Ok(Sub::Editor { step })
}

#[test]
fn bodies_of_the_other_kinds(rt: HostRuntime) -> Result<(), Fail> {
    let alloc = rt.alloc();
    let mut table = Table::new(alloc);
    let client = client();
    table.row("02 U A2 0F", Sub::Draw { count: 1000 });
    let timeout = 3600;
    table.edit("04 U 01 C 42 38", EditorStep::Join { client, timeout });
    table.edit("04 U 02 C", EditorStep::Leave { client });
    let timeout = 60;
    table.edit("04 U 03 C 79", EditorStep::Refresh { client, timeout });
    table.made("04 U 04 C 07 6B C3 A9 05 00 FF", set_key(alloc, client));
    table.made("04 U 05 C 03 6B", remove_key(alloc, client));
    let number = 7;
    let carried = None;
    table.row("05 U 0F 00", Sub::Restore { number, carried });
    let carried = Some(guid());
    table.row("05 U 0F 01 G", Sub::Restore { number, carried });
    play(&rt, table)
}

#[test]
fn bodies_of_the_first_and_the_last_moment(rt: HostRuntime) -> Result<(), Fail> {
    let mut table = Table::new(rt.alloc());
    table.add(
        "02 00 13 61 6E 6F 6E 79 6D 6F 75 73 A2 0F",
        0,
        Sub::Draw { count: 1000 },
    )?;
    table.add(
        "02 E0 FF FF FF FF 3F 13 61 6E 6F 6E 79 6D 6F 75 73 A2 0F",
        1_099_511_627_775,
        Sub::Draw { count: 1000 },
    )?;
    play(&rt, table)
}

/// Whether these bytes are refused, or the body of the call that is read of them.
fn is_none_or_its_own(alloc: Global, bytes: &[u8]) -> bool {
    match read_change(alloc, bytes) {
        Ok(call) => match body_of(alloc, &call) {
            Some(body) => body.as_slice() == bytes,
            None => false,
        },
        Err(fault) => fault == ChangeFault::NotAChange,
    }
}

/// Whether that is so of the bytes with each of their bits turned.
fn each_bit_turned(alloc: Global, form: &str) -> Result<bool, NoMemory> {
    let body = bytes_of(alloc, &[form])?;
    let mut turned = body.into_vec();
    for place in 0..turned.len() {
        for bit in [1, 2, 4, 8, 16, 32, 64, 128] {
            turned[place] ^= bit;
            if !is_none_or_its_own(alloc, turned.as_slice()) {
                return Ok(false);
            }
            turned[place] ^= bit;
        }
    }
    Ok(true)
}

#[test]
fn turned_bits(rt: HostRuntime) -> Result<(), Fail> {
    let alloc = rt.alloc();
    assert!(rt; each_bit_turned(alloc, "02 U A2 0F")?);
    assert!(rt; each_bit_turned(alloc, "03 U 01 G 42 38")?);
    Ok(())
}

/// Whether a value of so many bytes, in a body that has 35 bytes beside it, is written and read again.
fn is_read_again(alloc: Global, length: usize) -> Result<bool, NoMemory> {
    let mut bytes = bytes_of(alloc, &["04 U 04 C 03 6B"])?;
    let content = Octets::from_vec(vec![in alloc; 0_u8; length]?);
    compact_values::write_item(&mut bytes, content.as_slice())?;
    Ok(!is_refused(alloc, bytes.as_slice()))
}

#[test]
fn longest_body(rt: HostRuntime) -> Result<(), Fail> {
    let alloc = rt.alloc();
    assert!(rt; is_read_again(alloc, 33_554_397)?);
    assert!(rt; !is_read_again(alloc, 33_554_398)?);
    Ok(())
}

/// The body of a put of so many elements without anything, less than 16,384.
fn many(alloc: Global, count: u16) -> Result<Octets, NoMemory> {
    let mut bytes = bytes_of(alloc, &["01 U 00 00 00 00"])?;
    compact_values::write_compact(&mut bytes, count as u64)?;
    for _ in 0..count {
        bytes.extend_from_slice(&[0x0C, 0x06, 0x00, 0x00, 0x03, 0x05])?;
    }
    Ok(bytes)
}

#[test]
fn most_elements(rt: HostRuntime) -> Result<(), Fail> {
    let alloc = rt.alloc();
    assert!(rt; !is_refused(alloc, many(alloc, 8192)?.as_slice()));
    assert!(rt; is_refused(alloc, many(alloc, 8193)?.as_slice()));
    Ok(())
}
