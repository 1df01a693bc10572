// Envelopes as large as a body may be, of 24 MiB, are read or refused within the time that a test has, which a reader that
// goes back over what it has read would not keep. These tests are also the measure of docs/PERFORMANCE.md.
use crate::test_envelopes::{BACK, FRONT};
use base64::engine::general_purpose::STANDARD;
use compact_values::{NoMemory, Octets};
use envelope_read::{Collection, EnvelopeFault, What, read_envelope};
use std::alloc::Global;
use std::process::Abort;
use std::test::Fail;

/// The bytes of the largest body.
const BODY: usize = 25_165_824;

/// The bytes of the largest file, all zeros, whose base64 is these lines, and behind them this rest.
const FILE: usize = 16_777_216;

const LINES: usize = 349_525;

const LINE: &str = "AAAAAAAAAAAAAAAAAAAAAAAAAAAAAAAAAAAAAAAAAAAAAAAAAAAAAAAAAAAAAAAA";

/// The same with a line's end.
const ENDED_LINE: &str = "AAAAAAAAAAAAAAAAAAAAAAAAAAAAAAAAAAAAAAAAAAAAAAAAAAAAAAAAAAAAAAAA\r\n";

const REST: &str = "AAAAAAAAAAAAAAAAAAAAAA==";

const CELL: &str = "<SubRequest Type='Cell'><SubRequestData>";

const DATA: &str = "<SubRequest Type='WhoAmI'><SubRequestData>";

const END: &str = "</SubRequestData></SubRequest>";

/// How many texts are added in one step.
const STEP: usize = 1024;

fn add_all(all: &mut Octets, parts: &[&str]) -> Result<(), NoMemory> {
    for part in parts {
        all.extend_from_slice(part.as_bytes())?;
    }
    Ok(())
}

fn add_repeated(all: &mut Octets, text: &str, count: usize) -> Result<(), NoMemory> {
    for _ in 0..count {
        all.extend_from_slice(text.as_bytes())?;
    }
    Ok(())
}

/// The text so often, between these fronts and these backs.
fn large(
    alloc: Global,
    front: &[&str],
    text: &str,
    count: usize,
    back: &[&str],
) -> Result<Octets, NoMemory> {
    let mut piece = Octets::new(alloc);
    add_repeated(&mut piece, text, STEP)?;
    let mut all = Octets::new(alloc);
    add_all(&mut all, front)?;
    for _ in 0..count / STEP {
        all.extend_from_slice(piece.as_slice())?;
    }
    add_repeated(&mut all, text, count % STEP)?;
    add_all(&mut all, back)?;
    Ok(all)
}

/// Checks that an envelope of the text, as often as a body has room for it, is answered so.
fn check(
    rt: &impl Abort,
    alloc: Global,
    inside: (&str, &str, &str),
    refusal: Option<EnvelopeFault>,
) -> Result<(), Fail> {
    let (front, text, back) = inside;
    let len = text.len();
    assert!(rt; len > 0);
    let count = (BODY - 200) / len;
    let envelope = large(alloc, &[FRONT, front], text, count, &[back, BACK])?;
    assert!(rt; envelope.len() > BODY - 300);
    assert!(rt; envelope.len() <= BODY);
    assert!(rt; read_envelope(alloc, envelope.as_slice()).err() == refusal);
    Ok(())
}

const NOT_IN_GRAMMAR: Option<EnvelopeFault> = Some(EnvelopeFault::NotInGrammar { place: 0 });

#[test]
fn open_elements_are_refused(rt: HostRuntime) -> Result<(), Fail> {
    check(&rt, rt.alloc(), (DATA, "<x>", END), NOT_IN_GRAMMAR)
}

#[test]
fn empty_elements_are_skipped(rt: HostRuntime) -> Result<(), Fail> {
    check(&rt, rt.alloc(), (DATA, "<x/>", END), None)
}

#[test]
fn elements_between_characters_are_skipped(rt: HostRuntime) -> Result<(), Fail> {
    check(&rt, rt.alloc(), (DATA, "a<x>b</x>", END), None)
}

#[test]
fn a_long_value_is_refused(rt: HostRuntime) -> Result<(), Fail> {
    let inside = ("<SubRequest Type='", "a", "'/>");
    check(&rt, rt.alloc(), inside, NOT_IN_GRAMMAR)
}

#[test]
fn many_values_are_read(rt: HostRuntime) -> Result<(), Fail> {
    let inside = ("<SubRequest", " a='0123456789'", "/>");
    check(&rt, rt.alloc(), inside, None)
}

#[test]
fn references_are_read(rt: HostRuntime) -> Result<(), Fail> {
    check(&rt, rt.alloc(), (DATA, "&amp;", END), None)
}

#[test]
fn references_are_no_base64(rt: HostRuntime) -> Result<(), Fail> {
    let refusal = Some(EnvelopeFault::BadBase64 { sub: 0 });
    check(&rt, rt.alloc(), (CELL, "&amp;", END), refusal)
}

#[test]
fn references_in_a_value_are_refused(rt: HostRuntime) -> Result<(), Fail> {
    let inside = ("<SubRequest Type='", "&amp;", "'/>");
    check(&rt, rt.alloc(), inside, NOT_IN_GRAMMAR)
}

#[test]
fn white_space_is_read(rt: HostRuntime) -> Result<(), Fail> {
    check(&rt, rt.alloc(), ("<SubRequest/>", "\r\n\t ", ""), None)
}

/// Whether the one SubRequest is a Cell of so many bytes.
fn is_cell(collection: &Collection, len: usize) -> bool {
    match collection.requests.as_slice() {
        [ask] => match ask.subs.as_slice() {
            [sub] => match &sub.what {
                What::Cell { bytes, .. } => bytes.len() == len,
                _ => false,
            },
            _ => false,
        },
        _ => false,
    }
}

/// An envelope of a Cell that has these lines, and behind them the rest.
fn check_cell(rt: &impl Abort, alloc: Global, line: &str) -> Result<(), Fail> {
    let envelope = large(alloc, &[FRONT, CELL], line, LINES, &[REST, END, BACK])?;
    match read_envelope(alloc, envelope.as_slice()) {
        Ok(collection) => assert!(rt; is_cell(&collection, FILE)),
        Err(_) => assert!(rt; false),
    }
    Ok(())
}

// The four that follow make the base64 of the largest file alike. The first does nothing more, the second decodes it, the
// others read it in an envelope, on one line and on many.

#[test]
fn large_base64_is_made(rt: HostRuntime) -> Result<(), Fail> {
    let text = large(rt.alloc(), &[], LINE, LINES, &[REST])?;
    assert!(rt; text.len() == 22_369_624);
    Ok(())
}

#[test]
fn large_base64_is_decoded(rt: HostRuntime) -> Result<(), Fail> {
    let text = large(rt.alloc(), &[], LINE, LINES, &[REST])?;
    match STANDARD.decode(rt.alloc(), text.as_slice()) {
        Ok(bytes) => assert!(rt; bytes.len() == FILE),
        Err(_) => assert!(rt; false),
    }
    Ok(())
}

#[test]
fn large_cell_is_read(rt: HostRuntime) -> Result<(), Fail> {
    check_cell(&rt, rt.alloc(), LINE)
}

#[test]
fn large_cell_in_lines_is_read(rt: HostRuntime) -> Result<(), Fail> {
    check_cell(&rt, rt.alloc(), ENDED_LINE)
}
