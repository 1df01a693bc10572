// What is refused whole, in which order, and which texts are base64.
use crate::test_envelopes::{BACK, FRONT, Wanted, add_sub, asks};
use compact_values::{NoMemory, Octets};
use envelope_read::{EnvelopeFault, read_envelope};
use std::alloc::Global;

/// An envelope of subrequests with these Types, words and texts, and so many more that ask nothing.
fn many(alloc: Global, subs: &[(&str, &str, &str)], count: usize) -> Result<Octets, NoMemory> {
    let mut text = Octets::new(alloc);
    text.extend_from_slice(FRONT.as_bytes())?;
    for (kind, word, data) in subs {
        add_sub(&mut text, (*kind, *word, &[], *data))?;
    }
    for _ in 0..count {
        text.extend_from_slice(b"<SubRequest/>".as_slice())?;
    }
    text.extend_from_slice(BACK.as_bytes())?;
    Ok(text)
}

const GOOD: (&str, &str, &str) = ("Cell", "", "DAAL");

const BAD: (&str, &str, &str) = ("Cell", "", "DAA*");

#[test]
fn refusals_in_their_order(rt: HostRuntime) -> Result<(), NoMemory> {
    let alloc = rt.alloc();
    for (subs, count, refusal) in [
        ([].as_slice(), 0, None),
        ([].as_slice(), 64, None),
        ([].as_slice(), 65, Some(EnvelopeFault::TooMany)),
        ([GOOD].as_slice(), 63, None),
        (
            [("<x>", "", "")].as_slice(),
            65,
            Some(EnvelopeFault::NotInGrammar { place: 0 }),
        ),
        (
            [GOOD, GOOD, BAD].as_slice(),
            61,
            Some(EnvelopeFault::BadBase64 { sub: 2 }),
        ),
        (
            [GOOD, BAD, BAD].as_slice(),
            0,
            Some(EnvelopeFault::BadBase64 { sub: 1 }),
        ),
        ([BAD].as_slice(), 64, Some(EnvelopeFault::TooMany)),
        (
            [GOOD, ("EditorsTable", "UpdateEditorMetadata", "=")].as_slice(),
            0,
            Some(EnvelopeFault::BadBase64 { sub: 1 }),
        ),
        (
            [
                ("EditorsTable", "JoinEditingSession", "="),
                ("WhoAmI", "", "="),
            ]
            .as_slice(),
            0,
            None,
        ),
    ] {
        let text = many(alloc, subs, count)?;
        assert!(rt; read_envelope(alloc, text.as_slice()).err() == refusal);
    }
    Ok(())
}

#[test]
fn subrequests_are_counted_over_all_requests(rt: HostRuntime) -> Result<(), NoMemory> {
    let alloc = rt.alloc();
    for (first, second, refusal) in [
        (32, 32, None),
        (64, 0, None),
        (32, 33, Some(EnvelopeFault::TooMany)),
        (0, 65, Some(EnvelopeFault::TooMany)),
    ] {
        let mut text = Octets::new(alloc);
        text.extend_from_slice(FRONT.as_bytes())?;
        for _ in 0..first {
            text.extend_from_slice(b"<SubRequest/>".as_slice())?;
        }
        text.extend_from_slice(b"</Request><Request>".as_slice())?;
        for _ in 0..second {
            text.extend_from_slice(b"<SubRequest/>".as_slice())?;
        }
        text.extend_from_slice(BACK.as_bytes())?;
        assert!(rt; read_envelope(alloc, text.as_slice()).err() == refusal);
    }
    Ok(())
}

#[test]
fn texts_that_are_base64(rt: HostRuntime) -> Result<(), EnvelopeFault> {
    for (text, bytes) in [
        ("", b"".as_slice()),
        (" \t\r\n", b"".as_slice()),
        ("DA==", b"\x0C".as_slice()),
        ("DAA=", b"\x0C\x00".as_slice()),
        ("DAAL", b"\x0C\x00\x0B".as_slice()),
        ("+/+/", b"\xFB\xFF\xBF".as_slice()),
        (" DA\r\nA\tL\n", b"\x0C\x00\x0B".as_slice()),
        ("DA\r\nA =", b"\x0C\x00".as_slice()),
        (
            "D<i>no</i>A<i/>&#65;<i a='b'><i>=</i></i>L",
            b"\x0C\x00\x0B".as_slice(),
        ),
        ("D&#10;AAL&#x20;", b"\x0C\x00\x0B".as_slice()),
    ] {
        let sub = ("Cell", "", [].as_slice(), text);
        assert!(rt; asks(rt.alloc(), sub, Wanted::Cell(bytes, true, None))?);
    }
    Ok(())
}

#[test]
fn texts_that_are_no_base64(rt: HostRuntime) -> Result<(), NoMemory> {
    let alloc = rt.alloc();
    for text in [
        "D",
        "DA",
        "DAA",
        "DA=",
        "DAALDA",
        "DB==",
        "=",
        "DAAL====",
        "DA==DA==",
        "DAA-",
        "-_-_",
        "DA\u{A0}AL",
        "DAAL\u{B}",
    ] {
        let text = many(alloc, &[("Cell", "", text)], 0)?;
        let refusal = Some(EnvelopeFault::BadBase64 { sub: 0 });
        assert!(rt; read_envelope(alloc, text.as_slice()).err() == refusal);
    }
    Ok(())
}
