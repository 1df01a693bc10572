// Which bytes are answered which.
use crate::tests::answers;
use std::alloc::Global;
use std::process::Abort;
use std::test::Fail;
use test_forms::bytes_of;

/// The request of these objects is answered by the response of these.
fn row(rt: &impl Abort, alloc: Global, request: &[&str], response: &[&str]) -> Result<(), Fail> {
    let input = bytes_of(alloc, request)?;
    let output = bytes_of(alloc, response)?;
    answers(rt, alloc, input.as_slice(), output.as_slice())
}

// A draw of id 1: it asks for 1,000 numbers, or for none; and one of id 2, which asks for 5.
const THOUSAND: &str = "16 02 06 00 03 17 00  02 04 06 00 A2 0F 00  0B 01";

const NONE: &str = "16 02 06 00 03 17 00  02 04 04 00 00 00  0B 01";

const FIVE: &str = "16 02 06 00 05 17 00  02 04 04 00 0B 00  0B 01";

// The grant of 1 to 1,000, and the refusal of a draw as not supported.
const GRANTED: &str = "0E 02 06 00 03 17 00  0A 04 26 00 G 03 A2 0F  07 01";

const REFUSED: &str = "0E 02 06 00 03 17 01  6E 02 20 00 E  32 03 08 00 04 00 00 00  37 01  07 01";

// The end of a response.
const END: &str = "8B 01";

#[test]
fn numbers_are_drawn(rt: HostRuntime) -> Result<(), Fail> {
    let rows: [(&[&str], &[&str]); 7] = [
        (&["Q", NONE, "P"], &["R", REFUSED, END]),
        // 100,001 numbers are too many, and 100,000 the most
        (
            &[
                "Q",
                "16 02 06 00 03 17 00  02 04 08 00 0C 35 0C 00  0B 01",
                "P",
            ],
            &["R", REFUSED, END],
        ),
        (
            &[
                "Q",
                "16 02 06 00 03 17 00  02 04 08 00 04 35 0C 00  0B 01",
                "P",
            ],
            &[
                "R",
                "0E 02 06 00 03 17 00  0A 04 28 00 G 03 04 35 0C  07 01",
                END,
            ],
        ),
        // a second draw begins where the first ended
        (
            &["Q", THOUSAND, FIVE, "P"],
            &[
                "R",
                GRANTED,
                "0E 02 06 00 05 17 00  0A 04 28 00 G A6 0F B6 0F  07 01",
                END,
            ],
        ),
        // a refused draw takes nothing
        (
            &["Q", NONE, FIVE, "P"],
            &[
                "R",
                REFUSED,
                "0E 02 06 00 05 17 00  0A 04 24 00 G 03 0B  07 01",
                END,
            ],
        ),
        // a large length, an end in 16 bits and a start in 32 bits
        (
            &[
                "Q",
                "16 02 06 00 03 17 00  02 04 FE FF 07 A2 0F 00  0B 01",
                "AE 00 02 00 00  57 00  03 01",
            ],
            &["R", GRANTED, END],
        ),
        // id 300, priority 7 and further bytes in the 42, a 5D with children, a further byte in the 80
        (
            &[
                "Q",
                "16 02 0C 00 B2 04 17 0F AA BB",
                "EE 02 02 00 77  B0 00  84 00 41  77 01",
                "02 04 08 00 A2 0F 00 CC  0B 01",
                "P",
            ],
            &[
                "R",
                "0E 02 08 00 B2 04 17 00  0A 04 26 00 G 03 A2 0F  07 01",
                END,
            ],
        ),
    ];
    for (request, response) in rows {
        row(&rt, rt.alloc(), request, response)?;
    }
    Ok(())
}

#[test]
fn other_kinds_are_answered(rt: HostRuntime) -> Result<(), Fail> {
    let rows: [(&[&str], &[&str]); 3] = [
        // a download of nothing: a null index, and no knowledge
        (
            &["Q", "16 02 06 00 03 05 00  8A 02 02 00 00  0B 01", "P"],
            &[
                "R",
                "0E 02 06 00 03 05 00  FA 02 04 00 00 00",
                "84 00  26 02 20 00 K  A4 00  51  13 01  41  07 01",
                END,
            ],
        ),
        // the client may read and write
        (
            &["Q", "16 02 06 00 03 03 00  0B 01", "P"],
            &[
                "R",
                "0E 02 06 00 03 03 00",
                "1E 02 00 00  6E 02 20 00 H  92 02 08 00 00 00 00 00  37 01  0F 01",
                "36 02 00 00  6E 02 20 00 H  92 02 08 00 00 00 00 00  37 01  1B 01",
                "07 01",
                END,
            ],
        ),
        // a kind that isn't served
        (
            &["Q", "16 02 06 00 03 0D 00  0B 01", "P"],
            &[
                "R",
                "0E 02 06 00 03 0D 01  6E 02 20 00 E  32 03 08 00 04 00 00 00  37 01  07 01",
                END,
            ],
        ),
    ];
    for (request, response) in rows {
        row(&rt, rt.alloc(), request, response)?;
    }
    Ok(())
}

// What a put of a null index without elements is answered, which expects the number 0 of the GUID 0: coherency, something
// that isn't there, and that it is kept.
const INCOHERENT: &str =
    "0E 02 06 00 03 0B 01  6E 02 20 00 E  32 03 08 00 0C 00 00 00  37 01  07 01";

const NOT_FOUND: &str =
    "0E 02 06 00 03 0B 01  6E 02 20 00 E  32 03 08 00 10 00 00 00  37 01  07 01";

const KEPT: &str = "0E 02 06 00 03 0B 00  84 00  26 02 20 00 K  A4 00  51  13 01  41  07 01";

#[test]
fn a_put_goes_by_its_flags(rt: HostRuntime) -> Result<(), Fail> {
    let put =
        "16 02 06 00 03 0B 00  D2 02 26 00 00 04 00 00 00 00 00 00 00 00 00 00 00 00 00 00 00 00";
    let rows = [
        // by itself, with all flags that are ignored, and as the last part
        ("00", INCOHERENT),
        ("78", INCOHERENT),
        ("06", INCOHERENT),
        // the expected index is implied null, or doesn't matter
        ("01", NOT_FOUND),
        ("80", NOT_FOUND),
        // a part is kept
        ("02", KEPT),
    ];
    for (flags, answer) in rows {
        row(
            &rt,
            rt.alloc(),
            &["Q", put, flags, "0B 01", "P"],
            &["R", answer, END],
        )?;
    }
    Ok(())
}
