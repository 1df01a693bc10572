// Bytes that are the body of no change.
use crate::test_reading::is_refused;
use compact_values::NoMemory;
use std::alloc::Global;
use std::test::Fail;
use test_forms::bytes_of;

/// Each with what is wrong in it.
const REFUSED: [(&str, &str); 36] = [
    ("", "nothing"),
    ("00 U", "kind 0"),
    ("06 U", "kind 6"),
    ("FF U", "kind 255"),
    (
        "02 0E 00 13 61 6E 6F 6E 79 6D 6F 75 73 A2 0F",
        "a wider moment",
    ),
    (
        "02 01 13 61 6E 6F 6E 79 6D 6F 75 73 A2 0F",
        "a wider moment 0",
    ),
    (
        "02 0F 26 00 61 6E 6F 6E 79 6D 6F 75 73 A2 0F",
        "a wider length of the user",
    ),
    ("02 U 44 1F 00", "a wider count"),
    ("02 U A2 0F 00", "a byte too many"),
    ("02 0F 03 FF A2 0F", "a user that isn't UTF-8"),
    ("02 0F 07 ED A0 80 A2 0F", "a user with half of a pair"),
    (
        "02 20 00 00 00 00 40 13 61 6E 6F 6E 79 6D 6F 75 73 A2 0F",
        "the moment 2^40",
    ),
    ("03 U 00 G", "step 0 of a lock"),
    ("03 U 09 G", "step 9 of a lock"),
    ("03 U 01 G 77", "59 seconds"),
    ("03 U 01 G 0C 8C 0A", "86,401 seconds"),
    ("03 U 05 S C 79 02", "a flag 2"),
    ("03 U 04 G S C 79", "no flag"),
    ("04 U 00 C", "step 0 of the table of editors"),
    ("04 U 06 C", "step 6 of the table of editors"),
    ("04 U 01 C 77", "59 seconds of an editor"),
    ("04 U 05 C 03 80", "a key that isn't UTF-8"),
    ("05 U 0F 02 G", "a carried id behind 2"),
    ("05 U 0F 00 G", "a carried id behind 0"),
    ("05 U 0F 01", "no carried id behind 1"),
    ("01 U 0C G 00 08 00 00", "bit 3 of a put"),
    ("01 U 0C G 00 10 00 00", "bit 4 of a put"),
    ("01 U 0C G 00 20 00 00", "bit 5 of a put"),
    ("01 U 0C G 00 40 00 00", "bit 6 of a put"),
    ("01 U 0C G 00 00 00 03", "an element too few"),
    (
        "01 U 0C G 00 00 00 00 0C 06 00 00 03 05",
        "an element too many",
    ),
    (
        "01 U 0C G 00 00 00 03 0C 36 00 80 G 07 00 00 00 00 00 00 00 03 05",
        "an element with a serial number",
    ),
    (
        "01 U 0C G 00 00 00 03 0E 00 06 00 00 00 03 05",
        "a wider start of an element",
    ),
    (
        "01 U 0C G 00 00 00 03 0C 06 00 00 03 50 02 00 05",
        "an element with an object that has no place",
    ),
    (
        "01 U 0C G 00 00 00 03 0C 06 00 00 0D 05",
        "an element of another kind",
    ),
    (
        "01 U 0C G 00 00 00 03 AC 02 00 0C 06 00 00 03 05 55",
        "a package",
    ),
];

fn is_form_refused(alloc: Global, form: &str) -> Result<bool, NoMemory> {
    let bytes = bytes_of(alloc, &[form])?;
    Ok(is_refused(alloc, bytes.as_slice()))
}

#[test]
fn bytes_that_are_no_body(rt: HostRuntime) -> Result<(), Fail> {
    for (form, what) in &REFUSED {
        assert!(rt; is_form_refused(rt.alloc(), form)?, "{what}");
    }
    Ok(())
}
