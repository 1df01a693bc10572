// The editors of a document.
use crate::test_envelopes::{Asked, Sub, Told, play};
use std::test::Fail;

const JOIN: Asked = Asked::Data(
    "EditorsTableRequestType='JoinEditingSession' ClientID='~30' Timeout='3600'",
);

const ANOTHER_JOINS: Asked = Asked::Data(
    "EditorsTableRequestType='JoinEditingSession' ClientID='~31' Timeout='3600'",
);

const A_STRANGER_LEAVES: Asked = Asked::Data(
    "EditorsTableRequestType='LeaveEditingSession' ClientID='~32'",
);

const ALONE: Told = Told::Data("<SubResponseData AmIAlone='True'/>");

const NOT_ALONE: Told = Told::Data("<SubResponseData AmIAlone='False'/>");

const TOO_LONG: &str = "EditorMetadataStringExceedsLengthLimit";

const TOO_MANY: &str = "EditorMetadataQuotaReached";

const UNKNOWN: &str = "EditorClientIdNotFound";

/// Two editors, of whom the first has eight keys.
const EDITORS: [Sub; 15] = [
    ("1", "EditorsTable", "", JOIN, "Success", Told::Nothing),
    ("2", "AmIAlone", "", Asked::Nothing, "Success", ALONE),
    (
        "3",
        "EditorsTable",
        "",
        ANOTHER_JOINS,
        "Success",
        Told::Nothing,
    ),
    ("4", "AmIAlone", "", Asked::Nothing, "Success", NOT_ALONE),
    (
        "5",
        "EditorsTable",
        "",
        Asked::Key("*"),
        TOO_LONG,
        Told::Nothing,
    ),
    (
        "6",
        "EditorsTable",
        "",
        Asked::Key("1"),
        "Success",
        Told::Nothing,
    ),
    (
        "7",
        "EditorsTable",
        "",
        Asked::Key("2"),
        "Success",
        Told::Nothing,
    ),
    (
        "8",
        "EditorsTable",
        "",
        Asked::Key("3"),
        "Success",
        Told::Nothing,
    ),
    (
        "9",
        "EditorsTable",
        "",
        Asked::Key("4"),
        "Success",
        Told::Nothing,
    ),
    (
        "10",
        "EditorsTable",
        "",
        Asked::Key("5"),
        "Success",
        Told::Nothing,
    ),
    (
        "11",
        "EditorsTable",
        "",
        Asked::Key("6"),
        "Success",
        Told::Nothing,
    ),
    (
        "12",
        "EditorsTable",
        "",
        Asked::Key("7"),
        "Success",
        Told::Nothing,
    ),
    (
        "13",
        "EditorsTable",
        "",
        Asked::Key("8"),
        "Success",
        Told::Nothing,
    ),
    (
        "14",
        "EditorsTable",
        "",
        Asked::Key("9"),
        TOO_MANY,
        Told::Nothing,
    ),
    (
        "15",
        "EditorsTable",
        "",
        A_STRANGER_LEAVES,
        UNKNOWN,
        Told::Nothing,
    ),
];

#[test]
fn editors_have_few_and_short_keys(rt: HostRuntime) -> Result<(), Fail> {
    play(&rt, rt.alloc(), EDITORS.as_slice())
}
