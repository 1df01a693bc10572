// How connections go on and how they end.
use crate::test_driver::{serve_cut, serve_whole};
use crate::test_texts::{CLOSING_FRONT_0, FRONT_0, joined};
use session_loop::SessionEnd;
use std::alloc::Global;
use std::process::Abort;
use std::test::Fail;

/// A connection, how it ends, and what is written.
type Row<'a> = (&'a str, SessionEnd, &'a str);

const ASK: &str = "GET /_front/a.docx HTTP/1.1\r\n\r\n";

fn check(rt: &impl Abort, alloc: Global, rows: &[Row]) -> Result<(), Fail> {
    for (asked, end, written) in rows {
        let ran = serve_cut(rt, alloc, asked.as_bytes())?;
        assert_eq!(rt; ran.end, *end, "{asked}");
        assert_eq!(rt; ran.written.as_slice(), written.as_bytes(), "{asked}");
    }
    Ok(())
}

#[test]
fn a_connection_ends_between_requests_or_inside_one(rt: HostRuntime) -> Result<(), Fail> {
    check(
        &rt,
        rt.alloc(),
        &[
            ("", SessionEnd::Ended, ""),
            ("\r\n\n\r\n", SessionEnd::Ended, ""),
            ("G", SessionEnd::CutOff, ""),
            ("GET /_front/a.docx HTTP/1.1\r\n", SessionEnd::CutOff, ""),
            (ASK, SessionEnd::Ended, FRONT_0),
            (
                "GET /_front/a.docx HTTP/1.1\n\n\r\n\nGET",
                SessionEnd::CutOff,
                FRONT_0,
            ),
            (
                "POST /_vti_bin/cellstorage.svc/CellStorageService HTTP/1.1\r\nContent-Length: 5\r\n\r\n<a/>",
                SessionEnd::CutOff,
                "",
            ),
            (
                "POST /_vti_bin/cellstorage.svc/CellStorageService HTTP/1.1\r\nTransfer-Encoding: chunked\r\n\r\n3\r\nabc\r\n0\r\n\r",
                SessionEnd::CutOff,
                "",
            ),
        ],
    )
}

#[test]
fn a_connection_closes_where_it_is_asked_to(rt: HostRuntime) -> Result<(), Fail> {
    check(
        &rt,
        rt.alloc(),
        &[
            (
                "GET /_front/a.docx HTTP/1.1\r\nConnection: close\r\n\r\n",
                SessionEnd::Ended,
                CLOSING_FRONT_0,
            ),
            (
                "GET /_front/a.docx HTTP/1.0\r\n\r\nGET /_front/a.docx HTTP/1.1\r\n\r\n",
                SessionEnd::Ended,
                CLOSING_FRONT_0,
            ),
            (
                "GET /_file/a.docx HTTP/1.1\r\nConnection: CLOSE\r\n\r\nG",
                SessionEnd::Ended,
                "HTTP/1.1 200 OK\r\nContent-Type: application/octet-stream\r\nContent-Length: 0\r\nConnection: close\r\n\r\n",
            ),
        ],
    )
}

#[test]
fn requests_come_one_behind_the_other(rt: HostRuntime) -> Result<(), Fail> {
    let alloc = rt.alloc();
    let asked = joined(alloc, &[ASK, "\r\n", ASK, ASK])?;
    let written = joined(alloc, &[FRONT_0, FRONT_0, FRONT_0])?;
    let ran = serve_cut(&rt, alloc, asked.as_slice())?;
    assert_eq!(rt; ran.end, SessionEnd::Ended);
    assert!(rt; ran.written == written);
    assert_eq!(rt; ran.moments, 3);
    assert_eq!(rt; ran.calls, 0);
    Ok(())
}

#[test]
fn the_answer_to_the_last_request_closes(rt: HostRuntime) -> Result<(), Fail> {
    let alloc = rt.alloc();
    let mut asked = joined(alloc, &[])?;
    let mut written = joined(alloc, &[])?;
    for _ in 0..9_999 {
        asked.extend_from_slice(ASK.as_bytes())?;
        written.extend_from_slice(FRONT_0.as_bytes())?;
    }
    asked.extend_from_slice(ASK.as_bytes())?;
    asked.extend_from_slice(ASK.as_bytes())?;
    written.extend_from_slice(CLOSING_FRONT_0.as_bytes())?;
    let ran = serve_whole(alloc, asked.as_slice())?;
    assert_eq!(rt; ran.end, SessionEnd::Ended);
    assert!(rt; ran.written == written);
    assert_eq!(rt; ran.moments, 10_000);
    Ok(())
}
