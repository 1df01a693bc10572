// Each refusal: its status, its text and its end. What comes behind it is not served.
use crate::test_driver::serve_cut;
use crate::test_texts::joined;
use session_loop::SessionEnd;
use std::alloc::Global;
use std::process::Abort;
use std::test::Fail;

/// A request, and the status that refuses it with its text.
type Row<'a> = (&'a str, u16, &'a str);

const POST: &str = "POST /_vti_bin/cellstorage.svc/CellStorageService HTTP/1.1\r\n";

const BEHIND: &str = "GET /_front/a.docx HTTP/1.1\r\n\r\n";

fn check(rt: &impl Abort, alloc: Global, front: &str, rows: &[Row]) -> Result<(), Fail> {
    for (asked, status, text) in rows {
        let all = joined(alloc, &[front, asked, BEHIND])?;
        let refusal = joined(
            alloc,
            &[
                "HTTP/1.1 ",
                text,
                "\r\nContent-Length: 0\r\nConnection: close\r\n\r\n",
            ],
        )?;
        let ran = serve_cut(rt, alloc, all.as_slice())?;
        assert_eq!(rt; ran.end, SessionEnd::Refused { status: *status }, "{asked}");
        assert!(rt; ran.written == refusal, "{asked}");
        assert_eq!(rt; ran.calls, 0, "{asked}");
    }
    Ok(())
}

#[test]
fn heads_are_refused(rt: HostRuntime) -> Result<(), Fail> {
    check(
        &rt,
        rt.alloc(),
        "",
        &[
            ("GET /_front/a.docx\r\n\r\n", 400, "400 Bad Request"),
            ("GET /_front/b.docx HTTP/1.1\r\n\r\n", 404, "404 Not Found"),
            (
                "POST /_front/a.docx HTTP/1.1\r\n\r\n",
                405,
                "405 Method Not Allowed",
            ),
            (
                "GET /_front/a.docx HTTP/1.1\r\nX-Cell-User: \r\n\r\n",
                400,
                "400 Bad Request",
            ),
        ],
    )
}

#[test]
fn posts_are_refused(rt: HostRuntime) -> Result<(), Fail> {
    check(
        &rt,
        rt.alloc(),
        POST,
        &[
            ("\r\n", 411, "411 Length Required"),
            (
                "Content-Length: 25165825\r\n\r\n",
                413,
                "413 Content Too Large",
            ),
            (
                "Content-Length: 4\r\nContent-Type: text/plain\r\n\r\n<a/>",
                415,
                "415 Unsupported Media Type",
            ),
            (
                "Transfer-Encoding: chunked\r\n\r\nx\r\n",
                400,
                "400 Bad Request",
            ),
            (
                "Transfer-Encoding: chunked\r\n\r\n1800001\r\n",
                413,
                "413 Content Too Large",
            ),
            ("Content-Length: 4\r\n\r\n<a/>", 400, "400 Bad Request"),
        ],
    )
}

#[test]
fn a_head_that_is_too_long_is_refused(rt: HostRuntime) -> Result<(), Fail> {
    let alloc = rt.alloc();
    let mut asked = joined(alloc, &["GET /_front/a.docx HTTP/1.1\r\nX: "])?;
    for _ in 0..16_384 {
        asked.push(b'x')?;
    }
    let ran = crate::test_driver::serve_whole(alloc, asked.as_slice())?;
    assert_eq!(rt; ran.end, SessionEnd::Refused { status: 431 });
    assert_eq!(rt; ran.moments, 0);
    Ok(())
}
