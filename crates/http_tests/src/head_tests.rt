// Heads, bodies and answers as they come over the wire, and what no clause can say: that memory which is there is had.
use compact_values::{Names, NoMemory, Octets, Text};
use http_head::*;
use std::alloc::Global;
use std::test::Fail;

fn names_of(alloc: Global, name: &str) -> Result<Names, NoMemory> {
    let mut names = Names::new(alloc);
    names.push(Text::from_str(alloc, name)?)?;
    Ok(names)
}

fn status_of(head: &str, names: &Names) -> u16 {
    match read_head(head.as_bytes(), names) {
        Ok(_) => 200,
        Err(status) => status,
    }
}

#[test]
fn a_head_ends_behind_its_empty_line(rt: HostRuntime) {
    let head = b"GET /_front/a.docx HTTP/1.1\r\nConnection: close\r\n\r\n";
    for cut in 0..head.len() {
        assert_eq!(rt; head_end(&head[..cut]), HeadEnd::More, "cut at {cut}");
    }
    assert_eq!(rt; head_end(head), HeadEnd::At { end: 50 });
    assert_eq!(rt;
        head_end(b"\r\n\nGET / HTTP/1.1\n\nGET"),
        HeadEnd::At { end: 19 }
    );
}

#[test]
fn a_head_has_at_most_16384_bytes(rt: HostRuntime) {
    let mut bytes = [b'a'; 16_385];
    assert_eq!(rt; head_end(&bytes[..16_383]), HeadEnd::More);
    assert_eq!(rt; head_end(&bytes[..16_384]), HeadEnd::TooLong);
    bytes[16_383] = b'\n';
    bytes[16_384] = b'\n';
    assert_eq!(rt; head_end(&bytes), HeadEnd::TooLong);
    bytes[16_382] = b'\n';
    assert_eq!(rt; head_end(&bytes), HeadEnd::At { end: 16_384 });
}

#[test]
fn a_front_is_asked_for(rt: HostRuntime) -> Result<(), Fail> {
    let names = names_of(rt.alloc(), "a.docx")?;
    let head = b"GET /_front/a.docx HTTP/1.1\r\nConnection: close\r\nX-Cell-User: ann\r\n\r\n";
    match read_head(head, &names) {
        Ok(found) => {
            assert_eq!(rt; found.route, Route::Front { doc: 0 });
            assert_eq!(rt; found.framing, Framing::Nothing);
            assert!(rt; found.close);
            assert_eq!(rt; &head[found.user.from..found.user.to], b"ann".as_slice());
        }
        Err(status) => assert_eq!(rt; status, 200),
    }
    Ok(())
}

#[test]
fn targets_lead_to_documents(rt: HostRuntime) -> Result<(), Fail> {
    let names = names_of(rt.alloc(), "a.docx")?;
    for (target, status) in [
        ("GET /_front/%61.docx?x", 200),
        ("GET /_file/a%2Edocx", 200),
        ("GET /_front/x/a.docx", 404),
        ("GET /_front/%6g.docx", 404),
        ("GET /_file/b.docx", 404),
        ("GET /_Front/a.docx", 404),
        ("GET /any/_vti_bin/cellstorage.svc/CellStorageService", 405),
        ("POST /_front/a.docx", 405),
    ] {
        let mut head = String::new(rt.alloc());
        head.push_str(target)?;
        head.push_str(" HTTP/1.1\r\n\r\n")?;
        assert_eq!(rt; status_of(head.as_str(), &names), status, "{target}");
    }
    Ok(())
}

#[test]
fn fields_are_judged_in_order(rt: HostRuntime) -> Result<(), Fail> {
    let names = names_of(rt.alloc(), "a.docx")?;
    for (fields, status) in [
        ("", 411),
        ("Content-Length: 0\r\n", 200),
        (
            "content-length: 25165824\r\nContent-Type: Text/XML; charset=utf-8\r\n",
            200,
        ),
        (
            "Content-Length: 25165825\r\nContent-Type: application/json\r\n",
            413,
        ),
        (
            "Content-Length: 5\r\nContent-Type: application/json\r\n",
            415,
        ),
        ("Content-Length: 5\r\nContent-Length: 5\r\n", 400),
        ("Content-Length: 1x\r\n", 400),
        ("Content-Length: 1111111111111111111\r\n", 400),
        ("Content-Length: 5\r\nTransfer-Encoding: chunked\r\n", 400),
        ("Transfer-Encoding: Chunked\r\n", 200),
        ("Transfer-Encoding: gzip\r\n", 400),
        ("Content-Length: 5\r\nX-Cell-User: a\tb\r\n", 400),
        ("Content-Length: 5\r\nX-Cell-User: \r\n", 400),
        (
            "Content-Length: 5\r\nX-Cell-User: ann\r\nX-Cell-User: ann\r\n",
            400,
        ),
        (
            "Content-Length: 5\r\nX-Cell-User: 0123456789012345678901234567890123456789012345678901234567890123\r\n",
            200,
        ),
        (
            "Content-Length: 5\r\nX-Cell-User: 01234567890123456789012345678901234567890123456789012345678901234\r\n",
            400,
        ),
        ("Content-Length : 5\r\n", 400),
        ("Content-Length: 5\r\n 6\r\n", 400),
        ("Content-Length: +5\r\n", 400),
        ("Content-Length: -5\r\n", 400),
        ("Content-Length: 5, 5\r\n", 400),
        ("Content-Length:\r\n", 400),
        ("Content-Length: 0005\r\n", 200),
        ("Content-Length: 0x5\r\n", 400),
        ("Content-Length: 5 5\r\n", 400),
        ("Content-Length: 5\t\r\n", 200),
        ("Content-Length: 5\r\r\n", 400),
        ("Content-Length: 5\rX: y\r\n", 400),
        ("Content-Length: 5\u{0}\r\n", 400),
        ("Content-Length: 5\n", 200),
        ("Content-Length: 999999999999999999\r\n", 413),
        ("Transfer-Encoding: chunked, chunked\r\n", 400),
        (
            "Transfer-Encoding: chunked\r\nTransfer-Encoding: chunked\r\n",
            400,
        ),
        ("Transfer-Encoding: identity\r\nContent-Length: 5\r\n", 400),
        ("Transfer-Encoding: \u{b}chunked\r\n", 400),
        ("Transfer-Encoding: chunked;q=1\r\n", 400),
        ("Transfer-Encoding:\r\nContent-Length: 5\r\n", 400),
        ("Transfer_Encoding: chunked\r\nContent-Length: 5\r\n", 200),
        (" Content-Length: 5\r\n", 400),
        (": 5\r\nContent-Length: 5\r\n", 400),
        ("Content-Length\r\nContent-Length: 5\r\n", 400),
        ("Content-Length: 5\r\nX-Cell-User: \u{e9}\r\n", 400),
        (
            "Content-Length: 5\r\nContent-Type: application/json\r\nContent-Type: text/xml\r\n",
            415,
        ),
    ] {
        let mut head = String::new(rt.alloc());
        head.push_str("POST /x/_vti_bin/cellstorage.svc/CellStorageService HTTP/1.1\r\n")?;
        head.push_str(fields)?;
        head.push_str("\r\n")?;
        assert_eq!(rt; status_of(head.as_str(), &names), status, "{fields}");
    }
    Ok(())
}

#[test]
fn heads_are_judged_whole(rt: HostRuntime) -> Result<(), Fail> {
    let names = names_of(rt.alloc(), "a.docx")?;
    for (head, status) in [
        (
            "GET /_front/a.docx HTTP/1.0\r\nTransfer-Encoding: chunked\r\n\r\n",
            400,
        ),
        (
            "POST /_vti_bin/cellstorage.svc/CellStorageService HTTP/1.0\r\nTransfer-Encoding: chunked\r\n\r\n",
            200,
        ),
        ("GET http://h/_front/a.docx HTTP/1.1\r\n\r\n", 404),
        ("GET /_front/a.docx HTTP/1.2\r\n\r\n", 400),
        ("GET  /_front/a.docx HTTP/1.1\r\n\r\n", 400),
        ("GET /_front/a.docx  HTTP/1.1\r\n\r\n", 400),
        ("GET /_front/a.docx\r\n\r\n", 400),
        ("GET\t/_front/a.docx HTTP/1.1\r\n\r\n", 400),
        ("get /_front/a.docx HTTP/1.1\r\n\r\n", 405),
        (
            "GET /_front/a.docx HTTP/1.1\r\nHost: a\r\nHost: b\r\n\r\n",
            200,
        ),
        ("GET /_front/%00.docx HTTP/1.1\r\n\r\n", 404),
        ("GET /_front/a.docx#x HTTP/1.1\r\n\r\n", 404),
        (
            "GET /_front/a.docx HTTP/1.1\r\nContent-Length: 000\r\n\r\n",
            200,
        ),
    ] {
        assert_eq!(rt; status_of(head, &names), status, "{head}");
    }
    Ok(())
}

#[test]
fn a_head_has_at_most_64_headers(rt: HostRuntime) -> Result<(), Fail> {
    let names = names_of(rt.alloc(), "a.docx")?;
    for (count, status) in [(64, 200), (65, 400)] {
        let mut head = String::new(rt.alloc());
        head.push_str("GET /_front/a.docx HTTP/1.1\r\n")?;
        for _ in 0..count {
            head.push_str("A: b\r\n")?;
        }
        head.push_str("\r\n")?;
        assert_eq!(rt; status_of(head.as_str(), &names), status);
    }
    Ok(())
}

#[test]
fn a_body_ends_at_its_length(rt: HostRuntime) -> Result<(), Fail> {
    let mut body = BodyReader::new(rt.alloc(), Framing::Length { bytes: 5 });
    assert_eq!(rt; body.feed(b"hel")?, Fed::More);
    assert_eq!(rt; body.feed(b"loGET")?, Fed::Done { used: 2 });
    assert_eq!(rt; body.body(), b"hello".as_slice());
    Ok(())
}

#[test]
fn chunks_make_a_body(rt: HostRuntime) -> Result<(), Fail> {
    let chunks = b"5;a=b\r\nhello\r\n1 \r\n!\r\n0\r\n\r\nGET";
    let mut whole = BodyReader::new(rt.alloc(), Framing::Chunks);
    assert_eq!(rt; whole.feed(chunks)?, Fed::Done { used: 26 });
    assert_eq!(rt; whole.body(), b"hello!".as_slice());
    let mut bytewise = BodyReader::new(rt.alloc(), Framing::Chunks);
    for byte in &chunks[..25] {
        assert_eq!(rt; bytewise.feed(&[*byte])?, Fed::More);
    }
    assert_eq!(rt; bytewise.feed(&chunks[25..])?, Fed::Done { used: 1 });
    assert_eq!(rt; bytewise.body(), b"hello!".as_slice());
    Ok(())
}

#[test]
fn chunks_out_of_form_are_refused(rt: HostRuntime) -> Result<(), Fail> {
    for (chunks, fed) in [
        ("1800000\r\n", Fed::More),
        ("1800001\r\n", Fed::Bad { status: 413 }),
        ("1\r\na\r\n1800000\r\n", Fed::Bad { status: 413 }),
        ("zz\r\n", Fed::Bad { status: 400 }),
        ("1\n", Fed::Bad { status: 400 }),
        ("1\r\nab", Fed::Bad { status: 400 }),
        ("1\r\na\r\r", Fed::Bad { status: 400 }),
        ("0\r\nA: b\r\n\r\n", Fed::Bad { status: 400 }),
        ("\r\n", Fed::Bad { status: 400 }),
        (";a\r\n", Fed::Bad { status: 400 }),
        (" 5\r\n", Fed::Bad { status: 400 }),
        ("+5\r\n", Fed::Bad { status: 400 }),
        ("-5\r\n", Fed::Bad { status: 400 }),
        ("0x5\r\n", Fed::Bad { status: 400 }),
        ("5 5\r\n", Fed::Bad { status: 400 }),
        ("5_0\r\n", Fed::Bad { status: 400 }),
        ("0000000000000005\r\n", Fed::More),
        ("00000000000000005\r\n", Fed::Bad { status: 400 }),
        ("ffffffffffffffff\r\n", Fed::Bad { status: 413 }),
        ("10000000000000000\r\n", Fed::Bad { status: 400 }),
        ("5;a\nb\r\n", Fed::Bad { status: 400 }),
        ("5;a\rb\r\n", Fed::Bad { status: 400 }),
        ("5;a\u{0}b\r\n", Fed::More),
        ("5\u{0}\r\n", Fed::Bad { status: 400 }),
        ("0\r\n\n", Fed::Bad { status: 400 }),
        ("1\r\na\n", Fed::Bad { status: 400 }),
    ] {
        let mut body = BodyReader::new(rt.alloc(), Framing::Chunks);
        assert_eq!(rt; body.feed(chunks.as_bytes())?, fed, "{chunks}");
    }
    let line = [b'1'; 256];
    let mut body = BodyReader::new(rt.alloc(), Framing::Chunks);
    assert_eq!(rt; body.feed(&line[..255])?, Fed::More);
    assert_eq!(rt; body.feed(&line[255..])?, Fed::Bad { status: 400 });
    Ok(())
}

#[test]
fn an_answer_is_written(rt: HostRuntime) -> Result<(), Fail> {
    let mut out = Octets::new(rt.alloc());
    write_answer(&mut out, 200, Media::Plain, b"0", true)?;
    assert_eq!(rt;
        out.as_slice(),
        b"HTTP/1.1 200 OK\r\nContent-Type: text/plain\r\nContent-Length: 1\r\nConnection: close\r\n\r\n0".as_slice()
    );
    out.truncate(0);
    write_answer(&mut out, 431, Media::Empty, b"", false)?;
    assert_eq!(rt;
        out.as_slice(),
        b"HTTP/1.1 431 Request Header Fields Too Large\r\nContent-Length: 0\r\n\r\n".as_slice()
    );
    Ok(())
}

// The three that follow are also the measure of docs/PERFORMANCE.md: as many bytes copied, fed as a body of a length,
// and fed in chunks.

#[test]
fn large_body_is_copied(rt: HostRuntime) -> Result<(), Fail> {
    let piece = [b'a'; 65_536];
    let mut bytes = Octets::new(rt.alloc());
    for _ in 0..384 {
        bytes.extend_from_slice(&piece)?;
    }
    assert_eq!(rt; bytes.len(), 25_165_824);
    Ok(())
}

#[test]
fn large_body_of_a_length_is_whole(rt: HostRuntime) -> Result<(), Fail> {
    let piece = [b'a'; 65_536];
    let mut body = BodyReader::new(rt.alloc(), Framing::Length { bytes: BODY_LIMIT });
    for _ in 0..383 {
        assert_eq!(rt; body.feed(&piece)?, Fed::More);
    }
    assert_eq!(rt; body.feed(&piece)?, Fed::Done { used: 65_536 });
    assert_eq!(rt; body.body().len(), 25_165_824);
    Ok(())
}

#[test]
fn large_body_in_chunks_is_whole(rt: HostRuntime) -> Result<(), Fail> {
    let mut piece = Octets::new(rt.alloc());
    for _ in 0..16 {
        piece.extend_from_slice(b"1000\r\n")?;
        piece.extend_from_slice(&[b'a'; 4096])?;
        piece.extend_from_slice(b"\r\n")?;
    }
    let mut body = BodyReader::new(rt.alloc(), Framing::Chunks);
    for _ in 0..384 {
        assert_eq!(rt; body.feed(piece.as_slice())?, Fed::More);
    }
    assert_eq!(rt; body.feed(b"0\r\n\r\n")?, Fed::Done { used: 5 });
    assert_eq!(rt; body.body().len(), 25_165_824);
    Ok(())
}
