// Connections through the program: what is written, and how the run ends.
use crate::host::host_once;
use crate::test_streams::{Drops, Pieces};
use host_edge::{ListClock, MemSink, MemSource, Sink, Source};
use std::alloc::Global;
use std::process::Abort;
use std::test::Fail;

/// What the document has seen of changes is asked for, and the connection closes.
const FRONT: &str = "GET /_front/a.docx HTTP/1.1\r\nConnection: close\r\n\r\n";

const FRONT_0: &str =
    "HTTP/1.1 200 OK\r\nContent-Type: text/plain\r\nContent-Length: 1\r\nConnection: close\r\n\r\n0";

/// Another document is asked for.
const OTHER: &str = "GET /_front/b.docx HTTP/1.1\r\n\r\n";

const NOT_FOUND: &str = "HTTP/1.1 404 Not Found\r\nContent-Length: 0\r\nConnection: close\r\n\r\n";

/// An envelope: a user's name, a draw of numbers and a type that isn't served.
const ENVELOPE: &str =
    "POST /_vti_bin/cellstorage.svc/CellStorageService HTTP/1.1\r\nContent-Type: text/xml\r\nX-Cell-User: ann\r\nContent-Length: 485\r\n\r\n<s:Envelope xmlns:s=\"http://schemas.xmlsoap.org/soap/envelope/\"><s:Body><RequestCollection xmlns=\"http://schemas.microsoft.com/sharepoint/soap/\"><Request Url=\"http://h/a.docx\" RequestToken=\"1\"><SubRequest Type=\"WhoAmI\" SubRequestToken=\"1\"/><SubRequest Type=\"Cell\" SubRequestToken=\"2\"><SubRequestData>DAALAJzPKfM5lAabBgIAABYCBgADFwACBAYAog8ACwGsAgBVAwE=</SubRequestData></SubRequest><SubRequest Type=\"ServerTime\" SubRequestToken=\"3\"/></Request></RequestCollection></s:Body></s:Envelope>";

const ANSWER: &str =
    "HTTP/1.1 200 OK\r\nContent-Type: text/xml; charset=utf-8\r\nContent-Length: 820\r\n\r\n<?xml version=\"1.0\" encoding=\"utf-8\"?><s:Envelope xmlns:s=\"http://schemas.xmlsoap.org/soap/envelope/\"><s:Body><ResponseVersion Version=\"2\" MinorVersion=\"2\" xmlns=\"http://schemas.microsoft.com/sharepoint/soap/\"/><ResponseCollection WebUrl=\"/\" xmlns=\"http://schemas.microsoft.com/sharepoint/soap/\"><Response Url=\"http://h/a.docx\" RequestToken=\"1\" HealthScore=\"0\"><SubResponse SubRequestToken=\"1\" ErrorCode=\"Success\" HResult=\"0\"><SubResponseData UserName=\"ann\" UserLogin=\"ann\"/></SubResponse><SubResponse SubRequestToken=\"2\" ErrorCode=\"Success\" HResult=\"0\"><SubResponseData>DAALAJ3PKfM5lAabFgMCAACsAgBVDgIGAAMXAAoEJgAzIhEAVUR3ZoiZqrvM3e7/A6IPBwGLAQ==</SubResponseData></SubResponse><SubResponse SubRequestToken=\"3\" ErrorCode=\"RequestNotSupported\" HResult=\"2147500037\"/></Response></ResponseCollection></s:Body></s:Envelope>";

const REFUSED: &[u8] = b"cellhost: input refused\n";

/// A source of these bytes, of which the first come in one read and the others so many at a time.
fn pieces(alloc: Global, bytes: &[u8], first: usize, size: usize) -> Result<Pieces, Fail> {
    let source = MemSource::new(alloc, bytes, &[])?;
    Ok(Pieces {
        source,
        first,
        size,
    })
}

/// Runs `replay`, which must end with this status and its line.
fn ends<S: Source, K: Sink>(
    rt: &impl Abort,
    alloc: Global,
    source: &mut S,
    out: &mut K,
    status: u8,
    line: &[u8],
) -> Result<(), Fail> {
    let mut err = MemSink::new(alloc, 64, &[])?;
    let mut clock = ListClock::new(alloc, &[7])?;
    let ended = host_once(alloc, &["replay"], source, out, &mut err, &mut clock);
    assert_eq!(rt; ended, status);
    assert_eq!(rt; err.bytes(), line);
    Ok(())
}

/// The connection, cut behind its first bytes, is answered so.
fn answers(
    rt: &impl Abort,
    alloc: Global,
    asked: &[u8],
    first: usize,
    written: &[u8],
    status: u8,
    line: &[u8],
) -> Result<(), Fail> {
    let mut source = pieces(alloc, asked, first, 4096)?;
    let mut out = MemSink::new(alloc, 4096, &[])?;
    ends(rt, alloc, &mut source, &mut out, status, line)?;
    assert_eq!(rt; out.bytes(), written);
    Ok(())
}

#[test]
fn a_front_is_written(rt: HostRuntime) -> Result<(), Fail> {
    let asked = FRONT.as_bytes();
    answers(&rt, rt.alloc(), asked, 4096, FRONT_0.as_bytes(), 0, b"")
}

#[test]
fn another_document_is_refused(rt: HostRuntime) -> Result<(), Fail> {
    let asked = OTHER.as_bytes();
    answers(
        &rt,
        rt.alloc(),
        asked,
        4096,
        NOT_FOUND.as_bytes(),
        6,
        REFUSED,
    )
}

#[test]
fn a_head_that_is_cut_off_is_refused(rt: HostRuntime) -> Result<(), Fail> {
    for end in 1..FRONT.len() {
        answers(
            &rt,
            rt.alloc(),
            &FRONT.as_bytes()[..end],
            4096,
            b"",
            6,
            REFUSED,
        )?;
    }
    Ok(())
}

#[test]
fn nothing_is_answered_to_nothing(rt: HostRuntime) -> Result<(), Fail> {
    answers(&rt, rt.alloc(), b"", 4096, b"", 0, b"")
}

#[test]
fn an_envelope_is_answered_wherever_it_is_cut(rt: HostRuntime) -> Result<(), Fail> {
    let alloc = rt.alloc();
    let asked = ENVELOPE.as_bytes();
    for first in 1..asked.len() {
        answers(&rt, alloc, asked, first, ANSWER.as_bytes(), 0, b"")?;
    }
    Ok(())
}

#[test]
fn an_envelope_comes_byte_by_byte_and_its_answer_goes_so(rt: HostRuntime) -> Result<(), Fail> {
    let alloc = rt.alloc();
    let mut source = pieces(alloc, ENVELOPE.as_bytes(), 1, 1)?;
    let mut out = Drops {
        sink: MemSink::new(alloc, 4096, &[])?,
    };
    ends(&rt, alloc, &mut source, &mut out, 0, b"")?;
    assert_eq!(rt; out.sink.bytes(), ANSWER.as_bytes());
    Ok(())
}

#[test]
fn a_source_may_fail_at_each_read(rt: HostRuntime) -> Result<(), Fail> {
    let alloc = rt.alloc();
    let asked = FRONT.as_bytes();
    for call in 0..asked.len() {
        let mut source = Pieces {
            source: MemSource::new(alloc, asked, &[call as u64])?,
            first: 1,
            size: 1,
        };
        let mut out = MemSink::new(alloc, 4096, &[])?;
        ends(&rt, alloc, &mut source, &mut out, 3, b"cellhost: read\n")?;
        assert_eq!(rt; out.bytes(), b"".as_slice());
    }
    Ok(())
}

#[test]
fn a_sink_may_fail_at_each_write(rt: HostRuntime) -> Result<(), Fail> {
    let alloc = rt.alloc();
    for call in 0..ANSWER.len() {
        let mut source = MemSource::new(alloc, ENVELOPE.as_bytes(), &[])?;
        let mut out = Drops {
            sink: MemSink::new(alloc, 4096, &[call as u64])?,
        };
        ends(&rt, alloc, &mut source, &mut out, 4, b"cellhost: write\n")?;
        // what was written before is a front of the answer
        assert_eq!(rt; out.sink.bytes(), &ANSWER.as_bytes()[..call]);
    }
    Ok(())
}
