// Envelopes over a connection.
use crate::test_driver::{Ran, serve_cut, serve_whole};
use crate::test_texts::{ASK_BACK, ASK_FRONT, BACK, FRONT, joined};
use compact_values::{NoMemory, Octets};
use session_loop::SessionEnd;
use std::alloc::Global;
use std::test::Fail;

/// A user's name, a draw of numbers and a type that isn't served.
const ASKED: &str =
    "<Request Url=\"http://h/a.docx\" RequestToken=\"1\"><SubRequest Type=\"WhoAmI\" SubRequestToken=\"1\"/><SubRequest Type=\"Cell\" SubRequestToken=\"2\"><SubRequestData>DAALAJzPKfM5lAabBgIAABYCBgADFwACBAYAog8ACwGsAgBVAwE=</SubRequestData></SubRequest><SubRequest Type=\"ServerTime\" SubRequestToken=\"3\"/></Request>";

const ANSWERED: &str =
    "<Response Url=\"http://h/a.docx\" RequestToken=\"1\" HealthScore=\"0\"><SubResponse SubRequestToken=\"1\" ErrorCode=\"Success\" HResult=\"0\"><SubResponseData UserName=\"ann\" UserLogin=\"ann\"/></SubResponse><SubResponse SubRequestToken=\"2\" ErrorCode=\"Success\" HResult=\"0\"><SubResponseData>DAALAJ3PKfM5lAabFgMCAACsAgBVDgIGAAMXAAoEJgAzIhEAVUR3ZoiZqrvM3e7/A6IPBwGLAQ==</SubResponseData></SubResponse><SubResponse SubRequestToken=\"3\" ErrorCode=\"RequestNotSupported\" HResult=\"2147500037\"/></Response>";

const POST: &str =
    "POST /_vti_bin/cellstorage.svc/CellStorageService HTTP/1.1\r\nContent-Type: text/xml\r\nX-Cell-User: ann\r\n";

/// A POST with these further fields and this body, and then a question for the front.
fn post(alloc: Global, fields: &str, body: &[&str]) -> Result<Octets, NoMemory> {
    let mut all = joined(alloc, &[POST, fields, "\r\n"])?;
    all.append(joined(alloc, body)?)?;
    all.append(joined(
        alloc,
        &["GET /_front/a.docx HTTP/1.1\r\nConnection: close\r\n\r\n"],
    )?)?;
    Ok(all)
}

/// What is written: the answer to the envelope, and the front.
fn answer(alloc: Global) -> Result<Octets, NoMemory> {
    joined(
        alloc,
        &[
            "HTTP/1.1 200 OK\r\nContent-Type: text/xml; charset=utf-8\r\nContent-Length: 820\r\n\r\n",
            FRONT,
            ANSWERED,
            BACK,
            "HTTP/1.1 200 OK\r\nContent-Type: text/plain\r\nContent-Length: 1\r\nConnection: close\r\n\r\n1",
        ],
    )
}

#[test]
fn an_envelope_is_answered(rt: HostRuntime) -> Result<(), Fail> {
    let alloc = rt.alloc();
    let asked = post(
        alloc,
        "Content-Length: 485\r\n",
        &[ASK_FRONT, ASKED, ASK_BACK],
    )?;
    let written = answer(alloc)?;
    let ran = serve_cut(&rt, alloc, asked.as_slice())?;
    assert_eq!(rt; ran.end, SessionEnd::Ended);
    assert!(rt; ran.written == written);
    assert_eq!(rt; ran.calls, 2);
    assert_eq!(rt; ran.moments, 2);
    Ok(())
}

#[test]
fn an_envelope_comes_in_chunks(rt: HostRuntime) -> Result<(), Fail> {
    let alloc = rt.alloc();
    let chunks = [
        "91\r\n",
        ASK_FRONT,
        "\r\n12a;a=b\r\n",
        ASKED,
        "\r\n2A\r\n",
        ASK_BACK,
        "\r\n0\r\n\r\n",
    ];
    let asked = post(alloc, "Transfer-Encoding: Chunked\r\n", &chunks)?;
    let written = answer(alloc)?;
    let ran = serve_cut(&rt, alloc, asked.as_slice())?;
    assert_eq!(rt; ran.end, SessionEnd::Ended);
    assert!(rt; ran.written == written);
    Ok(())
}

/// Serves an envelope of so many subrequests, the first of which is a Cell with this text.
fn refused(alloc: Global, count: usize, text: &str) -> Result<Ran, NoMemory> {
    let mut body = joined(
        alloc,
        &[
            ASK_FRONT,
            "<Request Url=\"a.docx\"><SubRequest Type=\"Cell\" SubRequestToken=\"1\"><SubRequestData>",
            text,
            "</SubRequestData></SubRequest>",
        ],
    )?;
    for _ in 1..count {
        body.append(joined(
            alloc,
            &["<SubRequest Type=\"WhoAmI\" SubRequestToken=\"1\"/>"],
        )?)?;
    }
    body.append(joined(alloc, &["</Request>", ASK_BACK])?)?;
    let mut all = joined(
        alloc,
        &[
            POST,
            "Transfer-Encoding: chunked\r\n\r\n",
            if count == 1 { "139\r\n" } else { "cf9\r\n" },
        ],
    )?;
    all.append(body)?;
    all.append(joined(alloc, &["\r\n0\r\n\r\nGET /_front/a.docx HTTP/1.1\r\n\r\n"])?)?;
    serve_whole(alloc, all.as_slice())
}

#[test]
fn no_call_of_a_refused_envelope_is_made(rt: HostRuntime) -> Result<(), Fail> {
    let alloc = rt.alloc();
    let rows = [
        (1, "AAAA", SessionEnd::Ended, 2),
        (1, "AAA*", SessionEnd::Refused { status: 400 }, 1),
        (65, "AAAA", SessionEnd::Refused { status: 413 }, 1),
    ];
    for (count, text, end, moments) in rows {
        let ran = refused(alloc, count, text)?;
        assert_eq!(rt; ran.end, end, "{count} with {text}");
        // the moment is told before the envelope is judged
        assert_eq!(rt; ran.moments, moments, "{count} with {text}");
        assert_eq!(rt; ran.calls, 0, "{count} with {text}");
    }
    Ok(())
}
