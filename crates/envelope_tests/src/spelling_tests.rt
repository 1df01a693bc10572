// One Collection in many spellings: white space, the order of attributes, prefixes, quotes and references change nothing, nor
// does what is skipped. Among them are envelopes as other programs write them.
use crate::test_envelopes::{DRAW, DRAW_BYTES, Row, Waits, Wanted, joined, says};
use envelope_read::{DependWord, EnvelopeFault};
use std::alloc::Global;

/// The Collection that all of these are.
const ROWS: [Row<'static>; 3] = [
    ("1", Waits::Free, Wanted::WhoAmI),
    (
        "2",
        Waits::On("1", DependWord::OnExecute),
        Wanted::Cell(DRAW_BYTES, true, None),
    ),
    ("3", Waits::Free, Wanted::NotSupported),
];

/// Whether this front, the text of the Cell and this back are the Collection.
fn is_it(alloc: Global, front: &[&str], cell: &str, back: &[&str]) -> Result<bool, EnvelopeFault> {
    let mut text = joined(alloc, front)?;
    text.extend_from_slice(cell.as_bytes())?;
    let back = joined(alloc, back)?;
    text.extend_from_slice(back.as_slice())?;
    says(alloc, text.as_slice(), "http://h/a.docx", "1", &ROWS)
}

// The parts of the plainest spelling: up to the Requests, up to the SubRequests, the first SubRequest, the start of the second
// up to its data, the start tag of the data, behind the text, the third SubRequest, and the ends.

const OPEN: &str = "<Envelope><Body><RequestCollection>";

const REQUEST: &str = "<Request Url=\"http://h/a.docx\" RequestToken=\"1\">";

const FIRST: &str = "<SubRequest Type=\"WhoAmI\" SubRequestToken=\"1\"/>";

const SECOND: &str =
    "<SubRequest Type=\"Cell\" SubRequestToken=\"2\" DependsOn=\"1\" DependencyType=\"OnExecute\">";

const DATA: &str = "<SubRequestData>";

const BEHIND: &str = "</SubRequestData></SubRequest>";

const THIRD: &str = "<SubRequest Type=\"ServerTime\" SubRequestToken=\"3\"/>";

const CLOSE: &str = "</Request></RequestCollection></Body></Envelope>";

/// Each row has other parts in front of the Cell's text.
#[test]
fn spellings_before_the_cell(rt: HostRuntime) -> Result<(), EnvelopeFault> {
    for (open, request, first, second, data) in [
        (OPEN, REQUEST, FIRST, SECOND, DATA),
        // a byte order mark, declarations and a RequestVersion
        (
            "\u{FEFF}<Envelope><Body><RequestCollection>",
            REQUEST,
            FIRST,
            SECOND,
            DATA,
        ),
        (
            "<?xml version='1.1' encoding=\"Utf-8\" standalone='no'?>\n<Envelope><Body><RequestVersion Version='2'/><RequestCollection>",
            REQUEST,
            FIRST,
            SECOND,
            DATA,
        ),
        (
            "\u{FEFF}<?xml version=\"1.0\"?> <Envelope><Body><RequestVersion>\t</RequestVersion><RequestCollection>",
            REQUEST,
            FIRST,
            SECOND,
            DATA,
        ),
        // white space
        (
            "\r\n<Envelope\t>\r\n<Body >\n  <RequestCollection\r\n>",
            "\n <Request\n  Url = \"http://h/a.docx\"\r\n  RequestToken =\t\"1\"\n >",
            "\r\n<SubRequest  Type= \"WhoAmI\"\tSubRequestToken\n=\"1\" />",
            SECOND,
            "\t<SubRequestData\r>\r\n  ",
        ),
        // the order of attributes
        (
            OPEN,
            "<Request RequestToken=\"1\" Url=\"http://h/a.docx\">",
            "<SubRequest SubRequestToken=\"1\" Type=\"WhoAmI\"/>",
            "<SubRequest DependencyType=\"OnExecute\" DependsOn=\"1\" SubRequestToken=\"2\" Type=\"Cell\">",
            DATA,
        ),
        // prefixes of attributes, and of elements that have their end here
        (
            OPEN,
            "<Request a:Url=\"http://h/a.docx\" b:RequestToken=\"1\">",
            "<a:SubRequest c:Type=\"WhoAmI\" c:SubRequestToken=\"1\"></a:SubRequest>",
            SECOND,
            DATA,
        ),
        // quotes
        (
            OPEN,
            "<Request Url='http://h/a.docx' RequestToken='1'>",
            "<SubRequest Type='WhoAmI' SubRequestToken=\"1\"/>",
            "<SubRequest Type='Cell' SubRequestToken='2' DependsOn='1' DependencyType='OnExecute'>",
            DATA,
        ),
        // references
        (
            OPEN,
            "<Request Url=\"http&#58;//h&#x2F;&#x61;&#x2e;docx\" RequestToken=\"&#49;\">",
            "<SubRequest Type=\"&#x57;hoAmI\" SubRequestToken=\"&#0000049;\"/>",
            "<SubRequest Type=\"Cel&#108;\" SubRequestToken=\"&#x32;\" DependsOn=\"&#x0031;\" DependencyType=\"OnExecute\">",
            "<SubRequestData>&#32;&#x0A;",
        ),
        // what is ignored and what is skipped
        (
            OPEN,
            "<Request Url=\"http://h/a.docx\" xmlns:RequestToken=\"7\" RequestToken=\"1\" Url=\"/b\" UseResourceID='a&gt;b'>",
            "<SubRequest Type=\"WhoAmI\" Type=\"AmIAlone\" SubRequestToken=\"1\"><a b='c'>d<e/>&amp;</a> <f:g/></SubRequest>",
            SECOND,
            "<a/><SubRequestData xmlns='d' PartitionId='x'><b>D</b>",
        ),
    ] {
        let front = [open, request, first, second, data];
        let back = [BEHIND, THIRD, CLOSE];
        assert!(rt; is_it(rt.alloc(), &front, DRAW, &back)?);
    }
    Ok(())
}

/// Each row has another text of the Cell, and other parts behind it.
#[test]
fn spellings_behind_the_cell(rt: HostRuntime) -> Result<(), EnvelopeFault> {
    for (cell, behind, third, close) in [
        (
            "&#68;AALAJzPKfM5lAabBgIAABYCBgAD&#x46;wACBAYAog8ACwGsAgBVAwE&#61;",
            BEHIND,
            THIRD,
            CLOSE,
        ),
        (
            " DAALAJzPKfM5lAabBgIAABYCBgADFwACBAYA\r\n\tog8ACwGsAgBVAwE =\n",
            BEHIND,
            THIRD,
            CLOSE,
        ),
        (
            "DAALAJzPKfM5lAabBgIAABYCBgADFwAC<a>DAAL</a>BAYAog8ACwGsAgBVAwE=<b:c d='='/>",
            BEHIND,
            THIRD,
            CLOSE,
        ),
        (
            DRAW,
            "\n</SubRequestData \t>\n<a/>\r\n</SubRequest\n>",
            "\n\t<SubRequest\nType=\"ServerTime\"\rSubRequestToken=\"3\"></SubRequest > ",
            "\n</Request >\n</RequestCollection\t>\r\n</Body ></Envelope\n>\r\n\t ",
        ),
        (
            DRAW,
            BEHIND,
            "<SubRequest SubRequestToken='3' DependsOn=''><SubRequestData Type='Cell'>=</SubRequestData></SubRequest>",
            CLOSE,
        ),
        (
            DRAW,
            BEHIND,
            "<_:SubRequest Type='serverTime' SubRequestToken='&#51;' Cell='Type' />",
            CLOSE,
        ),
    ] {
        let front = [OPEN, REQUEST, FIRST, SECOND, DATA];
        let back = [behind, third, close];
        assert!(rt; is_it(rt.alloc(), &front, cell, &back)?);
    }
    Ok(())
}

/// As Python's zeep writes it by lxml: a declaration in single quotes, a prefix for each name space, and types by `xsi`.
#[test]
fn as_zeep_writes(rt: HostRuntime) -> Result<(), EnvelopeFault> {
    let front = [
        "<?xml version='1.0' encoding='utf-8'?>\n",
        "<soap-env:Envelope xmlns:soap-env=\"http://schemas.xmlsoap.org/soap/envelope/\"><soap-env:Body>",
        "<ns0:RequestVersion xmlns:ns0=\"http://schemas.microsoft.com/sharepoint/soap/\" Version=\"2\" MinorVersion=\"2\"/>",
        "<ns0:RequestCollection xmlns:ns0=\"http://schemas.microsoft.com/sharepoint/soap/\" CorrelationId=\"{83E78EC0-5BAE-4BC2-9517-E2747382569B}\">",
        "<ns0:Request Url=\"http://h/a.docx\" RequestToken=\"1\">",
        "<ns0:SubRequest xmlns:xsi=\"http://www.w3.org/2001/XMLSchema-instance\" SubRequestToken=\"1\" Type=\"WhoAmI\" xsi:type=\"ns0:WhoAmISubRequestType\"/>",
        "<ns0:SubRequest xmlns:xsi=\"http://www.w3.org/2001/XMLSchema-instance\" SubRequestToken=\"2\" DependsOn=\"1\" DependencyType=\"OnExecute\" Type=\"Cell\" xsi:type=\"ns0:CellSubRequestType\">",
        "<ns0:SubRequestData BinaryDataSize=\"38\">",
    ];
    let back = [
        "</ns0:SubRequestData></ns0:SubRequest>",
        "<ns0:SubRequest xmlns:xsi=\"http://www.w3.org/2001/XMLSchema-instance\" SubRequestToken=\"3\" Type=\"ServerTime\" xsi:type=\"ns0:ServerTimeSubRequestType\"/>",
        "</ns0:Request></ns0:RequestCollection></soap-env:Body></soap-env:Envelope>",
    ];
    assert!(rt; is_it(rt.alloc(), &front, DRAW, &back)?);
    Ok(())
}

/// As .NET writes it, laid out: name spaces of schemas on the Envelope, a blank before `/>`, and CR LF.
#[test]
fn as_dot_net_writes(rt: HostRuntime) -> Result<(), EnvelopeFault> {
    let front = [
        "\u{FEFF}<?xml version=\"1.0\" encoding=\"utf-8\"?>\r\n",
        "<soap:Envelope xmlns:soap=\"http://schemas.xmlsoap.org/soap/envelope/\" xmlns:xsi=\"http://www.w3.org/2001/XMLSchema-instance\" xmlns:xsd=\"http://www.w3.org/2001/XMLSchema\">\r\n",
        "  <soap:Body>\r\n",
        "    <RequestVersion Version=\"2\" MinorVersion=\"2\" xmlns=\"http://schemas.microsoft.com/sharepoint/soap/\" />\r\n",
        "    <RequestCollection CorrelationId=\"{83E78EC0-5BAE-4BC2-9517-E2747382569B}\" xmlns=\"http://schemas.microsoft.com/sharepoint/soap/\">\r\n",
        "      <Request Url=\"http://h/a.docx\" RequestToken=\"1\">\r\n",
        "        <SubRequest Type=\"WhoAmI\" SubRequestToken=\"1\">\r\n          <SubRequestData />\r\n        </SubRequest>\r\n",
        "        <SubRequest Type=\"Cell\" SubRequestToken=\"2\" DependsOn=\"1\" DependencyType=\"OnExecute\">\r\n",
        "          <SubRequestData xsi:nil=\"false\">",
    ];
    let back = [
        "</SubRequestData>\r\n        </SubRequest>\r\n",
        "        <SubRequest Type=\"ServerTime\" SubRequestToken=\"3\" />\r\n",
        "      </Request>\r\n    </RequestCollection>\r\n  </soap:Body>\r\n</soap:Envelope>\r\n",
    ];
    assert!(rt; is_it(rt.alloc(), &front, DRAW, &back)?);
    Ok(())
}
