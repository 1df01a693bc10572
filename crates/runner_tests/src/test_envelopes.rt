// Envelopes, and the answers that the formats give them.
use crate::test_documents::Change;
use crate::test_host::Host;
use crate::test_saves::{File, add_base64, add_short, saved};
use compact_values::{NoMemory, Octets};
use std::alloc::Global;
use std::process::Abort;
use std::test::Fail;
use test_forms::add_form;

/// The address of the document of most tests.
pub const A: &str = "http://h/a.docx";

const FRONT: &str =
    "<s:Envelope xmlns:s='http://schemas.xmlsoap.org/soap/envelope/'><s:Body><RequestCollection xmlns='http://schemas.microsoft.com/sharepoint/soap/'>";

const BACK: &str = "</RequestCollection></s:Body></s:Envelope>";

const ANSWER_FRONT: &str =
    "<?xml version='1.0' encoding='utf-8'?><s:Envelope xmlns:s='http://schemas.xmlsoap.org/soap/envelope/'><s:Body><ResponseVersion Version='2' MinorVersion='2' xmlns='http://schemas.microsoft.com/sharepoint/soap/'/><ResponseCollection WebUrl='/' xmlns='http://schemas.microsoft.com/sharepoint/soap/'>";

const ANSWER_BACK: &str = "</ResponseCollection></s:Body></s:Envelope>";

const KEY_FRONT: &str =
    "<SubRequestData EditorsTableRequestType='UpdateEditorMetadata' ClientID='~30' Key='";

const KEY_BACK: &str = "'>AQID</SubRequestData>";

/// What a subrequest asks, by its SubRequestData. Attributes and texts are written short.
#[derive(Clone, Copy)]
pub enum Asked<'a> {
    /// It has none.
    Nothing,
    /// These attributes.
    Data(&'a str),
    /// These attributes, and this text.
    Value(&'a str, &'a str),
    /// The first editor sets this key.
    Key(&'a str),
    /// These attributes, and the base64 of the bytes that a form names.
    Cell(&'a str, &'a str),
    /// A binary request of so many of the sub-request that a form names.
    Many(&'a str, usize),
    /// These attributes, and a binary request that puts a file in place of another, with these flags.
    Save(&'a str, File, Option<File>, u8),
}

/// What is told of a subrequest, beside its word.
#[derive(Clone, Copy)]
pub enum Told<'a> {
    Nothing,
    /// This element, written short.
    Data(&'a str),
    /// The base64 of the bytes that a form names.
    Cell(&'a str),
    /// A response of so many of the sub-response that a form names.
    Many(&'a str, usize),
    /// A response to one sub-request, whose kind a form names: the number of a cell error.
    Failed(&'a str, u32),
}

/// A subrequest: its token, its Type, more of its attributes, and what it asks; the word of its answer, and what is told.
pub type Sub<'a> = (&'a str, &'a str, &'a str, Asked<'a>, &'a str, Told<'a>);

/// The same at a moment, in an envelope of its own.
pub type Step<'a> = (u64, &'a str, Asked<'a>, &'a str, Told<'a>);

fn add_all(out: &mut Octets, texts: &[&str]) -> Result<(), NoMemory> {
    for text in texts {
        add_short(out, text)?;
    }
    Ok(())
}

fn add_forms(out: &mut Octets, forms: &[&str]) -> Result<(), NoMemory> {
    for form in forms {
        add_form(out, form)?;
    }
    Ok(())
}

fn add_repeated(out: &mut Octets, form: &str, count: usize) -> Result<(), NoMemory> {
    for _ in 0..count {
        add_form(out, form)?;
    }
    Ok(())
}

fn add_asked_cell(
    alloc: Global,
    out: &mut Octets,
    attributes: &str,
    bytes: &Octets,
) -> Result<(), NoMemory> {
    add_all(out, &["<SubRequestData ", attributes, ">"])?;
    add_base64(alloc, out, bytes.as_slice())?;
    add_short(out, "</SubRequestData>")
}

fn add_asked(alloc: Global, out: &mut Octets, asked: Asked) -> Result<(), NoMemory> {
    let mut bytes = Octets::new(alloc);
    match asked {
        Asked::Nothing => Ok(()),
        Asked::Data(attributes) => add_all(out, &["<SubRequestData ", attributes, "/>"]),
        Asked::Value(attributes, text) => {
            let texts = [
                "<SubRequestData ",
                attributes,
                ">",
                text,
                "</SubRequestData>",
            ];
            add_all(out, &texts)
        }
        Asked::Key(key) => add_all(out, &[KEY_FRONT, key, KEY_BACK]),
        Asked::Cell(attributes, form) => {
            add_form(&mut bytes, form)?;
            add_asked_cell(alloc, out, attributes, &bytes)
        }
        Asked::Many(form, count) => {
            add_form(&mut bytes, "Q")?;
            add_repeated(&mut bytes, form, count)?;
            add_form(&mut bytes, "P")?;
            add_asked_cell(alloc, out, "", &bytes)
        }
        Asked::Save(attributes, file, over, flags) => {
            let bytes = saved(alloc, file, over, flags)?;
            add_asked_cell(alloc, out, attributes, &bytes)
        }
    }
}

fn add_told_cell(alloc: Global, out: &mut Octets, bytes: &Octets) -> Result<(), NoMemory> {
    add_short(out, "><SubResponseData>")?;
    add_base64(alloc, out, bytes.as_slice())?;
    add_short(out, "</SubResponseData></SubResponse>")
}

fn add_told(alloc: Global, out: &mut Octets, told: Told) -> Result<(), NoMemory> {
    let mut bytes = Octets::new(alloc);
    match told {
        Told::Nothing => add_short(out, "/>"),
        Told::Data(element) => add_all(out, &[">", element, "</SubResponse>"]),
        Told::Cell(form) => {
            add_form(&mut bytes, form)?;
            add_told_cell(alloc, out, &bytes)
        }
        Told::Many(form, count) => {
            add_form(&mut bytes, "R")?;
            add_repeated(&mut bytes, form, count)?;
            add_form(&mut bytes, "8B 01")?;
            add_told_cell(alloc, out, &bytes)
        }
        Told::Failed(kind, number) => {
            let front = ["R 0E 02 06 00 03", kind, "01 6E 02 20 00 E 32 03 08 00"];
            add_forms(&mut bytes, &front)?;
            bytes.extend_from_slice(&number.to_le_bytes())?;
            add_form(&mut bytes, "37 01 07 01 8B 01")?;
            add_told_cell(alloc, out, &bytes)
        }
    }
}

fn result_of(word: &str) -> &str {
    match word {
        "Success" => "0",
        _ => "2147500037",
    }
}

/// An envelope, and its answer.
#[derive(Drop)]
pub struct Exchange {
    alloc: Global,
    asked: Octets,
    wanted: Octets,
}

impl Exchange {
    pub fn new(alloc: Global) -> Result<Exchange, NoMemory> {
        let mut asked = Octets::new(alloc);
        let mut wanted = Octets::new(alloc);
        add_short(&mut asked, FRONT)?;
        add_short(&mut wanted, ANSWER_FRONT)?;
        Ok(Exchange {
            alloc,
            asked,
            wanted,
        })
    }

    /// Adds a subrequest to the open Request.
    pub fn add_sub(&mut self, sub: &Sub) -> Result<(), NoMemory> {
        let (token, kind, more, asked, word, told) = *sub;
        let front = [
            "<SubRequest Type='",
            kind,
            "' SubRequestToken='",
            token,
            "' ",
            more,
            ">",
        ];
        add_all(&mut self.asked, &front)?;
        add_asked(self.alloc, &mut self.asked, asked)?;
        add_short(&mut self.asked, "</SubRequest>")?;
        let front = [
            "<SubResponse SubRequestToken='",
            token,
            "' ErrorCode='",
            word,
            "' HResult='",
            result_of(word),
            "'",
        ];
        add_all(&mut self.wanted, &front)?;
        add_told(self.alloc, &mut self.wanted, told)
    }

    /// Opens a Request with this address and this token.
    pub fn open(&mut self, url: &str, token: &str) -> Result<(), NoMemory> {
        let front = ["<Request Url='", url, "' RequestToken='", token, "'>"];
        add_all(&mut self.asked, &front)?;
        let front = [
            "<Response Url='",
            url,
            "' RequestToken='",
            token,
            "' HealthScore='0'>",
        ];
        add_all(&mut self.wanted, &front)
    }

    /// Closes the open Request.
    pub fn close(&mut self) -> Result<(), NoMemory> {
        add_short(&mut self.asked, "</Request>")?;
        add_short(&mut self.wanted, "</Response>")
    }

    /// Adds a Request with this address, this token and these subrequests.
    pub fn add(&mut self, url: &str, token: &str, subs: &[Sub]) -> Result<(), NoMemory> {
        self.open(url, token)?;
        for sub in subs {
            self.add_sub(sub)?;
        }
        self.close()
    }

    /// Checks that the envelope is answered so, at this moment.
    pub fn check(
        self,
        rt: &impl Abort,
        host: &mut Host,
        moment: u64,
        change: Change,
    ) -> Result<(), Fail> {
        let Exchange {
            mut asked,
            mut wanted,
            ..
        } = self;
        add_short(&mut asked, BACK)?;
        add_short(&mut wanted, ANSWER_BACK)?;
        let text = host.run(moment, change, asked.as_slice())?;
        assert!(rt; text == wanted, "at {moment}");
        Ok(())
    }
}

/// One envelope with one Request of these subrequests, of `a.docx`, where changes end so.
pub fn play_changing(
    rt: &impl Abort,
    host: &mut Host,
    moment: u64,
    change: Change,
    subs: &[Sub],
) -> Result<(), Fail> {
    let mut exchange = Exchange::new(host.alloc())?;
    exchange.add(A, "1", subs)?;
    exchange.check(rt, host, moment, change)
}

/// One envelope with one Request of these subrequests, of a new document.
pub fn play(rt: &impl Abort, alloc: Global, subs: &[Sub]) -> Result<(), Fail> {
    let mut host = Host::new(alloc)?;
    play_changing(rt, &mut host, 0, Change::Done, subs)
}

fn play_step(rt: &impl Abort, host: &mut Host, step: &Step) -> Result<(), Fail> {
    let (moment, kind, asked, word, told) = *step;
    let sub = ("1", kind, "", asked, word, told);
    play_changing(rt, host, moment, Change::Done, &[sub])
}

/// Each of these subrequests at its moment, one after the other, of this document.
pub fn play_on(rt: &impl Abort, host: &mut Host, steps: &[Step]) -> Result<(), Fail> {
    for step in steps {
        play_step(rt, host, step)?;
    }
    Ok(())
}

/// The same of a new document.
pub fn play_steps(rt: &impl Abort, alloc: Global, steps: &[Step]) -> Result<(), Fail> {
    let mut host = Host::new(alloc)?;
    play_on(rt, &mut host, steps)
}
