// A session over bytes that come in pieces, and a new document of the name `a.docx`.
ghost use Rattle.std.specs.Prelude.{ℕ, OnOk};
ghost use Rattle.doc_model.specs.rules.Sound.{Sound};
ghost use Rattle.plain_core.specs.Keeping.{doc_of};
ghost use Rattle.session_loop.specs.Safety.{IsSafe};
ghost use Rattle.session_loop.specs.Sessions.{IsSettled, WantsIs};

use compact_values::{Guid, Names, NoMemory, Octets, Seq, Text};
use doc_model::laws::every_call_keeps_sound;
use plain_core::PlainCore;
use session_loop::{CoreDoc, Session, SessionEnd, Want};
use std::alloc::Global;
use std::process::Abort;
use std::test::Fail;

/// The GUID of the document.
pub const G: Guid = Guid {
    number: 0x0011_2233_4455_6677_8899_aabb_ccdd_eeff,
};

/// How many steps a test takes at most.
const STEPS: u32 = 200_000;

/// The bytes of a connection, how many of them came, and how many come at once.
#[derive(Drop)]
struct Pieces<'a> {
    bytes: &'a [u8],
    at: usize,
    size: usize,
}

/// What a session did: what it wrote, how it ended, how often it asked for the moment, and how many calls it made.
#[derive(Drop)]
pub struct Ran {
    pub written: Octets,
    pub end: SessionEnd,
    pub moments: u32,
    pub calls: u32,
}

fn feed_next(session: &mut Session, pieces: &mut Pieces) -> Result<(), NoMemory>
    requires want { WantsIs session.old.stage Want.Bytes }
    requires settled { IsSettled session.old }
    requires safe { IsSafe session.old }
    ensures settled { OnOk result (IsSettled session.new) }
    ensures safe { OnOk result (IsSafe session.new) }
{
    let from = pieces.at.min(pieces.bytes.len());
    let to = from.saturating_add(pieces.size).min(pieces.bytes.len());
    pieces.at = to;
    if from == to {
        session.feed_end();
        return Ok(());
    }
    session.feed(&pieces.bytes[from..to])
}

fn make_call(session: &mut Session, doc: &mut CoreDoc<PlainCore>) -> Result<(), NoMemory>
    requires want { (place : ℕ) × WantsIs session.old.stage (Want.Submit place) }
    requires settled { IsSettled session.old }
    requires safe { IsSafe session.old }
    requires sound { Sound (doc_of doc.old.core) }
    ensures settled { OnOk result (IsSettled session.new) }
    ensures safe { OnOk result (IsSafe session.new) }
    ensures sound { Sound (doc_of doc.new.core) }
{
    every_call_keeps_sound();
    let submitted = doc.submit(session.call());
    session.give(submitted)
}

// Meets what the session wants. False where it has ended.
fn step(
    session: &mut Session,
    doc: &mut CoreDoc<PlainCore>,
    pieces: &mut Pieces,
    ran: &mut Ran,
) -> Result<bool, NoMemory>
    requires settled { IsSettled session.old }
    requires safe { IsSafe session.old }
    requires sound { Sound (doc_of doc.old.core) }
    ensures settled { OnOk result (IsSettled session.new) }
    ensures safe { OnOk result (IsSafe session.new) }
    ensures sound { Sound (doc_of doc.new.core) }
{
    match session.want() {
        Want::Bytes => feed_next(session, pieces)?,
        Want::Moment => {
            ran.moments = ran.moments.saturating_add(1);
            session.tell(u64::from(ran.moments))?;
        }
        Want::Submit { doc: _ } => {
            ran.calls = ran.calls.saturating_add(1);
            make_call(session, doc)?;
        }
        Want::Front { doc: _ } => session.give_front(doc.front())?,
        Want::Write => {
            ran.written.extend_from_slice(session.output())?;
            session.wrote()?;
        }
        Want::End { end } => {
            ran.end = end;
            return Ok(false);
        }
    }
    Ok(true)
}

/// Serves a connection whose first bytes come at once, and then so many at a time.
fn serve(alloc: Global, bytes: &[u8], first: usize, size: usize) -> Result<Ran, NoMemory> {
    every_call_keeps_sound();
    let mut names = Names::new(alloc);
    names.push(Text::from_str(alloc, "a.docx")?)?;
    let mut doc = CoreDoc::new(PlainCore::new(alloc, G)?);
    let mut session = Session::new(alloc, &names)?;
    let mut pieces = Pieces {
        bytes,
        at: 0,
        size: first,
    };
    let mut ran = Ran {
        written: Seq::new(alloc),
        end: SessionEnd::ReadFault,
        moments: 0,
        calls: 0,
    };
    'serving: for _ in 0..STEPS {
        if !step(&mut session, &mut doc, &mut pieces, &mut ran)? {
            return Ok(ran);
        }
        if pieces.at > 0 {
            pieces.size = size;
        }
    }
    Ok(ran)
}

/// Serves a connection whose bytes come at once.
pub fn serve_whole(alloc: Global, bytes: &[u8]) -> Result<Ran, NoMemory> {
    serve(alloc, bytes, bytes.len(), bytes.len())
}

fn is_same(a: &Ran, b: &Ran) -> bool {
    a.written == b.written && a.end == b.end && a.moments == b.moments && a.calls == b.calls
}

/// Serves a connection whose bytes come at once, cut at each of them, and one at a time: it is the same each time.
pub fn serve_cut(rt: &impl Abort, alloc: Global, bytes: &[u8]) -> Result<Ran, Fail> {
    let whole = serve_whole(alloc, bytes)?;
    for cut in 1..bytes.len() {
        let ran = serve(alloc, bytes, cut, bytes.len())?;
        assert!(rt; is_same(&ran, &whole), "cut at {cut}");
    }
    let ran = serve(alloc, bytes, 1, 1)?;
    assert!(rt; is_same(&ran, &whole), "byte by byte");
    Ok(whole)
}
