// A session over a source, a sink, a clock and documents in memory.
ghost use Rattle.std.specs.Prelude.{◌≡◌, ◌^◌, ◌<◌, All, length, map};
ghost use Rattle.doc_model.specs.rules.Sound.{Sound};
ghost use Rattle.session_loop.specs.Driving.{View, Drives, Turned, GoesOn};
ghost use Rattle.session_loop.specs.Rooms.{most_steps, HasRoom};
ghost use Rattle.session_loop.specs.Safety.{IsSafe};
ghost use Rattle.session_loop.specs.Sessions.{IsFresh, IsSettled, WantsIs};

use crate::documents::{CoreDoc, LoneDocs};
use crate::session::Session;
use crate::want::{SessionEnd, Want};
use doc_model::Core;
use doc_model::laws::every_call_keeps_sound;
use host_edge::{Clock, Sink, Source, write_all};
use std::alloc::Global;

// How many bytes are asked for at once.
const PIECE: usize = 4096;

// The steps of 10,000 requests.
const MOST_STEPS: u64 = 150_995_151_680_000;

// How a session has ended that wants nothing.
fn end_of(session: &Session) -> SessionEnd
    requires { (end : SessionEnd) × WantsIs session.now.stage (Want.End end) }
    ensures { WantsIs session.now.stage (Want.End result) }
{
    match session.want() {
        Want::End { end } => end,
        _ => unreachable!(),
    }
}

// Feeds the session what the source gives.
fn take_bytes<S: Source>(session: &mut Session, source: &mut S) -> Option<SessionEnd>
    requires want { WantsIs session.old.stage Want.Bytes }
    requires settled { IsSettled session.old }
    requires safe { IsSafe session.old }
    ensures turned { (v : View) → v.left ≡ S.left source.old → v.read_faults ≡ S.faults source.old
        → Turned v (record v { left = S.left source.new; read_faults = S.faults source.new }) session.old session.new result }
    ensures goes { GoesOn session.old session.new result }
{
    let mut piece = [0_u8; PIECE];
    match source.read(&mut piece) {
        Ok(0) => {
            session.feed_end();
            Some(end_of(session))
        }
        Ok(count) => match session.feed(&piece[..count]) {
            Ok(()) => None,
            Err(_) => Some(SessionEnd::NoMemory),
        },
        Err(_) => Some(SessionEnd::ReadFault),
    }
}

// Tells the session the moment.
fn tell_moment<T: Clock>(session: &mut Session, clock: &mut T) -> Option<SessionEnd>
    requires want { WantsIs session.old.stage Want.Moment }
    requires safe { IsSafe session.old }
    ensures turned { (v : View) → v.told ≡ T.told clock.old
        → Turned v (record v { told = T.told clock.new }) session.old session.new result }
    ensures goes { GoesOn session.old session.new result }
{
    let moment = clock.moment();
    match session.tell(moment) {
        Ok(()) => None,
        Err(_) => Some(SessionEnd::NoMemory),
    }
}

// Writes the output of the session.
fn write_output<K: Sink>(session: &mut Session, out: &mut K) -> Option<SessionEnd>
    requires want { WantsIs session.old.stage Want.Write }
    requires safe { IsSafe session.old }
    ensures turned { (v : View) → v.held ≡ K.held out.old → v.write_faults ≡ K.faults out.old
        → Turned v (record v { held = K.held out.new; write_faults = K.faults out.new }) session.old session.new result }
    ensures goes { GoesOn session.old session.new result }
{
    match write_all(out, session.output()) {
        Ok(()) => match session.wrote() {
            Ok(()) => None,
            Err(_) => Some(SessionEnd::NoMemory),
        },
        Err(_) => Some(SessionEnd::WriteFault),
    }
}

// Makes the call of the session.
fn make_call<C: Core>(
    session: &mut Session,
    docs: &mut [CoreDoc<C>],
    doc: usize,
) -> Option<SessionEnd>
    requires want { WantsIs session.old.stage (Want.Submit doc) }
    requires settled { IsSettled session.old }
    requires safe { IsSafe session.old }
    requires docs { length session.old.names ≡ length docs.old }
    requires sound { All (λ d. Sound (C.doc d.core)) docs.old }
    ensures turned { (v : View) → v.docs ≡ map (λ d. record { doc = C.doc d.core; front = d.front }) docs.old
        → Turned v (record v { docs = map (λ d. record { doc = C.doc d.core; front = d.front }) docs.new }) session.old session.new result }
    ensures goes { GoesOn session.old session.new result }
    ensures docs { length docs.new ≡ length docs.old }
    ensures sound { All (λ d. Sound (C.doc d.core)) docs.new }
{
    every_call_keeps_sound();
    let submitted = docs[doc].submit(session.call());
    match session.give(submitted) {
        Ok(()) => None,
        Err(_) => Some(SessionEnd::NoMemory),
    }
}

// Gives the session the count of a document.
fn give_count<C: Core>(session: &mut Session, docs: &[CoreDoc<C>], doc: usize) -> Option<SessionEnd>
    requires want { WantsIs session.old.stage (Want.Front doc) }
    requires safe { IsSafe session.old }
    requires docs { length session.old.names ≡ length docs.now }
    ensures turned { (v : View) → v.docs ≡ map (λ d. record { doc = C.doc d.core; front = d.front }) docs.now
        → Turned v v session.old session.new result }
    ensures goes { GoesOn session.old session.new result }
{
    match session.give_front(docs[doc].front()) {
        Ok(()) => None,
        Err(_) => Some(SessionEnd::NoMemory),
    }
}

// One turn of a session.
fn turn<C: Core, S: Source, K: Sink, T: Clock>(
    session: &mut Session,
    docs: &mut [CoreDoc<C>],
    source: &mut S,
    out: &mut K,
    clock: &mut T,
) -> Option<SessionEnd>
    requires settled { IsSettled session.old }
    requires safe { IsSafe session.old }
    requires docs { length session.old.names ≡ length docs.old }
    requires sound { All (λ d. Sound (C.doc d.core)) docs.old }
    ensures turned { Turned
        (record { left = S.left source.old; read_faults = S.faults source.old; held = K.held out.old; write_faults = K.faults out.old; told = T.told clock.old; docs = map (λ d. record { doc = C.doc d.core; front = d.front }) docs.old })
        (record { left = S.left source.new; read_faults = S.faults source.new; held = K.held out.new; write_faults = K.faults out.new; told = T.told clock.new; docs = map (λ d. record { doc = C.doc d.core; front = d.front }) docs.new })
        session.old session.new result }
    ensures goes { GoesOn session.old session.new result }
    ensures docs { length docs.new ≡ length docs.old }
    ensures sound { All (λ d. Sound (C.doc d.core)) docs.new }
{
    match session.want() {
        Want::Bytes => take_bytes(session, source),
        Want::Moment => tell_moment(session, clock),
        Want::Submit { doc } => make_call(session, docs, doc),
        Want::Front { doc } => give_count(session, docs, doc),
        Want::Write => write_output(session, out),
        Want::End { end } => Some(end),
    }
}

// Turns of a session on which nothing has come yet, up to its end.
fn serve<C: Core, S: Source, K: Sink, T: Clock>(
    session: &mut Session,
    docs: &mut [CoreDoc<C>],
    source: &mut S,
    out: &mut K,
    clock: &mut T,
) -> SessionEnd
    requires fresh { IsFresh session.old.names session.old }
    requires settled { IsSettled session.old }
    requires safe { IsSafe session.old }
    requires room { HasRoom session.old most_steps }
    requires docs { length session.old.names ≡ length docs.old }
    requires sound { All (λ d. Sound (C.doc d.core)) docs.old }
    ensures drives { Drives session.old.names
        (record { left = S.left source.old; read_faults = S.faults source.old; held = K.held out.old; write_faults = K.faults out.old; told = T.told clock.old; docs = map (λ d. record { doc = C.doc d.core; front = d.front }) docs.old })
        (record { left = S.left source.new; read_faults = S.faults source.new; held = K.held out.new; write_faults = K.faults out.new; told = T.told clock.new; docs = map (λ d. record { doc = C.doc d.core; front = d.front }) docs.new })
        result }
    ensures docs { length docs.new ≡ length docs.old }
    ensures sound { All (λ d. Sound (C.doc d.core)) docs.new }
{
    let mut room = MOST_STEPS;
    'going: while room > 0 {
        if let Some(end) = turn(session, docs, source, out, clock) {
            return end;
        }
        room -= 1;
    }
    end_of(session)
}

/// Serves the connection of the source: its requests one after the other, over the documents of the names, up to its end
/// or to an answer that closes. It says how it ended. `ReadFault` and `WriteFault` come only where the source's or the
/// sink's count of faults rose; where none rose, all was served up to the end that the bytes have, or there was no memory.
pub fn drive_lone<C: Core, S: Source, K: Sink, T: Clock>(
    alloc: Global,
    docs: &mut LoneDocs<C>,
    source: &mut S,
    out: &mut K,
    clock: &mut T,
) -> SessionEnd
    requires docs { length docs.old.names ≡ length docs.old.docs.items }
    requires sound { All (λ d. Sound (C.doc d.core)) docs.old.docs.items }
    ensures names { docs.new.names ≡ docs.old.names }
    ensures drives { Drives docs.old.names
        (record { left = S.left source.old; read_faults = S.faults source.old; held = K.held out.old; write_faults = K.faults out.old; told = T.told clock.old; docs = map (λ d. record { doc = C.doc d.core; front = d.front }) docs.old.docs.items })
        (record { left = S.left source.new; read_faults = S.faults source.new; held = K.held out.new; write_faults = K.faults out.new; told = T.told clock.new; docs = map (λ d. record { doc = C.doc d.core; front = d.front }) docs.new.docs.items })
        result }
    ensures docs { length docs.new.names ≡ length docs.new.docs.items }
    ensures sound { All (λ d. Sound (C.doc d.core)) docs.new.docs.items }
{
    let Ok(mut session) = Session::new(alloc, &docs.names) else {
        return SessionEnd::NoMemory;
    };
    serve(&mut session, docs.docs.as_mut_slice(), source, out, clock)
}
