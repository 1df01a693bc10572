// The session of one connection, without input or output.
ghost use Rattle.std.specs.Prelude.{◌≡◌, ◌<◌, ◌≤◌, ◌^◌, ℕ, length, drop, IfOk, OnOk, OnErr};
ghost use Rattle.doc_model.specs.rules.Histories.{Fits};
ghost use Rattle.doc_model.specs.declared.call.Call.{Call};
ghost use Rattle.session_loop.specs.Courses.{told, made, counted, wrote};
ghost use Rattle.session_loop.specs.Rooms.{most_steps, HasRoom, Falls};
ghost use Rattle.session_loop.specs.Safety.{IsSafe};
ghost use Rattle.session_loop.specs.Sessions.{IsFresh, IsSettled, WantsIs, Leads, Tracks, LeadsBy, TracksBy, Closes, IsCallOf};

use crate::stage::{Stage, end_of, want_of};
use crate::want::{SessionEnd, Want};
use collection_run::Runner;
use compact_values::{Copied, Names, NoMemory, Octets, Seq, Text};
use doc_model::{Call, Submitted};
use http_head::{BodyReader, Framing};
use std::alloc::Global;
use std::marker::Model;

/// The most requests of a connection: the answer to the last one closes it.
pub const REQUEST_LIMIT: u32 = 10_000;

/// The session of one connection, without input or output: it says what it wants next, and is told or given it. However
/// the bytes of the connection are cut into pieces, what it writes and which calls it makes are those of the whole.
///
/// After `NoMemory` of any call it has ended so, and is not gone on with.
#[derive(Drop)]
pub struct Session {
    pub(crate) alloc: Global,
    pub(crate) names: Names,
    // how many requests may still come, the present one counted
    pub(crate) left: u32,
    pub(crate) stage: Stage,
    // the bytes that came; those before `from` are used
    pub(crate) input: Octets,
    pub(crate) from: usize,
    pub(crate) body: BodyReader,
    pub(crate) user: Text,
    pub(crate) runner: Option<Runner>,
    pub(crate) call: Option<Call>,
    pub(crate) output: Octets,
}

impl Model for Session {
    ghost use Rattle.std.specs.Prelude.{◌≤◌, drop, length};
    ghost use Rattle.session_loop.specs.Sessions.{Machine};

    ghost Value = { Machine };

    ghost view = { λ s. record { names = s.names; left = s.left; stage = s.stage; input = drop s.from s.input; body = s.body; user = s.user; runner = s.runner; call = s.call; output = s.output } };

    ghost invariant = { λ s. s.from ≤ length s.input };
}

impl Session {
    /// The session of a connection of which nothing came yet, over the documents of these names.
    pub fn new(alloc: Global, names: &Names) -> Result<Session, NoMemory>
        ensures fresh { IfOk result (IsFresh names.now) }
        ensures settled { IfOk result IsSettled }
        ensures safe { IfOk result IsSafe }
        ensures room { IfOk result (λ session. HasRoom session most_steps) }
    {
        Ok(Session {
            alloc,
            names: names.copied(alloc)?,
            left: REQUEST_LIMIT,
            stage: Stage::Heading,
            input: Seq::new(alloc),
            from: 0,
            body: BodyReader::new(alloc, Framing::Nothing),
            user: Text::new(alloc),
            runner: None,
            call: None,
            output: Seq::new(alloc),
        })
    }

    /// What it wants next. Each want is met by one call: `Bytes` by `feed` or `feed_end`, `Moment` by `tell`, `Submit` by
    /// `give`, `Front` by `give_front`, `Write` by `wrote`.
    pub fn want(&self) -> Want
        ensures { WantsIs self.now.stage result }
    {
        want_of(self.stage)
    }

    /// What is to be written.
    pub fn output(&self) -> &[u8]
        ensures { result.now ≡ self.now.output }
    {
        self.output.as_slice()
    }

    /// The call that is out.
    pub fn call(&self) -> &Call
        requires { (call : Call) × IsCallOf self.now call }
        ensures { IsCallOf self.now result.now }
    {
        match self.stage {
            Stage::Running { doc: _, close: _ } => match &self.runner {
                Some(runner) => runner.call(),
                None => unreachable!(),
            },
            _ => match &self.call {
                Some(call) => call,
                None => unreachable!(),
            },
        }
    }

    /// Takes the next bytes of the connection. A step with at least one byte leaves fewer steps.
    pub fn feed(&mut self, piece: &[u8]) -> Result<(), NoMemory>
        requires want { WantsIs self.old.stage Want.Bytes }
        requires settled { IsSettled self.old }
        ensures leads { OnOk result (Leads self.old piece.now self.new) }
        ensures tracks { OnOk result (Tracks self.old piece.now self.new) }
        ensures settled { OnOk result (IsSettled self.new) }
        ensures names { OnOk result (self.new.names ≡ self.old.names) }
        ensures safe { OnOk result (IsSafe self.old → IsSafe self.new) }
        ensures falls { OnOk result (0 < length piece.now → Falls self.old self.new) }
        ensures err { OnErr result (self.new.stage ≡ Stage.Over SessionEnd.NoMemory) }
    {
        match self.take_piece(piece) {
            Ok(()) => Ok(()),
            Err(_) => self.give_up(),
        }
    }

    /// Takes the end of the source: the session has ended, between two requests or inside one.
    pub fn feed_end(&mut self)
        requires want { WantsIs self.old.stage Want.Bytes }
        requires settled { IsSettled self.old }
        ensures closes { Closes self.old self.new }
        ensures names { self.new.names ≡ self.old.names }
        ensures falls { Falls self.old self.new }
    {
        let end = end_of(self.stage, &self.input.as_slice()[self.from..]);
        self.stage = Stage::Over { end };
    }

    /// Takes the moment.
    pub fn tell(&mut self, moment: u64) -> Result<(), NoMemory>
        requires want { WantsIs self.old.stage Want.Moment }
        requires below { moment < 2 ^ 40 }
        ensures leads { OnOk result (LeadsBy self.old (told moment) self.new) }
        ensures tracks { OnOk result (TracksBy self.old (told moment) self.new) }
        ensures settled { OnOk result (IsSettled self.new) }
        ensures names { OnOk result (self.new.names ≡ self.old.names) }
        ensures safe { OnOk result (IsSafe self.old → IsSafe self.new) }
        ensures falls { OnOk result (Falls self.old self.new) }
        ensures err { OnErr result (self.new.stage ≡ Stage.Over SessionEnd.NoMemory) }
    {
        match self.take_moment(moment) {
            Ok(()) => Ok(()),
            Err(_) => self.give_up(),
        }
    }

    /// Takes what became of the call that is out.
    pub fn give(&mut self, submitted: Submitted) -> Result<(), NoMemory>
        requires { (call : Call) × IsCallOf self.old call × Fits call submitted }
        ensures leads { OnOk result ((doc : ℕ) (call : Call) → WantsIs self.old.stage (Want.Submit doc) → IsCallOf self.old call
            → LeadsBy self.old (made doc call submitted) self.new) }
        ensures tracks { OnOk result ((doc : ℕ) (call : Call) → WantsIs self.old.stage (Want.Submit doc) → IsCallOf self.old call
            → TracksBy self.old (made doc call submitted) self.new) }
        ensures settled { OnOk result (IsSettled self.new) }
        ensures names { OnOk result (self.new.names ≡ self.old.names) }
        ensures safe { OnOk result (IsSafe self.old → IsSafe self.new) }
        ensures falls { OnOk result (Falls self.old self.new) }
        ensures err { OnErr result (self.new.stage ≡ Stage.Over SessionEnd.NoMemory) }
    {
        match self.take_submitted(submitted) {
            Ok(()) => Ok(()),
            Err(_) => self.give_up(),
        }
    }

    /// Takes how many changes the document has seen.
    pub fn give_front(&mut self, count: u64) -> Result<(), NoMemory>
        requires { (doc : ℕ) × WantsIs self.old.stage (Want.Front doc) }
        ensures leads { OnOk result ((doc : ℕ) → WantsIs self.old.stage (Want.Front doc) → LeadsBy self.old (counted doc count) self.new) }
        ensures tracks { OnOk result ((doc : ℕ) → WantsIs self.old.stage (Want.Front doc) → TracksBy self.old (counted doc count) self.new) }
        ensures settled { OnOk result (IsSettled self.new) }
        ensures names { OnOk result (self.new.names ≡ self.old.names) }
        ensures safe { OnOk result (IsSafe self.old → IsSafe self.new) }
        ensures falls { OnOk result (Falls self.old self.new) }
        ensures err { OnErr result (self.new.stage ≡ Stage.Over SessionEnd.NoMemory) }
    {
        match self.take_front(count) {
            Ok(()) => Ok(()),
            Err(_) => self.give_up(),
        }
    }

    /// Takes that its output was written: it goes on with the next request, or has ended.
    pub fn wrote(&mut self) -> Result<(), NoMemory>
        requires { WantsIs self.old.stage Want.Write }
        ensures leads { OnOk result (LeadsBy self.old (wrote self.old.output) self.new) }
        ensures tracks { OnOk result (TracksBy self.old (wrote self.old.output) self.new) }
        ensures settled { OnOk result (IsSettled self.new) }
        ensures names { OnOk result (self.new.names ≡ self.old.names) }
        ensures safe { OnOk result (IsSafe self.old → IsSafe self.new) }
        ensures falls { OnOk result (Falls self.old self.new) }
        ensures err { OnErr result (self.new.stage ≡ Stage.Over SessionEnd.NoMemory) }
    {
        match self.take_written() {
            Ok(()) => Ok(()),
            Err(_) => self.give_up(),
        }
    }
}
