// Envelopes that are run on two documents.
use crate::test_documents::{Change, Document};
use collection_run::Runner;
use compact_values::{Guid, Names, NoMemory, Octets, Text};
use doc_model::{Call, Reply, Sub, Submitted};
use envelope_read::{EnvelopeFault, read_envelope};
use std::alloc::Global;

/// The GUIDs of the documents.
pub const G: Guid = Guid {
    number: 0x0011_2233_4455_6677_8899_aabb_ccdd_eeff,
};

pub const H: Guid = Guid { number: 0x48 };

/// How many calls an envelope makes at most: 64 subrequests of 64 calls each.
const MOST_CALLS: usize = 4096;

/// Why an envelope has no answer.
#[derive(Clone, Copy, Debug, PartialEq, Eq)]
pub enum Fault {
    Envelope(EnvelopeFault),
    NoMemory,
    /// A call was made that may not be made, or of no document, or one too many.
    NotValid,
}

impl From<NoMemory> for Fault {
    fn from(_fault: NoMemory) -> Fault {
        Fault::NoMemory
    }
}

impl From<EnvelopeFault> for Fault {
    fn from(fault: EnvelopeFault) -> Fault {
        Fault::Envelope(fault)
    }
}

/// The documents `a.docx` and `b.docx`.
#[derive(Drop)]
pub struct Host {
    alloc: Global,
    names: Names,
    user: Text,
    first: Document,
    second: Document,
}

impl Host {
    ghost use Rattle.std.specs.Prelude.{IfOk};
    ghost use Rattle.doc_model.specs.rules.Histories.{Fits};

    /// Two documents without anything, for envelopes by `ann`.
    pub fn new(alloc: Global) -> Result<Host, NoMemory> {
        let mut names = Names::new(alloc);
        names.push(Text::from_str(alloc, "a.docx")?)?;
        names.push(Text::from_str(alloc, "b.docx")?)?;
        Ok(Host {
            alloc,
            names,
            user: Text::from_str(alloc, "ann")?,
            first: Document::new(alloc, G)?,
            second: Document::new(alloc, H)?,
        })
    }

    pub fn alloc(&self) -> Global {
        self.alloc
    }

    fn submit(&mut self, change: Change, doc: usize, call: &Call) -> Result<Submitted, Fault>
        ensures { IfOk result (Fits call.now) }
    {
        let submitted = match doc {
            0 => self.first.submit(change, call),
            1 => self.second.submit(change, call),
            _ => None,
        };
        match submitted {
            Some(submitted) => Ok(submitted),
            None => Err(Fault::NotValid),
        }
    }

    /// The file of `a.docx`.
    pub fn file(&mut self) -> Result<Octets, Fault> {
        let call = Call {
            moment: 0,
            user: Text::new(self.alloc),
            sub: Sub::ReadFile,
        };
        match self.first.submit(Change::Done, &call) {
            Some(
                Submitted::Answered {
                    reply: Reply::File { bytes },
                },
            ) => Ok(bytes),
            _ => Err(Fault::NotValid),
        }
    }

    /// What an envelope is answered at a moment.
    pub fn run(&mut self, moment: u64, change: Change, text: &[u8]) -> Result<Octets, Fault> {
        let collection = read_envelope(self.alloc, text)?;
        let mut runner = Runner::new(self.alloc, collection, &self.names, moment, &self.user)?;
        'calling: for _ in 0..MOST_CALLS {
            match runner.next()? {
                Some(doc) => {
                    let submitted = self.submit(change, doc, runner.call())?;
                    runner.give(submitted)?;
                }
                None => return Ok(runner.finish()?),
            }
        }
        Err(Fault::NotValid)
    }
}
