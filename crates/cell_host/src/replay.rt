// The command `replay`: one connection, over a new document in memory.
ghost use Rattle.std.specs.Prelude.{◌≡◌, All, IfOk, map};
ghost use Rattle.doc_model.specs.rules.Sound.{Sound};
ghost use Rattle.plain_core.specs.Keeping.{doc_of};
ghost use Rattle.cell_host.specs.Replaying.{Replays, document_names, new_documents, status_of};

use crate::status::Status;
use compact_values::{Guid, Names, NoMemory, Text};
use doc_model::laws::every_call_keeps_sound;
use host_edge::{Clock, Sink, Source};
use plain_core::PlainCore;
use session_loop::{CoreDoc, LoneDocs, SessionEnd, drive_lone};
use std::alloc::Global;

/// The GUID of the document.
const DOCUMENT: Guid = Guid {
    number: 0x0011_2233_4455_6677_8899_aabb_ccdd_eeff,
};

// The new document, under its name.
fn new_docs(alloc: Global) -> Result<LoneDocs<PlainCore>, NoMemory>
    ensures names { IfOk result (λ docs. docs.names ≡ document_names) }
    ensures docs { IfOk result (λ docs. map (λ d. record { doc = doc_of d.core; front = d.front }) docs.docs.items ≡ new_documents) }
    ensures sound { IfOk result (λ docs. All (λ d. Sound (doc_of d.core)) docs.docs.items) }
{
    every_call_keeps_sound();
    let mut names = Names::new(alloc);
    names.push(Text::from_str(alloc, "a.docx")?)?;
    let mut docs = Vec::new(alloc);
    docs.push(CoreDoc::new(PlainCore::new(alloc, DOCUMENT)?))?;
    Ok(LoneDocs { names, docs })
}

// How a run ends whose connection ended so.
fn status_of(end: SessionEnd) -> Status
    ensures { result ≡ status_of end }
{
    match end {
        SessionEnd::Ended => Status::Done,
        SessionEnd::CutOff => Status::Refused,
        SessionEnd::Refused { status: _ } => Status::Refused,
        SessionEnd::ReadFault => Status::ReadFault,
        SessionEnd::WriteFault => Status::WriteFault,
        SessionEnd::NoMemory => Status::NoMemory,
    }
}

/// Serves the connection of the source over a new document in memory, and writes its answers. The clock is asked once for
/// each request that is whole.
pub fn replay<S: Source, K: Sink, C: Clock>(
    alloc: Global,
    source: &mut S,
    out: &mut K,
    clock: &mut C,
) -> Status
    ensures { Replays
        (record {
          left = S.left source.old;
          taken = S.taken source.old;
          read_faults = S.faults source.old;
          held = K.held out.old;
          write_faults = K.faults out.old;
          told = C.told clock.old;
        })
        (record {
          left = S.left source.new;
          taken = S.taken source.new;
          read_faults = S.faults source.new;
          held = K.held out.new;
          write_faults = K.faults out.new;
          told = C.told clock.new;
        })
        result }
{
    let Ok(mut docs) = new_docs(alloc) else {
        return Status::NoMemory;
    };
    status_of(drive_lone(alloc, &mut docs, source, out, clock))
}
