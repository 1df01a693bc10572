// The top call: all that the program does, over the objects that are handed in.
ghost use Rattle.std.specs.Prelude.{◌≡◌};
ghost use Rattle.cell_host.specs.Command.{command_in};
ghost use Rattle.cell_host.specs.Run.{Runs, Tells};
ghost use Rattle.cell_host.specs.Status.{code_of};

use crate::answer::answer;
use crate::command::{Command, parse_words};
use crate::replay::replay;
use crate::status::Status;
use host_edge::{Clock, Sink, Source, write_all};
use std::alloc::Global;

// Does what the words ask for, but for the line that tells the status.
#[tactic(auto, using(crate::proofs::Unrun::nothing_run))]
fn run<S: Source, K: Sink, C: Clock>(
    alloc: Global,
    words: &[&str],
    source: &mut S,
    out: &mut K,
    clock: &mut C,
) -> Status
    ensures { Runs (command_in words.now)
        (record {
          left = S.left source.old;
          taken = S.taken source.old;
          read_faults = S.faults source.old;
          held = K.held out.old;
          write_faults = K.faults out.old;
          told = C.told clock.old;
        })
        (record {
          left = S.left source.new;
          taken = S.taken source.new;
          read_faults = S.faults source.new;
          held = K.held out.new;
          write_faults = K.faults out.new;
          told = C.told clock.new;
        })
        result }
{
    let Ok(command) = parse_words(alloc, words) else {
        return Status::NoMemory;
    };
    match command {
        Some(Command::Answer(guid)) => answer(alloc, guid, source, out, clock),
        Some(Command::Replay) => replay(alloc, source, out, clock),
        None => Status::Usage,
    }
}

/// Tells a status by its line to `err`, whose faults are ignored, and answers the number that the process ends with.
pub fn tell<E: Sink>(err: &mut E, status: Status) -> u8
    ensures code { result ≡ code_of status }
    ensures tells { Tells status (E.held err.old) (E.held err.new) (E.faults err.old) (E.faults err.new) }
{
    let _ = write_all(err, status.line());
    status.code()
}

/// Runs the command of the words, over the objects that are handed in, and answers the number that the process ends
/// with. A status other than 0 is told by one line to `err`, whose faults are ignored.
pub fn host_once<S: Source, K: Sink, E: Sink, C: Clock>(
    alloc: Global,
    words: &[&str],
    source: &mut S,
    out: &mut K,
    err: &mut E,
    clock: &mut C,
) -> u8
    ensures { (status : Status) × (result ≡ code_of status)
        × Runs (command_in words.now)
        (record {
          left = S.left source.old;
          taken = S.taken source.old;
          read_faults = S.faults source.old;
          held = K.held out.old;
          write_faults = K.faults out.old;
          told = C.told clock.old;
        })
        (record {
          left = S.left source.new;
          taken = S.taken source.new;
          read_faults = S.faults source.new;
          held = K.held out.new;
          write_faults = K.faults out.new;
          told = C.told clock.new;
        })
        status
        × Tells status (E.held err.old) (E.held err.new) (E.faults err.old) (E.faults err.new) }
{
    let status = run(alloc, words, source, out, clock);
    tell(err, status)
}
