// How far a session is.
ghost use Rattle.std.specs.Prelude.{◌≡◌, ◌⊎◌};
ghost use Rattle.std.specs.List.{list_any};
ghost use Rattle.http_head.specs.Heads.{is_text};
ghost use Rattle.session_loop.specs.Sessions.{WantsIs, EndIs};

use crate::want::{SessionEnd, Want};
use http_head::Route;

/// How far a session is. `close` says that the request asked for the connection to close.
#[derive(Clone, Copy, Debug, PartialEq, Eq)]
pub enum Stage {
    /// The head of a request comes.
    Heading,
    /// Its body comes.
    InBody { route: Route, close: bool },
    /// The request is whole, and the moment is to be told.
    Timing { route: Route, close: bool },
    /// A call of the envelope is out, on this document.
    Running { doc: usize, close: bool },
    /// The call for the file of this document is out.
    Filing { doc: usize, close: bool },
    /// The count of this document is to be given.
    Fronting { doc: usize, close: bool },
    /// The answer is to be written, and then the session ends so or goes on.
    Writing { next: Option<SessionEnd> },
    /// The session has ended.
    Over { end: SessionEnd },
}

fn has_text(bytes: &[u8]) -> bool
    ensures { result ≡ list_any is_text bytes.now }
{
    bytes.iter().any(|byte| *byte != b'\r' && *byte != b'\n')
}

// How a session ends where its source does, with these bytes not used yet.
pub(crate) fn end_of(stage: Stage, input: &[u8]) -> SessionEnd
    ensures is { EndIs stage input.now result }
    ensures between { (result ≡ SessionEnd.Ended) ⊎ (result ≡ SessionEnd.CutOff) }
{
    match stage {
        Stage::Heading => {
            if has_text(input) {
                SessionEnd::CutOff
            } else {
                SessionEnd::Ended
            }
        }
        _ => SessionEnd::CutOff,
    }
}

pub(crate) fn want_of(stage: Stage) -> Want
    ensures { WantsIs stage result }
{
    match stage {
        Stage::Heading => Want::Bytes,
        Stage::InBody { route: _, close: _ } => Want::Bytes,
        Stage::Timing { route: _, close: _ } => Want::Moment,
        Stage::Running { doc, close: _ } => Want::Submit { doc },
        Stage::Filing { doc, close: _ } => Want::Submit { doc },
        Stage::Fronting { doc, close: _ } => Want::Front { doc },
        Stage::Writing { next: _ } => Want::Write,
        Stage::Over { end } => Want::End { end },
    }
}
