ghost use Rattle.std.specs.Prelude.{◌≡◌};
ghost use Rattle.dependency_runner.specs.Deciding.{state_of};

use compact_values::{Seq, Text};
use doc_model::{Reply, Submitted};
use envelope_read::{CellWord, Outcome};

/// What became of a subrequest, as far as others depend on it.
#[derive(Clone, Copy, Debug, PartialEq, Eq)]
pub enum State {
    /// It is answered with the ErrorCode Success.
    Success,
    /// It is answered with an ErrorCode that the other three don't name.
    Failed,
    /// It is answered with the ErrorCode RequestNotSupported.
    Unsupported,
    /// It was not executed, because of one that it depends on.
    NotExecuted,
}

/// An earlier subrequest of the same Request.
#[derive(Debug, Drop, PartialEq, Eq)]
pub struct Before {
    pub token: Text,
    pub state: State,
}

/// The earlier subrequests of the same Request, in order.
pub type Befores = Seq<Before>;

/// What became of a subrequest, for those that depend on it.
pub fn state_of(outcome: &Outcome) -> State
    ensures { result ≡ state_of outcome.now }
{
    match outcome {
        Outcome::Plain { submitted } => match submitted {
            Submitted::Answered { reply } => match reply {
                Reply::Refused { code: _ } => State::Failed,
                _ => State::Success,
            },
            _ => State::Failed,
        },
        Outcome::Cell { bytes: _, word } => match word {
            CellWord::Fine => State::Success,
            _ => State::Failed,
        },
        Outcome::NotSupported => State::Unsupported,
        Outcome::BadArgument | Outcome::NoDocument => State::Failed,
        Outcome::Skipped { why: _ } => State::NotExecuted,
    }
}
