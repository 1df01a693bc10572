ghost use Rattle.std.specs.Prelude.{◌≡◌};
ghost use Rattle.dependency_runner.specs.Deciding.{behind, decide, latest};

use crate::state::{Before, Befores, State};
use compact_values::{Same, Text};
use envelope_read::{Depend, DependWord, Skip};

/// Whether a subrequest is run.
#[derive(Clone, Copy, Debug, PartialEq, Eq)]
pub enum Decision {
    Run,
    Skip { why: Skip },
}

/// The state of the latest with this token. None where there is none.
fn latest(token: &Text, earlier: &[Before]) -> Option<State>
    ensures { result ≡ latest token.now earlier.now }
{
    let mut found = None;
    for before in earlier {
        if before.token.same(token) {
            found = Some(before.state);
        }
    }
    found
}

/// Whether one with this word is run behind one that came out so.
fn behind(word: DependWord, state: State) -> Decision
    ensures { result ≡ behind word state }
{
    match (word, state) {
        (_, State::NotExecuted) => Decision::Skip {
            why: Skip::NotExecuted,
        },
        (DependWord::OnExecute, _)
        | (DependWord::OnSuccess | DependWord::OnSuccessOrNotSupported, State::Success)
        | (DependWord::OnNotSupported | DependWord::OnSuccessOrNotSupported, State::Unsupported)
        | (DependWord::OnFail, State::Failed | State::Unsupported) => Decision::Run,
        (DependWord::OnSuccess | DependWord::OnSuccessOrNotSupported, _) => Decision::Skip {
            why: Skip::OnSuccessFailed,
        },
        (DependWord::OnFail, State::Success) => Decision::Skip {
            why: Skip::OnFailSucceeded,
        },
        (DependWord::OnNotSupported, _) => Decision::Skip {
            why: Skip::OnNotSupportedSupported,
        },
    }
}

/// Whether a subrequest is run that depends so, behind these of its Request. It takes no memory.
pub fn decide(depend: &Depend, earlier: &Befores) -> Decision
    ensures { result ≡ decide depend.now earlier.now }
{
    match depend {
        Depend::Free => Decision::Run,
        Depend::Bad => Decision::Skip {
            why: Skip::BadDependency,
        },
        Depend::On { token, word } => match latest(token, earlier.as_slice()) {
            Some(state) => behind(*word, state),
            None => Decision::Skip {
                why: Skip::BadDependency,
            },
        },
    }
}
