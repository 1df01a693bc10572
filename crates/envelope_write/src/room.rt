// How much room an answer takes, so that it doesn't grow by doubling: its binaries are counted, each text as if all of it
// were written as references, and for the rest of each element about what it takes. Where it is too little the answer grows.
ghost use Rattle.std.specs.Prelude.{◌≡◌, IfOk, []};

use crate::base::base64_len;
use compact_values::{NoMemory, Text};
use doc_model::{Commit, Reply, Submitted};
use envelope_read::{Ask, Collection, Outcome, Outcomes};
use std::alloc::Global;

/// About what the tags of an answer, of a Response, of a SubResponse or of a version take.
const TAGS: usize = 1_024;

/// The bytes of the longest reference.
const REFERENCE: usize = 6;

fn text_room(text: &Text) -> usize {
    text.len().saturating_mul(REFERENCE)
}

fn commits_room(commits: &[Commit]) -> usize {
    let mut room = 0_usize;
    for commit in commits {
        room = room
            .saturating_add(TAGS)
            .saturating_add(text_room(&commit.user));
    }
    room
}

fn outcome_room(outcome: &Outcome) -> usize {
    match outcome {
        Outcome::Cell { bytes, .. } => base64_len(bytes.len()),
        Outcome::Plain {
            submitted: Submitted::Answered { reply },
        } => match reply {
            Reply::VersionList { commits } => commits_room(commits.as_slice()),
            Reply::Me { user } => text_room(user).saturating_mul(2),
            _ => 0,
        },
        _ => 0,
    }
}

fn outcomes_room(outcomes: &[Outcome]) -> usize {
    let mut room = TAGS;
    for outcome in outcomes {
        room = room
            .saturating_add(TAGS)
            .saturating_add(outcome_room(outcome));
    }
    room
}

fn ask_room(ask: &Ask) -> usize {
    let mut room = text_room(&ask.url)
        .saturating_add(text_room(&ask.token))
        .saturating_add(TAGS);
    for sub in ask.subs.as_slice() {
        room = room.saturating_add(text_room(&sub.token));
    }
    room
}

fn asks_room(asks: &[Ask]) -> usize {
    let mut room = 0_usize;
    for ask in asks {
        room = room.saturating_add(ask_room(ask));
    }
    room
}

/// An empty text with room for the answer.
pub(crate) fn with_room(
    alloc: Global,
    collection: &Collection,
    outcomes: &Outcomes,
) -> Result<Vec<u8>, NoMemory>
    ensures { IfOk result (λ out. out.items ≡ []) }
{
    let room = asks_room(collection.requests.as_slice());
    Ok(Vec::with_capacity(
        alloc,
        room.saturating_add(outcomes_room(outcomes.as_slice())),
    )?)
}
