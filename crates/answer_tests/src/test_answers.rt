// Outcomes, and the answers that are to be written for them.
ghost use Rattle.std.specs.Prelude.{◌≡◌, true};
ghost use Rattle.envelope_read.specs.Callable.{subs_of};

use compact_values::{ExGuid, Guid, NoMemory, Octets, Text};
use doc_model::{Coauthors, Code, Commit, Commits, LockKind, Reply, Submitted};
use envelope_read::{
    Ask, Asks, CellWord, Collection, Depend, Outcome, Outcomes, Skip, SubAsk, SubAsks, What,
};
use envelope_write::write_envelope;
use std::alloc::Global;

pub const FRONT: &str =
    "<?xml version=\"1.0\" encoding=\"utf-8\"?><s:Envelope xmlns:s=\"http://schemas.xmlsoap.org/soap/envelope/\"><s:Body><ResponseVersion Version=\"2\" MinorVersion=\"2\" xmlns=\"http://schemas.microsoft.com/sharepoint/soap/\"/><ResponseCollection WebUrl=\"/\" xmlns=\"http://schemas.microsoft.com/sharepoint/soap/\">";

pub const BACK: &str = "</ResponseCollection></s:Body></s:Envelope>";

/// What became of a subrequest.
#[derive(Clone, Copy)]
pub enum Became<'a> {
    Refused(Code),
    Done,
    Access,
    Locked(Guid, LockKind, Coauthors),
    /// Versions with these moments, by this user.
    Versions(&'a [u64], &'a str),
    Lone(bool),
    Me(&'a str),
    DiskFault,
    JournalFull,
    NoMemory,
    Cell(&'a [u8], CellWord),
    NotSupported,
    BadArgument,
    NoDocument,
    Skipped(Skip),
}

/// A Request: its address, its token, and of each subrequest its token and what became of it.
pub type Request<'a> = (&'a str, &'a str, &'a [(&'a str, Became<'a>)]);

fn versions(alloc: Global, moments: &[u64], user: &str) -> Result<Commits, NoMemory> {
    let mut commits = Commits::new(alloc);
    for moment in moments {
        commits.push(Commit {
            index: ExGuid::Null,
            moment: *moment,
            user: Text::from_str(alloc, user)?,
        })?;
    }
    Ok(commits)
}

fn answered(reply: Reply) -> Submitted {
    Submitted::Answered { reply }
}

fn plain(submitted: Submitted) -> Outcome {
    Outcome::Plain { submitted }
}

fn made(alloc: Global, became: Became) -> Result<Outcome, NoMemory> {
    Ok(match became {
        Became::Refused(code) => plain(answered(Reply::Refused { code })),
        Became::Done => plain(answered(Reply::Done)),
        Became::Access => plain(answered(Reply::Access)),
        Became::Locked(guid, kind, status) => {
            plain(answered(Reply::Locked { guid, kind, status }))
        }
        Became::Versions(moments, user) => plain(answered(Reply::VersionList {
            commits: versions(alloc, moments, user)?,
        })),
        Became::Lone(alone) => plain(answered(Reply::Lone { alone })),
        Became::Me(user) => plain(answered(Reply::Me {
            user: Text::from_str(alloc, user)?,
        })),
        Became::DiskFault => plain(Submitted::DiskFault),
        Became::JournalFull => plain(Submitted::JournalFull),
        Became::NoMemory => plain(Submitted::NoMemory),
        Became::Cell(bytes, word) => Outcome::Cell {
            bytes: Octets::copied_from(alloc, bytes)?,
            word,
        },
        Became::NotSupported => Outcome::NotSupported,
        Became::BadArgument => Outcome::BadArgument,
        Became::NoDocument => Outcome::NoDocument,
        Became::Skipped(why) => Outcome::Skipped { why },
    })
}

/// A subrequest with this token. What it asks doesn't matter to its answer.
fn sub(alloc: Global, token: &str) -> Result<SubAsk, NoMemory> {
    Ok(SubAsk {
        token: Text::from_str(alloc, token)?,
        depend: Depend::Free,
        what: What::NotSupported,
    })
}

/// The Requests, with what became of their subrequests added to `outcomes`.
pub fn asked(
    alloc: Global,
    requests: &[Request],
    outcomes: &mut Outcomes,
) -> Result<Collection, NoMemory> {
    let mut asks = Asks::new(alloc);
    for (url, token, answers) in requests {
        let mut subs = SubAsks::new(alloc);
        for (name, became) in *answers {
            subs.push(sub(alloc, name)?)?;
            outcomes.push(made(alloc, *became)?)?;
        }
        asks.push(Ask {
            url: Text::from_str(alloc, url)?,
            token: Text::from_str(alloc, token)?,
            subs,
        })?;
    }
    Ok(Collection { requests: asks })
}

fn add_all(all: &mut Octets, parts: &[&str]) -> Result<(), NoMemory> {
    for part in parts {
        all.extend_from_slice(part.as_bytes())?;
    }
    Ok(())
}

/// Whether there is one outcome for each subrequest.
pub fn has_one_each(asks: &[Ask], outcomes: usize) -> bool
    ensures { result ≡ true → subs_of asks.now ≡ outcomes }
{
    let mut left = outcomes;
    for ask in asks {
        if ask.subs.len() > left {
            return false;
        }
        left -= ask.subs.len();
    }
    left == 0
}

/// Whether the answer is the texts of these three lists, one behind the other.
pub fn is_answered(
    alloc: Global,
    requests: &[Request],
    front: &[&str],
    wanted: &[&str],
    back: &[&str],
) -> Result<bool, NoMemory> {
    let mut outcomes = Outcomes::new(alloc);
    let collection = asked(alloc, requests, &mut outcomes)?;
    if !has_one_each(collection.requests.as_slice(), outcomes.len()) {
        return Ok(false);
    }
    let text = write_envelope(alloc, &collection, &outcomes)?;
    let mut all = Octets::new(alloc);
    add_all(&mut all, front)?;
    add_all(&mut all, wanted)?;
    add_all(&mut all, back)?;
    Ok(text == all)
}
