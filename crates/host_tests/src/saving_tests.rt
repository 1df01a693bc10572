// Two threads that pull, lock and save one document: what they committed is one chain, from no index to the last one.
ghost use Rattle.std.specs.Thread.{IsSync};
ghost use Rattle.host_tests.specs.Hosts.{IsPassTo};

use crate::test_hosts::{host_of_one, new_document, split_off, submit};
use compact_values::{ExGuid, Guid, Seq};
use doc_host::{Host, Journaled, Pass};
use doc_model::{Code, Knowledge, LockStep, Put, Reply, Sub, Submitted};
use file_nodes::{Chunked, chunk};
use std::alloc::Global;
use std::sync::Wait;
use std::test::Fail;
use std::thread::{Threads, join};

/// How often each thread saves.
const ROUNDS: u32 = 40;

/// The bytes that are written on the disk, and its calls.
const ROOM: usize = 262_144;

const DISK_CALLS: usize = 4_096;

/// For how long a lock is asked.
const HOUR: u64 = 3_600;

const FILE: &[u8; 64] = &[0x5A; 64];

/// The GUIDs under which files are saved begin here, and those of the second thread further on.
const SAVES: u128 = 0x1000;

const APART: u128 = 0x1000;

// A commit: on which index it was made, and which it is.
#[derive(Clone, Copy)]
struct Link {
    from: ExGuid,
    to: ExGuid,
}

// What a thread brings back: its pass, what it committed, and how often something was said that mustn't be.
#[derive(Drop)]
struct Course<J: Journaled> {
    pass: Pass<J>,
    links: Vec<Link>,
    faults: u32,
}

// What became of a save.
#[derive(Clone, Copy, PartialEq, Eq)]
enum Saved {
    Stored,
    // on an index that isn't the stored one any more
    Late,
    // without the lock that another has
    Locked,
    Other,
}

fn became_of(submitted: Option<Submitted>) -> Saved {
    let Some(Submitted::Answered { reply }) = submitted else {
        return Saved::Other;
    };
    match reply {
        Reply::Stored { .. } => Saved::Stored,
        Reply::Refused {
            code: Code::Coherency,
        } => Saved::Late,
        Reply::Refused {
            code: Code::AlreadyLocked,
        } => Saved::Locked,
        _ => Saved::Other,
    }
}

// Whether a step of the lock was done.
fn is_done(submitted: Option<Submitted>) -> bool {
    match submitted {
        Some(
            Submitted::Answered {
                reply: Reply::Done | Reply::Locked { .. },
            },
        ) => true,
        _ => false,
    }
}

// The stored index, by a pull.
fn pulled<J: Journaled, R: Wait>(
    rt: &R,
    alloc: Global,
    host: &Host<J>,
    pass: &mut Pass<J>,
) -> Option<ExGuid>
    requires { IsPassTo 1 host.now pass.old }
    ensures { IsPassTo 1 host.now pass.new }
{
    let knowledge = Knowledge {
        ranges: Seq::new(alloc),
    };
    match submit(rt, alloc, host, pass, 0, Sub::Pull { knowledge }) {
        Some(
            Submitted::Answered {
                reply: Reply::Pulled { index, .. },
            },
        ) => Some(index),
        _ => None,
    }
}

// A save of a small file, made from this index.
fn put_on(
    alloc: Global,
    expected: ExGuid,
    lock: Option<Guid>,
    guid: Guid,
) -> Option<(ExGuid, Sub)> {
    let Chunked {
        index,
        elements,
        ..
    } = chunk(alloc, FILE.as_slice(), guid, 1).ok()?;
    let put = Put {
        index,
        expected,
        imply_null: false,
        partial: false,
        last: true,
        last_writer_wins: false,
        carried: lock,
        elements,
    };
    Some((index, Sub::Put { put }))
}

// Pulls, and saves on what was pulled.
fn save_once<J: Journaled, R: Wait>(
    rt: &R,
    alloc: Global,
    host: &Host<J>,
    pass: &mut Pass<J>,
    lock: Option<Guid>,
    guid: Guid,
) -> Option<(Link, Saved)>
    requires { IsPassTo 1 host.now pass.old }
    ensures { IsPassTo 1 host.now pass.new }
{
    let from = pulled(rt, alloc, host, pass)?;
    let (to, put) = put_on(alloc, from, lock, guid)?;
    let submitted = submit(rt, alloc, host, pass, 0, put);
    Some((Link { from, to }, became_of(submitted)))
}

// Takes the lock, saves under it, and gives it back. Nobody else can have committed behind the pull. None where it is another's.
fn save_locked<J: Journaled, R: Wait>(
    rt: &R,
    alloc: Global,
    host: &Host<J>,
    pass: &mut Pass<J>,
    id: Guid,
    guid: Guid,
) -> Option<(Link, Saved)>
    requires { IsPassTo 1 host.now pass.old }
    ensures { IsPassTo 1 host.now pass.new }
{
    let step = LockStep::TakeExclusive { id, timeout: HOUR };
    if !is_done(submit(rt, alloc, host, pass, 0, Sub::Lock { step })) {
        return None;
    }
    let (link, said) = save_once(rt, alloc, host, pass, Some(id), guid)?;
    let step = LockStep::DropExclusive { id };
    let dropped = is_done(submit(rt, alloc, host, pass, 0, Sub::Lock { step }));
    if dropped && said == Saved::Stored {
        Some((link, Saved::Stored))
    } else {
        Some((link, Saved::Other))
    }
}

// Reads the front, saves, and reads it again: it has grown by what was committed at least.
fn save_between_fronts<J: Journaled, R: Wait>(
    rt: &R,
    alloc: Global,
    host: &Host<J>,
    pass: &mut Pass<J>,
    round: u32,
) -> Option<(Link, Saved)>
    requires { IsPassTo 1 host.now pass.old }
    ensures { IsPassTo 1 host.now pass.new }
{
    let number = pass.number() as u128;
    let id = Guid { number: 1 + number };
    let guid = Guid {
        number: SAVES + APART * number + round as u128,
    };
    let before = host.front(pass, 0);
    let made = if round % 2 == 0 {
        save_once(rt, alloc, host, pass, None, guid)
    } else {
        save_locked(rt, alloc, host, pass, id, guid)
    };
    let after = host.front(pass, 0);
    match made {
        Some((link, Saved::Stored)) if after <= before => Some((link, Saved::Other)),
        _ => made,
    }
}

// All saves of one thread.
fn save_many<J: Journaled, R: Wait>(
    rt: &R,
    alloc: Global,
    host: &Host<J>,
    mut pass: Pass<J>,
) -> Course<J>
    requires { IsPassTo 1 host.now pass }
    ensures { IsPassTo 1 host.now result.pass }
{
    let mut links = Vec::new(alloc);
    let mut faults = 0u32;
    for round in 0..ROUNDS {
        let fine = match save_between_fronts(rt, alloc, host, &mut pass, round) {
            Some((link, Saved::Stored)) => links.push(link).is_ok(),
            Some((_, Saved::Other)) => false,
            _ => true,
        };
        if !fine {
            faults = faults.saturating_add(1);
        }
    }
    Course {
        pass,
        links,
        faults,
    }
}

fn save_in_two_threads<J: Journaled + Send, R: Threads + Wait + Sync>(
    rt: &R,
    alloc: Global,
    host: &Host<J>,
    first: Pass<J>,
    second: Pass<J>,
) -> (Course<J>, Course<J>)
    requires { IsPassTo 1 host.now first × IsPassTo 1 host.now second }
    ensures { IsPassTo 1 host.now result.0.pass × IsPassTo 1 host.now result.1.pass }
{
    join(
        rt,
        || -> Course<J>
            requires { IsSync R.row × IsPassTo 1 host.now first }
            ensures { IsPassTo 1 host.entry.now result.pass }
        { save_many(rt, alloc, host, first) },
        || -> Course<J>
            requires { IsSync R.row × IsPassTo 1 host.now second }
            ensures { IsPassTo 1 host.entry.now result.pass }
        { save_many(rt, alloc, host, second) },
    )
}

// The index that the only commit on this one has. None where there is no commit on it, or more than one.
fn next_of(links: &[Link], from: ExGuid) -> Option<ExGuid> {
    let mut found = None;
    for link in links.iter() {
        if link.from == from {
            if found.is_some() {
                return None;
            }
            found = Some(link.to);
        }
    }
    found
}

// The end of the chain that these commits are, from no index on. None where they are no chain.
fn end_of(links: &[Link]) -> Option<ExGuid> {
    let mut at = ExGuid::Null;
    for _ in 0..links.len() {
        at = next_of(links, at)?;
    }
    Some(at)
}

// One run on a new document: the end of the chain of all commits, the stored index, and how many commits and faults there were.
fn run_once<R: Threads + Wait + Sync>(
    rt: &R,
    alloc: Global,
) -> Option<(Option<ExGuid>, ExGuid, usize, u32)> {
    let doc = new_document(alloc, ROOM, DISK_CALLS)?;
    let (host, mut first) = host_of_one(alloc, doc, 2)?;
    let second = split_off(alloc, &host, &mut first)?;
    let (one, other) = save_in_two_threads(rt, alloc, &host, first, second);
    let faults = one.faults.saturating_add(other.faults);
    let mut links = one.links;
    links.extend_from_slice(other.links.as_slice()).ok()?;
    let mut all = one.pass;
    host.join_pass(&mut all, other.pass);
    let stored = pulled(rt, alloc, &host, &mut all)?;
    Some((end_of(links.as_slice()), stored, links.len(), faults))
}

#[test]
fn saves_of_two_threads_are_one_chain(rt: HostRuntime) -> Result<(), Fail> {
    let Some((end, stored, commits, faults)) = run_once(&rt, rt.alloc()) else {
        panic!(&rt; "a run needs memory")
    };
    assert!(rt; faults == 0 && commits >= 1 && end == Some(stored));
    Ok(())
}
