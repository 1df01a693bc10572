// Four threads on one document, many times: what they were told can have been told by one thread.
ghost use Rattle.std.specs.Prelude.{All, IfOk};
ghost use Rattle.std.specs.Thread.{IsSync};
ghost use Rattle.host_tests.specs.Hosts.{IsPassTo};

use crate::replies::{CALLERS, Told, is_one_thread};
use crate::test_hosts::{host_of_one, new_document, split_off, submit};
use compact_values::Guid;
use doc_host::{Host, Journaled, Pass};
use doc_model::{Code, LockStep, Reply, Sub, Submitted};
use std::alloc::{AllocError, Global};
use std::sync::Wait;
use std::test::Fail;
use std::thread::{Threads, map_vec};

/// How often the threads run in each of the four tests, 10,000 times in all, and how many calls each makes in a run.
const RUNS: u32 = 2_500;

const CALLS: u32 = 20;

/// The bytes that are written on the disk of a run, and its calls.
const ROOM: usize = 8_192;

const DISK_CALLS: usize = 512;

/// For how long a lock is asked.
const HOUR: u64 = 3_600;

// What a thread brings back: its pass, and what it was told.
#[derive(Drop)]
struct Course<J: Journaled> {
    pass: Pass<J>,
    told: Vec<Told>,
}

// What a reply says.
fn told_of(submitted: Option<Submitted>) -> Told {
    let Some(Submitted::Answered { reply }) = submitted else {
        return Told::Other;
    };
    match reply {
        Reply::Drawn { least, .. } => Told::Drawn { number: least },
        Reply::Locked { .. } => Told::Taken,
        Reply::Done => Told::Dropped,
        Reply::Refused {
            code: Code::AlreadyLocked,
        } => Told::Refused,
        _ => Told::Other,
    }
}

// One call of the thread with this pass, whose kind goes by the round: a number, the lock or its end, or the front.
fn call_once<J: Journaled, R: Wait>(
    rt: &R,
    alloc: Global,
    host: &Host<J>,
    pass: &mut Pass<J>,
    round: u32,
    holds: bool,
) -> Told
    requires { IsPassTo 1 host.now pass.old }
    ensures { IsPassTo 1 host.now pass.new }
{
    let id = Guid {
        number: 1 + pass.number() as u128,
    };
    let kind = (round % 4 + pass.number() % 4) % 4;
    if kind == 0 {
        return Told::Front {
            count: host.front(pass, 0),
        };
    }
    if kind == 1 {
        let submitted = submit(rt, alloc, host, pass, 0, Sub::Draw { count: 1 });
        return told_of(submitted);
    }
    let step = if holds {
        LockStep::DropExclusive { id }
    } else {
        LockStep::TakeExclusive { id, timeout: HOUR }
    };
    let submitted = submit(rt, alloc, host, pass, 0, Sub::Lock { step });
    told_of(submitted)
}

// All calls of one thread.
fn call_many<J: Journaled, R: Wait>(
    rt: &R,
    alloc: Global,
    host: &Host<J>,
    mut pass: Pass<J>,
) -> Course<J>
    requires { IsPassTo 1 host.now pass }
    ensures { IsPassTo 1 host.now result.pass }
{
    let mut told = Vec::new(alloc);
    let mut holds = false;
    for round in 0..CALLS {
        let said = call_once(rt, alloc, host, &mut pass, round, holds);
        match said {
            Told::Taken => holds = true,
            Told::Dropped => holds = false,
            _ => {}
        }
        if told.push(said).is_err() {
            break;
        }
    }
    Course { pass, told }
}

// The passes of all callers, the first of which is cut.
fn split_all<J: Journaled>(
    alloc: Global,
    host: &Host<J>,
    first: Pass<J>,
) -> Result<Vec<Pass<J>>, AllocError>
    requires { IsPassTo 1 host.now first }
    ensures { IfOk result (λ v. All (IsPassTo 1 host.now) v.items) }
{
    let mut first = first;
    let mut passes = Vec::new(alloc);
    for _ in 1..CALLERS {
        let Some(pass) = split_off(alloc, host, &mut first) else {
            break;
        };
        passes.push(pass)?;
    }
    passes.push(first)?;
    Ok(passes)
}

// Each pass calls in a thread of its own.
fn call_in_threads<J: Journaled + Send, R: Threads + Wait + Sync>(
    rt: &R,
    alloc: Global,
    host: &Host<J>,
    passes: Vec<Pass<J>>,
) -> Result<Vec<Course<J>>, AllocError>
    requires { All (IsPassTo 1 host.now) passes.items }
    ensures { IfOk result (λ v. All (λ c. IsPassTo 1 host.now c.pass) v.items) }
{
    map_vec(
        rt,
        passes,
        &|pass: Pass<J>| -> Course<J>
            requires { IsSync R.row × IsPassTo 1 host.now pass }
            ensures { IsPassTo 1 host.entry.now result.pass }
        { call_many(rt, alloc, host, pass) },
    )
}

// What all threads were told. None where they told less.
fn all_told<J: Journaled>(alloc: Global, courses: Vec<Course<J>>) -> Option<Vec<Vec<Told>>> {
    let mut told = Vec::new(alloc);
    for course in courses {
        told.push(course.told).ok()?;
    }
    if told.len() == CALLERS {
        Some(told)
    } else {
        None
    }
}

// One run on a new document: whether its threads can have been one.
fn run_once<R: Threads + Wait + Sync>(rt: &R, alloc: Global) -> Option<bool> {
    let doc = new_document(alloc, ROOM, DISK_CALLS)?;
    let (host, first) = host_of_one(alloc, doc, CALLERS as u32)?;
    let passes = split_all(alloc, &host, first).ok()?;
    let courses = call_in_threads(rt, alloc, &host, passes).ok()?;
    let told = all_told(alloc, courses)?;
    is_one_thread(alloc, told.as_slice()).ok()
}

// In how many runs the threads can have been one.
fn good_runs<R: Threads + Wait + Sync>(rt: &R, alloc: Global) -> u32 {
    let mut good = 0u32;
    for _ in 0..RUNS {
        if run_once(rt, alloc) == Some(true) {
            good = good.saturating_add(1);
        }
    }
    good
}

#[test]
fn threads_are_told_what_one_thread_could_be(rt: HostRuntime) -> Result<(), Fail> {
    assert!(rt; good_runs(&rt, rt.alloc()) == RUNS);
    Ok(())
}

#[test]
fn threads_are_told_so_a_second_time(rt: HostRuntime) -> Result<(), Fail> {
    assert!(rt; good_runs(&rt, rt.alloc()) == RUNS);
    Ok(())
}

#[test]
fn threads_are_told_so_a_third_time(rt: HostRuntime) -> Result<(), Fail> {
    assert!(rt; good_runs(&rt, rt.alloc()) == RUNS);
    Ok(())
}

#[test]
fn threads_are_told_so_a_fourth_time(rt: HostRuntime) -> Result<(), Fail> {
    assert!(rt; good_runs(&rt, rt.alloc()) == RUNS);
    Ok(())
}

// What two callers are told, and no others.
fn told_two(alloc: Global, first: &[Told], second: &[Told]) -> Option<Vec<Vec<Told>>> {
    let mut told = Vec::new(alloc);
    told.push(first.to_vec(alloc).ok()?).ok()?;
    told.push(second.to_vec(alloc).ok()?).ok()?;
    Some(told)
}

fn can_be_told(alloc: Global, first: &[Told], second: &[Told]) -> Option<bool> {
    is_one_thread(alloc, told_two(alloc, first, second)?.as_slice()).ok()
}

#[test]
fn what_one_thread_could_not_be_told_is_found(rt: HostRuntime) -> Result<(), Fail> {
    let one = Told::Drawn { number: 1 };
    let two = Told::Drawn { number: 2 };
    let none = Told::Front { count: 0 };
    let all = Told::Front { count: 2 };
    let alloc = rt.alloc();
    assert!(rt; can_be_told(alloc, &[one, all], &[none, two]) == Some(true));
    assert!(rt; can_be_told(alloc, &[one], &[one]) == Some(false));
    assert!(rt; can_be_told(alloc, &[two], &[one, all, none]) == Some(false));
    assert!(rt; can_be_told(alloc, &[one, none], &[two]) == Some(false));
    assert!(rt;
        can_be_told(
            alloc,
            &[Told::Taken, Told::Dropped],
            &[Told::Taken, Told::Refused]
        ) == Some(false)
    );
    assert!(rt;
        can_be_told(
            alloc,
            &[Told::Taken, Told::Dropped],
            &[Told::Refused, Told::Taken]
        ) == Some(true)
    );
    assert!(rt; can_be_told(alloc, &[Told::Taken], &[Told::Taken]) == Some(false));
    assert!(rt; can_be_told(alloc, &[Told::Dropped], &[]) == Some(false));
    assert!(rt; can_be_told(alloc, &[Told::Other], &[]) == Some(false));
    Ok(())
}
