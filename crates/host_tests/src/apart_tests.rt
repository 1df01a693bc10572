// A pull of a document while another one is saved isn't held up.
ghost use Rattle.std.specs.Prelude.{◌≡◌, ◌<◌, [], IfSome};
ghost use Rattle.std.specs.Thread.{IsSync};
ghost use Rattle.host_tests.specs.Hosts.{IsPassTo};
ghost use Rattle.journaled_doc.specs.Docs.{history};

use crate::test_hosts::{Kept, host_of_two, new_document, split_off, submit};
use compact_values::Seq;
use doc_host::{Host, Journaled, Pass};
use doc_model::{Call, Knowledge, Reply, Sub, Submitted};
use std::alloc::Global;
use std::sync::atomic::{AtomicU64, Ordering};
use std::sync::{Arc, Wait};
use std::test::Fail;
use std::thread::{Threads, join};

/// The bytes that are written on a disk, and its calls.
const ROOM: usize = 4_096;

const DISK_CALLS: usize = 64;

/// How often a call looks whether it may go on, and then goes on all the same.
const LOOKS: u64 = 2_000_000_000;

/// How far the two calls are: the change of the first document is under way; the pull of the second was made; the change was made.
const UNDER_WAY: u64 = 1;

const PULLED: u64 = 2;

const CHANGED: u64 = 3;

// Which of the two documents it is.
#[derive(Clone, Copy)]
enum Part {
    Changed,
    Pulled,
}

// A document whose calls take their time. A change is under way until the pull of the other document was made, and that pull
// waits until the change is under way.
#[derive(Drop)]
struct Slow<J: Journaled> {
    doc: J,
    part: Part,
    far: Arc<AtomicU64, Global>,
    // whether a call went on without what it waited for
    gave_up: bool,
}

impl<J: Journaled> Slow<J> {
    ghost use Rattle.std.specs.Prelude.{◌≡◌};

    fn wait_for(&mut self, far: u64)
        ensures { self.new.doc ≡ self.old.doc }
    {
        for _ in 0..LOOKS {
            if self.far.load(Ordering::SeqCst) >= far {
                return;
            }
        }
        self.gave_up = true;
    }
}

impl<J: Journaled> Journaled for Slow<J> {
    ghost opening = { λ s. J.opening s.doc };

    ghost history = { λ s. J.history s.doc };

    ghost last = { λ s. J.last s.doc };

    ghost faults = { λ s. J.faults s.doc };

    fn submit(&mut self, alloc: Global, caller: u32, call: &Call) -> Submitted {
        match self.part {
            Part::Changed => {
                self.far.store(UNDER_WAY, Ordering::SeqCst);
                self.wait_for(PULLED);
                let submitted = self.doc.submit(alloc, caller, call);
                self.far.store(CHANGED, Ordering::SeqCst);
                submitted
            }
            Part::Pulled => {
                self.wait_for(UNDER_WAY);
                let submitted = self.doc.submit(alloc, caller, call);
                self.far.store(PULLED, Ordering::SeqCst);
                submitted
            }
        }
    }

    fn front(&self) -> u64 {
        self.doc.front()
    }

    fn each_moves(&self) {
        self.doc.each_moves();
    }

    fn forget(&mut self) {
        self.doc.forget();
    }
}

// A call with a pass of its own, and the pass.
fn submit_on<J: Journaled, R: Wait>(
    rt: &R,
    alloc: Global,
    host: &Host<J>,
    mut pass: Pass<J>,
    doc: usize,
    sub: Sub,
) -> (Pass<J>, Option<Submitted>)
    requires { IsPassTo 2 host.now pass × (doc < 2) }
    ensures { IsPassTo 2 host.now result.0 }
{
    let submitted = submit(rt, alloc, host, &mut pass, doc, sub);
    (pass, submitted)
}

// Draws a number of the first document and pulls the second one, each in a thread of its own.
fn change_and_pull<J: Journaled + Send, R: Threads + Wait + Sync>(
    rt: &R,
    alloc: Global,
    host: &Host<J>,
    first: Pass<J>,
    second: Pass<J>,
) -> ((Pass<J>, Option<Submitted>), (Pass<J>, Option<Submitted>))
    requires { IsPassTo 2 host.now first × IsPassTo 2 host.now second }
    ensures { IsPassTo 2 host.now result.0.0 × IsPassTo 2 host.now result.1.0 }
{
    join(
        rt,
        || -> (Pass<J>, Option<Submitted>)
            requires { IsSync R.row × IsPassTo 2 host.now first }
            ensures { IsPassTo 2 host.entry.now result.0 }
        { submit_on(rt, alloc, host, first, 0, Sub::Draw { count: 1 }) },
        || -> (Pass<J>, Option<Submitted>)
            requires { IsSync R.row × IsPassTo 2 host.now second }
            ensures { IsPassTo 2 host.entry.now result.0 }
        {
            let knowledge = Knowledge {
                ranges: Seq::new(alloc),
            };
            submit_on(rt, alloc, host, second, 1, Sub::Pull { knowledge })
        },
    )
}

// A new document, as the other one's partner.
fn slow_document(alloc: Global, part: Part, far: &Arc<AtomicU64, Global>) -> Option<Slow<Kept>>
    ensures { IfSome result (λ s. history s.doc.doc ≡ []) }
{
    Some(Slow {
        doc: new_document(alloc, ROOM, DISK_CALLS)?,
        part,
        far: Arc::try_clone(far).ok()?,
        gave_up: false,
    })
}

// Whether both calls were answered, and neither went on without the other.
fn run_once<R: Threads + Wait + Sync>(rt: &R, alloc: Global) -> Option<bool> {
    let far = Arc::new(alloc, AtomicU64::new(0)).ok()?;
    let changed = slow_document(alloc, Part::Changed, &far)?;
    let pulled = slow_document(alloc, Part::Pulled, &far)?;
    let (host, mut first) = host_of_two(alloc, changed, pulled, 2)?;
    let second = split_off(alloc, &host, &mut first)?;
    let ((mut all, drawn), (other, found)) = change_and_pull(rt, alloc, &host, first, second);
    host.join_pass(&mut all, other);
    if !all.whole() {
        return None;
    }
    let docs = host.close(all);
    let waited = docs.iter().all(|doc| !doc.gave_up);
    let fine = match (drawn, found) {
        (
            Some(
                Submitted::Answered {
                    reply: Reply::Drawn { .. },
                },
            ),
            Some(
                Submitted::Answered {
                    reply: Reply::Pulled { .. },
                },
            ),
        ) => true,
        _ => false,
    };
    Some(waited && fine && far.load(Ordering::SeqCst) == CHANGED)
}

#[test]
fn a_pull_goes_on_while_another_document_is_changed(rt: HostRuntime) -> Result<(), Fail> {
    assert!(rt; run_once(&rt, rt.alloc()) == Some(true));
    Ok(())
}
