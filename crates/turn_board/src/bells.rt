// Where a seat that waits may sleep. No contract of the board rests on it: a bell that stays silent costs time, and makes nothing false.
ghost use Rattle.std.specs.Prelude.{◌≤◌, vec_len};

use std::alloc::{AllocError, Global};
use std::sync::Wait;
use std::sync::atomic::AtomicU64;
use std::sync::atomic::Ordering::SeqCst;

// One bell for each number of a board. At most that many tickets are drawn and not done, and these follow one another,
// so each has a bell of its own, at which one thread sleeps at most: a ring wakes the one whose turn it is, and no other.
#[derive(Drop)]
pub(crate) struct Bells {
    bells: Vec<AtomicU64>,
    ghost some: { 1 ≤ vec_len bells },
}

impl Bells {
    pub(crate) fn silent(alloc: Global, count: u32) -> Result<Bells, AllocError> {
        let mut bells = Vec::with_capacity(alloc, count as usize)?;
        bells.push(AtomicU64::new(0))?;
        for _ in 1..count {
            bells.push(AtomicU64::new(0))?;
        }
        Ok(Bells { bells })
    }

    fn bell(&self, ticket: u64) -> &AtomicU64 {
        &self.bells[(ticket % self.bells.len() as u64) as usize]
    }

    // How often the bell of a ticket has rung.
    pub(crate) fn rings(&self, ticket: u64) -> u64 {
        self.bell(ticket).load(SeqCst)
    }

    // Sleeps until the bell has rung again, which it may have done since the rings were counted. It may return early.
    pub(crate) fn sleep<R: Wait>(&self, rt: &R, ticket: u64, rings: u64) {
        self.bell(ticket).park(rt, (rings & 0xffff_ffff) as u32);
    }

    pub(crate) fn ring(&self, ticket: u64) {
        let bell = self.bell(ticket);
        bell.fetch_add(1, SeqCst);
        bell.wake_one();
    }
}
