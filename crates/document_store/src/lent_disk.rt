// A disk in the hands of those who work with it.
ghost use Rattle.std.specs.Prelude.{◌≡◌, Result};
ghost use Rattle.host_edge.specs.Causes.{HasCause};

use host_edge::{Disk, Failed};

/// A disk that a store lends, with where the store has it. It counts its faults from when it was lent.
#[derive(Drop)]
pub struct LentDisk<D, P> {
    pub(crate) disk: D,
    pub(crate) place: P,
    pub(crate) faults: u64,
}

impl<D, P> LentDisk<D, P> {
    // The disk, which has not failed since.
    pub(crate) fn new(disk: D, place: P) -> LentDisk<D, P>
        ensures { result ≡ record { disk = disk; place = place; faults = 0 } }
    {
        LentDisk {
            disk,
            place,
            faults: 0,
        }
    }

    /// The disk itself.
    pub fn disk(&self) -> &D
        ensures { result.now ≡ self.now.disk }
    {
        &self.disk
    }

    /// How often it has failed since it was lent.
    pub fn failures(&self) -> u64
        ensures { result ≡ self.now.faults }
    {
        self.faults
    }
}

impl<D: Drop, P: Drop> LentDisk<D, P> {
    // The disk itself, back.
    pub(crate) fn into_disk(self) -> D
        ensures { result ≡ self.disk }
    {
        let LentDisk { disk, .. } = self;
        disk
    }
}

// Counts a failure.
fn counted<T>(faults: &mut u64, answer: Result<T, Failed>) -> Result<T, Failed>
    ensures answer { result ≡ answer }
    ensures cause { HasCause faults.old faults.new answer }
{
    if answer.is_err() {
        *faults = faults.saturating_add(1);
    }
    answer
}

impl<D: Disk, P> Disk for LentDisk<D, P> {
    ghost seen = { λ l. D.seen l.disk };

    ghost may_leave = { λ l c. D.may_leave l.disk c };

    ghost moment = { λ l. D.moment l.disk };

    ghost left_since = { λ l t c. D.left_since l.disk t c };

    ghost faults = { λ l. l.faults };

    ghost reads_image = { λ l c told. D.reads_image l.disk c told };

    ghost counts_now = { λ l t c le now. D.counts_now l.disk t c le now };

    ghost only_now = { λ l c left. D.only_now l.disk c left };

    fn length(&mut self) -> Result<u64, Failed> {
        let answer = self.disk.length();
        counted(&mut self.faults, answer)
    }

    fn read_at(&mut self, place: u64, into: &mut [u8]) -> Result<usize, Failed> {
        let answer = self.disk.read_at(place, into);
        counted(&mut self.faults, answer)
    }

    fn write_at(&mut self, place: u64, bytes: &[u8]) -> Result<(), Failed> {
        let answer = self.disk.write_at(place, bytes);
        counted(&mut self.faults, answer)
    }

    fn sync(&mut self) -> Result<(), Failed> {
        let answer = self.disk.sync();
        counted(&mut self.faults, answer)
    }
}
