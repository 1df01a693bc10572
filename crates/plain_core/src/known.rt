// Which serials a client knows.
ghost use Rattle.std.specs.Prelude.{◌≡◌, ℕ, ◌+◌, ◌<◌, ◌≤◌, ◌||◌, ◌&&◌, nat_le, length, vec_len, slice_get, Some, IfOk};
ghost use Rattle.doc_model.specs.rules.Pulls.{knows};
ghost use Rattle.plain_core.specs.Knowing.{TellsEach, TellsRanges, covers};

use compact_values::{Guid, NoMemory, Seq};
use doc_model::Range;
use std::alloc::Global;

/// Which of the first serials of a document lie in ranges. It is told once for all of them, so that none is looked for in the
/// ranges.
#[derive(Drop)]
pub struct Known<'a> {
    pub guid: Guid,
    pub ranges: &'a [Range],
    pub flags: Seq<bool>,
    ghost told: { TellsEach guid ranges.now flags },
}

// Notes where a range ends, at the place of the serial where it begins, unless one that ends later begins there. A range that
// begins at 0 has the same serials as one that begins at 1.
fn note(ends: &mut [u64], range: &Range)
    ensures len { length ends.new ≡ length ends.old }
    ensures covers { (k : ℕ) → 1 ≤ k → k ≤ length ends.old → covers ends.new k ≡ (covers ends.old k || nat_le range.now.from k && nat_le k range.now.to) }
{
    let place = range.from.saturating_sub(1) as usize;
    if place < ends.len() && ends[place] < range.to {
        ends[place] = range.to;
    }
}

// For each of the first serials where the ranges of the GUID that begin at it end, 0 where none does.
fn ends_of(alloc: Global, guid: Guid, ranges: &[Range], count: usize) -> Result<Vec<u64>, NoMemory>
    ensures len { IfOk result (λ ends. vec_len ends ≡ count) }
    ensures told { IfOk result (λ ends. TellsRanges guid ranges.now ends.items) }
{
    let Ok(mut ends) = vec![in alloc; 0_u64; count] else {
        return Err(NoMemory);
    };
    for range in ranges {
        if range.guid.is(guid) {
            note(ends.as_mut_slice(), range);
        }
    }
    Ok(ends)
}

// For each of the first serials whether a range that begins at it or before ends at it or behind.
fn flags_of(alloc: Global, ends: &[u64]) -> Result<Seq<bool>, NoMemory>
    ensures len { IfOk result (λ flags. length flags ≡ length ends.now) }
    ensures told { IfOk result (λ flags. (i : ℕ) → i < length ends.now → slice_get flags i ≡ Some (covers ends.now (i + 1))) }
{
    let mut flags = Seq::new(alloc);
    let mut furthest = 0;
    let mut serial = 0;
    for end in ends {
        serial += 1;
        if furthest < *end {
            furthest = *end;
        }
        flags.push(serial <= furthest)?;
    }
    Ok(flags)
}

impl<'a> Known<'a> {
    /// Of so many serials those that lie in ranges of the GUID.
    pub fn new(
        alloc: Global,
        guid: Guid,
        ranges: &'a [Range],
        count: usize,
    ) -> Result<Known<'a>, NoMemory>
        ensures guid { IfOk result (λ k. k.guid ≡ guid) }
        ensures ranges { IfOk result (λ k. k.ranges.now ≡ ranges.now) }
        ensures len { IfOk result (λ k. length k.flags ≡ count) }
    {
        let ends = ends_of(alloc, guid, ranges, count)?;
        let flags = flags_of(alloc, ends.as_slice())?;
        Ok(Known {
            guid,
            ranges,
            flags,
        })
    }

    /// Whether a serial lies in one of the ranges.
    pub fn knows(&self, serial: u64) -> bool
        requires some { 1 ≤ serial }
        requires len { serial ≤ length self.now.flags }
        ensures { result ≡ knows self.now.guid self.now.ranges.now serial }
    {
        self.flags.as_slice()[serial as usize - 1]
    }
}
