// A range put among ranges that are in order and as few as can be.
ghost use Rattle.std.specs.Prelude.{◌≡◌, ℕ, ◌+◌, ◌<◌, ◌≤◌, ◌||◌, true, List, ◌∷◌, length, drop, vec_len, vec_capacity, IfOk, OnOk, OnErr, IsOk};
ghost use Rattle.compact_values.specs.declared.guid.Guid.{Guid};
ghost use Rattle.doc_model.specs.rules.Pulls.{knows};
ghost use Rattle.knowledge_set.specs.Maximal.{has_some, is_apart, are_maximal, KnowTheSame};
ghost use Rattle.knowledge_set.specs.Joined.{has, hull, place_in, absorbed, with_range};

use compact_values::{Guid, NoMemory};
use doc_model::Range;
use std::alloc::Global;

/// Whether a range is before another with a number between them, or of a GUID with a lesser number.
fn is_apart(a: &Range, b: &Range) -> bool
    ensures { result ≡ is_apart a.now b.now }
{
    if a.guid.is(b.guid) {
        a.to < b.from && b.from - a.to > 1
    } else {
        a.guid.number < b.guid.number
    }
}

/// Whether a range has the number of a GUID with this value.
pub fn has(range: &Range, guid: Guid, value: u64) -> bool
    ensures { result ≡ has guid value range.now }
{
    range.guid.is(guid) && range.from <= value && value <= range.to
}

// The range from where the first of the two begins to where the last of them ends.
fn hull(a: &Range, b: &Range) -> Range
    ensures { result ≡ hull a.now b.now }
{
    Range {
        guid: a.guid,
        from: a.from.min(b.from),
        to: a.to.max(b.to),
    }
}

/// How many, from the front, are apart before the range: found by halving. It takes no memory.
pub fn place(ranges: &[Range], range: &Range) -> usize
    requires { are_maximal ranges.now ≡ true }
    ensures place { result ≡ place_in ranges.now range.now }
    ensures within { result ≤ length ranges.now }
{
    ranges.partition_point(|r| is_apart(r, range))
}

// The range with those from `start` on that it isn't apart from, and the place behind them.
fn absorbed(ranges: &[Range], start: usize, range: &Range) -> (Range, usize)
    requires { start ≤ length ranges.now }
    ensures from { start ≤ result.1 }
    ensures to { result.1 ≤ length ranges.now }
    ensures absorbed { absorbed range.now (drop start ranges.now) ≡ result.0 ∷ drop result.1 ranges.now }
{
    let mut whole = *range;
    let mut end = start;
    while end < ranges.len() && !is_apart(&whole, &ranges[end]) {
        whole = hull(&whole, &ranges[end]);
        end += 1;
    }
    (whole, end)
}

/// Puts a range among the others, with which it is joined where it isn't apart from them. It takes memory only where there
/// is no room for one more, and then only where all of the others stay.
pub fn join(ranges: &mut Vec<Range>, range: &Range) -> Result<(), NoMemory>
    requires { are_maximal ranges.old.items ≡ true }
    ensures ok { OnOk result (ranges.new.items ≡ with_range ranges.old.items range.now) }
    ensures err { OnErr result (ranges.new.items ≡ ranges.old.items) }
    ensures room { vec_len ranges.old < vec_capacity ranges.old → IsOk result }
    ensures len { vec_len ranges.new ≤ vec_len ranges.old + 1 }
    ensures capacity { vec_capacity ranges.old ≤ vec_capacity ranges.new }
{
    let start = place(ranges.as_slice(), range);
    let (whole, end) = absorbed(ranges.as_slice(), start, range);
    if ranges.insert(start, whole).is_err() {
        return Err(NoMemory);
    }
    ranges.drain(start + 1..end + 1);
    Ok(())
}

/// Puts a few ranges among the others, each by halving. All memory is taken first, so that the others stay where it is
/// wanting.
pub fn join_few(ranges: &mut Vec<Range>, few: &[Range]) -> Result<(), NoMemory>
    requires others { are_maximal ranges.old.items ≡ true }
    requires few { are_maximal few.now ≡ true }
    ensures maximal { are_maximal ranges.new.items ≡ true }
    ensures ok { OnOk result ((guid : Guid) (k : ℕ) → knows guid ranges.new.items k ≡ (knows guid ranges.old.items k || knows guid few.now k)) }
    ensures err { OnErr result (ranges.new.items ≡ ranges.old.items) }
{
    ranges.reserve(few.len())?;
    for range in few {
        match join(ranges, range) {
            Ok(()) => {}
            Err(NoMemory) => unreachable!(),
        }
    }
    Ok(())
}

/// The same numbers by ranges that are in order and as few as can be. These are sorted first, so that each is put at the end
/// of those before it.
pub fn joined(alloc: Global, ranges: Vec<Range>) -> Result<Vec<Range>, NoMemory>
    ensures maximal { IfOk result (λ joined. are_maximal joined.items ≡ true) }
    ensures same { IfOk result (λ joined. KnowTheSame joined.items ranges.items) }
{
    let mut sorted = ranges;
    sorted.sort_by_key(|r| (r.guid.number, r.from))?;
    let mut joined = Vec::new(alloc);
    for range in &sorted {
        if range.from <= range.to {
            join(&mut joined, range)?;
        }
    }
    Ok(joined)
}
