// A set of serial numbers, as ranges that are in order and as few as can be.
ghost use Rattle.std.specs.Prelude.{◌≡◌, ℕ, ◌+◌, ◌≤◌, ◌||◌, true, IfOk, OnOk, OnErr};
ghost use Rattle.compact_values.specs.declared.guid.Guid.{Guid};
ghost use Rattle.doc_model.specs.rules.Pulls.{knows};
ghost use Rattle.knowledge_set.specs.Maximal.{are_maximal, KnowTheSame};

use crate::joining::{has, join_few, joined, place};
use compact_values::{Copied, Guid, NoMemory, Seq};
use doc_model::{Range, Ranges};
use std::alloc::Global;
use std::marker::Model;

/// As many ranges are put into a set one by one, each by halving. With more, all of both sets are gone through in order,
/// which then takes less time.
const FEW: usize = 64;

/// A set of serial numbers: of GUIDs, each with a value. Contracts see the ranges that it has.
#[derive(Drop)]
pub struct KnowledgeSet {
    alloc: Global,
    ranges: Vec<Range>,
}

impl Model for KnowledgeSet {
    ghost use Rattle.std.specs.Prelude.{◌≡◌, List, true};
    ghost use Rattle.doc_model.specs.declared.knowledge.Range.{Range};
    ghost use Rattle.knowledge_set.specs.Maximal.{are_maximal};

    ghost Value = { List Range };

    ghost view = { λ s. s.ranges.items };

    ghost invariant = { λ s. are_maximal s.ranges.items ≡ true };
}

impl KnowledgeSet {
    /// The numbers of these ranges.
    pub fn from_parts(alloc: Global, parts: &Ranges) -> Result<KnowledgeSet, NoMemory>
        ensures { IfOk result (λ set. KnowTheSame set parts.now) }
    {
        let mut all = Vec::new(alloc);
        all.extend_from_slice(parts.as_slice())?;
        let ranges = joined(alloc, all)?;
        Ok(KnowledgeSet { alloc, ranges })
    }

    /// Whether the number of the GUID with this value is in the set. It takes no memory.
    pub fn knows(&self, guid: Guid, value: u64) -> bool
        ensures { result ≡ knows guid self.now value }
    {
        let ranges = self.ranges.as_slice();
        let alone = Range {
            guid,
            from: value,
            to: value,
        };
        match ranges.get(place(ranges, &alone)) {
            None => false,
            Some(range) => has(range, guid, value),
        }
    }

    /// Adds all that the other set has. Without memory the set stays as it was.
    pub fn merge(&mut self, other: &KnowledgeSet) -> Result<(), NoMemory>
        ensures ok { OnOk result ((guid : Guid) (k : ℕ) → knows guid self.new k ≡ (knows guid self.old k || knows guid other.now k)) }
        ensures err { OnErr result (self.new ≡ self.old) }
    {
        let more = other.ranges.as_slice();
        if more.len() <= FEW {
            return join_few(&mut self.ranges, more);
        }
        let mut all = Vec::new(self.alloc);
        all.extend_from_slice(self.ranges.as_slice())?;
        all.extend_from_slice(more)?;
        self.ranges = joined(self.alloc, all)?;
        Ok(())
    }

    /// The ranges, in order of the GUIDs' numbers and of where they begin: none of them empty, and no two with a number in
    /// common or with numbers next to each other.
    pub fn parts(&self, alloc: Global) -> Result<Ranges, NoMemory>
        ensures parts { IfOk result (λ parts. parts ≡ self.now) }
        ensures maximal { IfOk result (λ parts. are_maximal parts ≡ true) }
    {
        Seq::copied_from(alloc, self.ranges.as_slice())
    }
}
