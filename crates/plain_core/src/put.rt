// What an upload meets: the elements that the document has with it, and the first reason to refuse it.
ghost use Rattle.std.specs.Prelude.{◌≡◌, [], ◌∷◌, ◌++◌, ◌+◌, ◌≤◌, true, not, nat_lt, IfOk, sum_by, length};
ghost use Rattle.std.specs.List.{list_all, list_any};
ghost use Rattle.doc_model.specs.rules.Limits.{most_added, most_added_weight, most_parts, most_parts_weight};
ghost use Rattle.doc_model.specs.rules.Pulls.{ranges_of};
ghost use Rattle.doc_model.specs.rules.Puts.{grown, has_invalid, is_invalid, too_many_parts, too_much_added, is_expected, is_committed, serials_of};
ghost use Rattle.doc_model.specs.rules.Sound.{part_weight};
ghost use Rattle.doc_model.specs.rules.Effects.{first_refusal};
ghost use Rattle.doc_model.specs.rules.Weights.{weight_of};
ghost use Rattle.doc_model.specs.declared.reply.Code.TheVariants as codes;
ghost use Rattle.plain_core.specs.Cataloging.{listed};
ghost use Rattle.plain_core.specs.Weighing.{is_few, all_few, what_is_left};

use crate::catalog::Catalog;
use crate::checking::any_invalid;
use crate::pull::{ranges_of, stored_index};
use crate::serials::{ids_of, serials_in};
use crate::weighing::{weigh, weigh_parts};
use compact_values::{Copied, ExGuid, Guid, NoMemory, Seq};
use doc_model::limits::{MOST_ADDED, MOST_ADDED_WEIGHT, MOST_PARTS, MOST_PARTS_WEIGHT};
use doc_model::{Code, Commit, Element, Elements, Part, Put, Ranges};
use std::alloc::Global;

/// What an upload speaks of: the elements that were kept for it, and then those of its package.
#[derive(Clone, Copy)]
pub struct Sent<'a> {
    pub pending: &'a [Element],
    pub package: &'a [Element],
}

impl Sent<'_> {
    ghost use Rattle.plain_core.specs.Uploading.{elements_of};

    /// The elements that a document has with it.
    pub fn grown<'b>(&self, alloc: Global, added: &'b [Element]) -> Result<Catalog<'b>, NoMemory>
        ensures listed { IfOk result (λ c. listed c ≡ grown added.now (elements_of self.now)) }
        ensures added { IfOk result (λ c. c.added.now ≡ added.now) }
    {
        let mut catalog = Catalog::new(alloc, added)?;
        catalog.grow(alloc, self.pending)?;
        catalog.grow(alloc, self.package)?;
        Ok(catalog)
    }

    /// Its elements, copied.
    pub fn copied(&self, alloc: Global) -> Result<Elements, NoMemory>
        ensures { IfOk result (λ es. es ≡ elements_of self.now) }
    {
        let mut elements = Seq::copied_from(alloc, self.pending)?;
        elements.append(Seq::copied_from(alloc, self.package)?)?;
        Ok(elements)
    }

    /// Whether an element of it may not be added to a document that then has these.
    pub fn has_invalid(&self, guid: Guid, drawn: u64, catalog: &Catalog<'_>) -> bool
        ensures { result ≡ list_any (is_invalid guid drawn (listed catalog.now)) (elements_of self.now) }
    {
        any_invalid(guid, drawn, catalog, self.pending)
            || any_invalid(guid, drawn, catalog, self.package)
    }

    /// Whether it is too much beside the other uploads that aren't complete.
    pub fn is_too_much(&self, others: &[Part]) -> bool
        requires few { all_few (elements_of self.now) ≡ true }
        requires few_parts { list_all (λ p. all_few p.elements) others.now ≡ true }
        ensures { result ≡ too_many_parts others.now (elements_of self.now) }
    {
        others.len() >= MOST_PARTS || self.outweighs(others)
    }

    // Whether it weighs too much with these.
    fn outweighs(&self, others: &[Part]) -> bool
        requires few { all_few (elements_of self.now) ≡ true }
        requires few_parts { list_all (λ p. all_few p.elements) others.now ≡ true }
        ensures { result ≡ nat_lt most_parts_weight (sum_by part_weight others.now + weight_of (elements_of self.now)) }
    {
        match weigh_parts(others, MOST_PARTS_WEIGHT) {
            None => true,
            Some(left) => match weigh(self.pending, left) {
                None => true,
                Some(left) => weigh(self.package, left).is_none(),
            },
        }
    }

    /// The serial numbers of its elements in a document that has them.
    pub fn serials(
        &self,
        alloc: Global,
        guid: Guid,
        catalog: &Catalog<'_>,
    ) -> Result<Ranges, NoMemory>
        requires { length (listed catalog.now) ≤ most_added }
        ensures { IfOk result (λ ranges. ranges ≡ ranges_of guid (serials_of (listed catalog.now) (elements_of self.now))) }
    {
        let ids = ids_of(alloc, self.pending, self.package)?;
        let serials = serials_in(alloc, &ids, catalog.added(), catalog.fresh())?;
        ranges_of(alloc, guid, serials.as_slice())
    }
}

/// Whether these are more elements than a document may have, or weigh more.
pub fn too_much_added(catalog: &Catalog<'_>) -> bool
    requires { all_few (listed catalog.now) ≡ true }
    ensures { result ≡ too_much_added (listed catalog.now) }
{
    let added = catalog.added();
    let fresh = catalog.fresh();
    if added.len() > MOST_ADDED || fresh.len() > MOST_ADDED - added.len() {
        return true;
    }
    match weigh(added, MOST_ADDED_WEIGHT) {
        None => true,
        Some(left) => weigh(fresh, left).is_none(),
    }
}

/// The first of these reasons that holds.
pub fn entry_refusal(locked: bool, invalid: bool, full: bool) -> Option<Code>
    ensures { result ≡ first_refusal ((locked, codes.AlreadyLocked) ∷ (invalid, codes.InvalidObject) ∷ (full, codes.StorageLimit) ∷ []) }
{
    if locked {
        Some(Code::AlreadyLocked)
    } else if invalid {
        Some(Code::InvalidObject)
    } else if full {
        Some(Code::StorageLimit)
    } else {
        None
    }
}

fn is_expected(commits: &[Commit], put: &Put) -> bool
    ensures { result ≡ is_expected commits.now put.now }
{
    put.last_writer_wins
        || put.expected.is(stored_index(commits))
        || (put.imply_null && commits.is_empty())
}

fn is_committed(commits: &[Commit], index: ExGuid) -> bool
    ensures { result ≡ is_committed commits.now index }
{
    commits.iter().any(|c| c.index.is(index))
}

/// Why the versions refuse an upload.
pub fn version_refusal(commits: &[Commit], put: &Put) -> Option<Code>
    ensures { result ≡ first_refusal ((not (is_expected commits.now put.now), codes.Coherency) ∷ (is_committed commits.now put.now.index, codes.InvalidObject) ∷ []) }
{
    if !is_expected(commits, put) {
        Some(Code::Coherency)
    } else if is_committed(commits, put.index) {
        Some(Code::InvalidObject)
    } else {
        None
    }
}
