// Pulls: what a client lacks, and what it knows then.
ghost use Rattle.std.specs.Prelude.{◌≡◌, ◌+◌, ◌≤◌, [], ◌∷◌, ◌++◌, IfOk, map, filter, length};
ghost use Rattle.doc_model.specs.rules.Reached.{names};
ghost use Rattle.doc_model.specs.rules.Pulls.{ranges_of, stored_index, named_ids, lacking, known_then, pulled};

use crate::catalog::Catalog;
use crate::known::Known;
use crate::naming::names;
use compact_values::{Copied, ExGuid, Guid, IdIndex, NoMemory, Seq};
use doc_model::{
    Commit, Element, Knowledge, Namings, Numbered, NumberedElement, Range, Ranges, Reply,
};
use std::alloc::Global;

/// Rising serials as maximal ranges.
pub fn ranges_of(alloc: Global, guid: Guid, serials: &[u64]) -> Result<Ranges, NoMemory>
    ensures { IfOk result (λ ranges. ranges ≡ ranges_of guid serials.now) }
{
    let mut done = Seq::new(alloc);
    let Some((first, rest)) = serials.split_first() else {
        return Ok(done);
    };
    let mut from = *first;
    let mut to = *first;
    for k in rest {
        if *k > to && *k - to == 1 {
            to = *k;
        } else {
            done.push(Range { guid, from, to })?;
            from = *k;
            to = *k;
        }
    }
    done.push(Range { guid, from, to })?;
    Ok(done)
}

/// The index of the last commit, or null.
pub fn stored_index(commits: &[Commit]) -> ExGuid
    ensures { result ≡ stored_index commits.now }
{
    match commits.last() {
        None => ExGuid::Null,
        Some(commit) => commit.index,
    }
}

// What is named from an index.
fn names_in(alloc: Global, added: &[Element], index: ExGuid) -> Result<Namings, NoMemory>
    ensures { IfOk result (λ all. all ≡ names added.now index) }
{
    let catalog = Catalog::new(alloc, added)?;
    let all = names(alloc, &catalog, index)?;
    Ok(all)
}

/// The ids that are named from the stored index.
fn named_ids(alloc: Global, added: &[Element], commits: &[Commit]) -> Result<IdIndex, NoMemory>
    ensures { IfOk result (λ ids. ids ≡ named_ids added.now commits.now) }
{
    let mut ids = IdIndex::new(alloc);
    if commits.is_empty() {
        return Ok(ids);
    }
    let all = names_in(alloc, added, stored_index(commits))?;
    for name in all.as_slice() {
        ids.push(name.id)?;
    }
    Ok(ids)
}

/// The elements that a client lacks.
fn lacking(
    alloc: Global,
    known: &Known<'_>,
    ids: &IdIndex,
    added: &[Element],
) -> Result<Numbered, NoMemory>
    requires { length added.now ≤ length known.now.flags }
    ensures { IfOk result (λ all. all ≡ lacking known.now.guid known.now.ranges.now ids.now added.now) }
{
    let mut all = Seq::new(alloc);
    let mut serial = 0;
    for element in added {
        serial += 1;
        if ids.contains(element.id) && !known.knows(serial) {
            let element = element.copied(alloc)?;
            all.push(NumberedElement { serial, element })?;
        }
    }
    Ok(all)
}

/// The serials that a client knows then.
fn known_then(
    alloc: Global,
    known: &Known<'_>,
    ids: &IdIndex,
    added: &[Element],
) -> Result<Seq<u64>, NoMemory>
    requires { length added.now ≤ length known.now.flags }
    ensures { IfOk result (λ all. all ≡ known_then known.now.guid known.now.ranges.now ids.now added.now) }
{
    let mut all = Seq::new(alloc);
    let mut serial = 0;
    for element in added {
        serial += 1;
        if known.knows(serial) || ids.contains(element.id) {
            all.push(serial)?;
        }
    }
    Ok(all)
}

/// What a pull answers.
pub fn pull(
    alloc: Global,
    guid: Guid,
    added: &[Element],
    commits: &[Commit],
    known: &[Range],
) -> Result<Reply, NoMemory>
    ensures { IfOk result (λ reply. reply ≡ pulled guid added.now commits.now known.now) }
{
    let index = stored_index(commits);
    let ids = named_ids(alloc, added, commits)?;
    let known = Known::new(alloc, guid, known, added.len())?;
    let elements = lacking(alloc, &known, &ids, added)?;
    let serials = known_then(alloc, &known, &ids, added)?;
    let ranges = ranges_of(alloc, guid, serials.as_slice())?;
    Ok(Reply::Pulled {
        guid,
        index,
        elements,
        knowledge: Knowledge { ranges },
    })
}
