// Planning what restores a version.
ghost use Rattle.std.specs.Prelude.{◌≡◌, ◌<◌, ◌≤◌, ◌^◌, ◌+◌, ◌++◌, [], ◌∷◌, true, IfOk, option_copied};
ghost use Rattle.std.specs.Option.{MatchOption};
ghost use Rattle.doc_model.specs.rules.Apply.{IsPlanned};
ghost use Rattle.doc_model.specs.rules.Drawing.{last_number};
ghost use Rattle.doc_model.specs.rules.Puts.{too_much_added, too_large};
ghost use Rattle.doc_model.specs.rules.Effects.{unless, first_refusal};
ghost use Rattle.doc_model.specs.rules.Versions.{version, restore, restore_refusal, restored, next_id, index_like};
ghost use Rattle.doc_model.specs.declared.reply.Code.TheVariants as codes;
ghost use Rattle.plain_core.specs.Cataloging.{listed};
ghost use Rattle.plain_core.specs.Keeping.{doc_of, leads_to, planned_of};
ghost use Rattle.plain_core.specs.Weighing.{all_few};
ghost use Rattle.plain_core.specs.Wholes.{is_whole};

use crate::catalog::Catalog;
use crate::naming::names;
use crate::plain::{Change, PlainCore};
use crate::put::too_much_added;
use crate::reaching::is_heavy;
use compact_values::{Copied, ExGuid, Guid, NoMemory, Seq, Text};
use doc_model::{Body, Code, Commit, Element, Plan, Reply};
use lock_state::allows;
use std::alloc::Global;

// The version of this number, the first one being version 1.
fn version(commits: &[Commit], number: u64) -> Option<&Commit>
    ensures { option_copied result ≡ version commits.now number }
{
    if number == 0 {
        return None;
    }
    match usize::try_from(number - 1) {
        Ok(place) => commits.get(place),
        Err(_) => None,
    }
}

// The next number of the document's own GUID, where there is one left.
fn next_id(guid: Guid, drawn: u64) -> Option<ExGuid>
    ensures { MatchOption result (last_number ≤ drawn) (λ id. (drawn < last_number) × (id ≡ next_id guid drawn)) }
{
    if drawn >= u64::from(u32::MAX) {
        return None;
    }
    match u32::try_from(drawn + 1) {
        Ok(value) => Some(ExGuid::Id { guid, value }),
        Err(_) => None,
    }
}

// An index under this id that maps what another does, which maps nothing where it isn't there.
fn index_like(
    alloc: Global,
    catalog: &Catalog<'_>,
    id: ExGuid,
    index: ExGuid,
) -> Result<Element, NoMemory>
    ensures { IfOk result (λ e. e ≡ index_like (listed catalog.now) id index) }
{
    let body = match catalog.index_at(index) {
        None => Body::Index {
            manifests: Seq::new(alloc),
            cells: Seq::new(alloc),
            revisions: Seq::new(alloc),
        },
        Some(maps) => Body::Index {
            manifests: maps.manifests.copied(alloc)?,
            cells: maps.cells.copied(alloc)?,
            revisions: maps.revisions.copied(alloc)?,
        },
    };
    Ok(Element { id, body })
}

// Why a document with these elements, the last of which is the index of this id, would be too much.
fn limit_refusal(alloc: Global, catalog: &Catalog<'_>, id: ExGuid) -> Result<Option<Code>, NoMemory>
    requires few { all_few (listed catalog.now) ≡ true }
    requires whole { is_whole (listed catalog.now) id ≡ true }
    ensures { IfOk result (λ r. r ≡ first_refusal ((too_much_added (listed catalog.now), codes.StorageLimit) ∷ (too_large (listed catalog.now) id, codes.StorageLimit) ∷ [])) }
{
    if too_much_added(catalog) {
        return Ok(Some(Code::StorageLimit));
    }
    let all = names(alloc, catalog, id)?;
    if is_heavy(alloc, catalog, all.as_slice())? {
        Ok(Some(Code::StorageLimit))
    } else {
        Ok(None)
    }
}

impl PlainCore {
    /// Plans what restores the version of this number.
    pub(crate) fn plan_restore(
        &mut self,
        moment: u64,
        user: &Text,
        number: u64,
        carried: Option<Guid>,
    ) -> Result<Plan<Change>, NoMemory>
        ensures stays { doc_of self.new ≡ doc_of self.old }
        ensures planned { IfOk result (λ p. IsPlanned (restore (doc_of self.old) moment user.now number carried) p (planned_of self.new p.fresh)) }
    {
        let plan = self.looked_up(moment, user, number, carried)?;
        self.make_room(&plan.fresh)?;
        Ok(plan)
    }

    // What becomes of a restore.
    fn looked_up(
        &self,
        moment: u64,
        user: &Text,
        number: u64,
        carried: Option<Guid>,
    ) -> Result<Plan<Change>, NoMemory>
        ensures { IfOk result (λ p. IsPlanned (restore (doc_of self.now) moment user.now number carried) p (leads_to (doc_of self.now) p.fresh)) }
    {
        if !allows(&self.lock, moment, carried) {
            return Ok(self.read(Reply::Refused {
                code: Code::AlreadyLocked,
            }));
        }
        match version(self.commits.as_slice(), number) {
            None => Ok(self.read(Reply::Refused {
                code: Code::VersionUnknown,
            })),
            Some(commit) => self.plan_version(moment, user, commit),
        }
    }

    // Plans what restores a version of which all is there.
    fn plan_version(&self, moment: u64, user: &Text, old: &Commit) -> Result<Plan<Change>, NoMemory>
        requires { is_whole self.now.added.items old.now.index ≡ true }
        ensures { IfOk result (λ p. IsPlanned (unless (restore_refusal (doc_of self.now) old.now) (doc_of self.now) (restored (doc_of self.now) moment user.now old.now)) p (leads_to (doc_of self.now) p.fresh)) }
    {
        match next_id(self.guid, self.drawn) {
            None => Ok(self.read(Reply::Refused {
                code: Code::NoNumbers,
            })),
            Some(id) => self.plan_under(moment, user, old, id),
        }
    }

    // Plans what restores a version under the next id.
    fn plan_under(
        &self,
        moment: u64,
        user: &Text,
        old: &Commit,
        id: ExGuid,
    ) -> Result<Plan<Change>, NoMemory>
        requires whole { is_whole self.now.added.items old.now.index ≡ true }
        requires left { self.now.drawn < last_number }
        requires id { id ≡ next_id self.now.guid self.now.drawn }
        ensures { IfOk result (λ p. IsPlanned (unless (restore_refusal (doc_of self.now) old.now) (doc_of self.now) (restored (doc_of self.now) moment user.now old.now)) p (leads_to (doc_of self.now) p.fresh)) }
    {
        let alloc = self.alloc;
        let catalog = self.with_index(id, old.index)?;
        match limit_refusal(alloc, &catalog, id)? {
            Some(code) => Ok(self.read(Reply::Refused { code })),
            None => {
                let commit = Commit {
                    index: id,
                    moment,
                    user: user.copied(alloc)?,
                };
                Ok(Plan {
                    moved: true,
                    reply: Reply::Done,
                    fresh: Change::Restore {
                        fresh: catalog.into_fresh().into_vec(),
                        commit,
                        drawn: self.drawn + 1,
                    },
                })
            }
        }
    }

    // The elements of the document, and behind them an index under this id that maps what this version's does.
    fn with_index(&self, id: ExGuid, index: ExGuid) -> Result<Catalog<'_>, NoMemory>
        ensures listed { IfOk result (λ c. listed c ≡ self.now.added.items ++ index_like self.now.added.items id index ∷ []) }
        ensures added { IfOk result (λ c. c.added.now ≡ self.now.added.items) }
    {
        let alloc = self.alloc;
        let mut catalog = Catalog::new(alloc, self.added.as_slice())?;
        let element = index_like(alloc, &catalog, id, index)?;
        catalog.push(element)?;
        Ok(catalog)
    }
}
