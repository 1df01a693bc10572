// Planning an upload.
ghost use Rattle.std.specs.Prelude.{◌≡◌, ◌<◌, ◌≤◌, ◌^◌, ◌++◌, true, not, length, None, IfOk};
ghost use Rattle.doc_model.specs.rules.Apply.{IsPlanned};
ghost use Rattle.doc_model.specs.rules.Puts.{put, part_refusal, commit_refusal, kept, committed, added_by, sent_to, pending, other_parts};
ghost use Rattle.doc_model.specs.rules.Effects.{first_refusal, unless};
ghost use Rattle.plain_core.specs.Cataloging.{listed};
ghost use Rattle.plain_core.specs.Keeping.{doc_of, leads_to, planned_of};
ghost use Rattle.plain_core.specs.Refusing.{version_reasons, content_reasons};
ghost use Rattle.plain_core.specs.Uploading.{elements_of};
ghost use Rattle.plain_core.specs.Weighing.{all_few, few_parts};

use crate::catalog::Catalog;
use crate::content::content_refusal;
use crate::plain::{Change, PlainCore};
use crate::put::{Sent, entry_refusal, too_much_added, version_refusal};
use crate::uploads::{other_parts, pending};
use compact_values::{Copied, NoMemory, Seq, Text};
use doc_model::{Code, Commit, Knowledge, Part, Parts, Plan, Put, Reply};
use lock_state::allows;
use std::alloc::Global;

impl PlainCore {
    /// Plans an upload.
    pub(crate) fn plan_put(
        &mut self,
        moment: u64,
        user: &Text,
        upload: &Put,
    ) -> Result<Plan<Change>, NoMemory>
        requires moment { moment < 2 ^ 40 }
        requires few { all_few upload.now.elements ≡ true }
        ensures stays { doc_of self.new ≡ doc_of self.old }
        ensures planned { IfOk result (λ p. IsPlanned (put (doc_of self.old) moment user.now upload.now) p (planned_of self.new p.fresh)) }
    {
        let plan = self.judged(moment, user, upload)?;
        self.make_room(&plan.fresh)?;
        Ok(plan)
    }

    // What becomes of an upload.
    fn judged(&self, moment: u64, user: &Text, upload: &Put) -> Result<Plan<Change>, NoMemory>
        requires moment { moment < 2 ^ 40 }
        requires few { all_few upload.now.elements ≡ true }
        ensures { IfOk result (λ p. IsPlanned (put (doc_of self.now) moment user.now upload.now) p (leads_to (doc_of self.now) p.fresh)) }
    {
        if upload.partial && !upload.last {
            self.plan_part(moment, upload)
        } else {
            self.plan_commit(moment, user, upload)
        }
    }

    // The elements that an upload speaks of.
    fn sent<'a>(&'a self, upload: &'a Put) -> Sent<'a>
        requires { all_few upload.now.elements ≡ true }
        ensures elements { elements_of result ≡ sent_to (doc_of self.now) upload.now }
        ensures few { all_few (elements_of result) ≡ true }
    {
        Sent {
            pending: pending(self.parts.as_slice(), upload.index),
            package: upload.elements.as_slice(),
        }
    }

    // The elements that the document would have with it.
    fn grown<'a>(&'a self, sent: &Sent<'_>, upload: &Put) -> Result<Catalog<'a>, NoMemory>
        requires elements { elements_of sent.now ≡ sent_to (doc_of self.now) upload.now }
        requires few { all_few (elements_of sent.now) ≡ true }
        ensures elements { IfOk result (λ c. listed c ≡ added_by (doc_of self.now) upload.now) }
        ensures added { IfOk result (λ c. c.added.now ≡ self.now.added.items) }
        ensures few { IfOk result (λ c. all_few (listed c) ≡ true) }
    {
        let catalog = sent.grown(self.alloc, self.added.as_slice())?;
        Ok(catalog)
    }

    // The uploads for other indexes that aren't a day old.
    fn others(&self, moment: u64, upload: &Put) -> Result<Parts, NoMemory>
        requires { moment < 2 ^ 40 }
        ensures parts { IfOk result (λ parts. parts ≡ other_parts self.now.parts moment upload.now.index) }
        ensures few { IfOk result (λ parts. few_parts parts ≡ true) }
    {
        let parts = other_parts(self.alloc, self.parts.as_slice(), moment, upload.index)?;
        Ok(parts)
    }

    // Plans a part of an upload that isn't the last one.
    fn plan_part(&self, moment: u64, upload: &Put) -> Result<Plan<Change>, NoMemory>
        requires moment { moment < 2 ^ 40 }
        requires few { all_few upload.now.elements ≡ true }
        ensures { IfOk result (λ p. IsPlanned (unless (part_refusal (doc_of self.now) moment upload.now) (doc_of self.now) (kept (doc_of self.now) moment upload.now)) p (leads_to (doc_of self.now) p.fresh)) }
    {
        let alloc = self.alloc;
        let sent = self.sent(upload);
        let catalog = self.grown(&sent, upload)?;
        let others = self.others(moment, upload)?;
        let locked = !allows(&self.lock, moment, upload.carried);
        let invalid = sent.has_invalid(self.guid, self.drawn, &catalog);
        let full = sent.is_too_much(others.as_slice());
        match entry_refusal(locked, invalid, full) {
            Some(code) => Ok(self.read(Reply::Refused { code })),
            None => {
                let elements = sent.copied(alloc)?;
                let mut parts = others;
                parts.push(Part {
                    index: upload.index,
                    elements,
                    moment,
                })?;
                Ok(Plan {
                    moved: true,
                    reply: Reply::Stored {
                        knowledge: Knowledge {
                            ranges: Seq::new(alloc),
                        },
                    },
                    fresh: Change::Keep { parts },
                })
            }
        }
    }

    // The first reason to refuse a version.
    fn commit_refusal(
        &self,
        sent: &Sent<'_>,
        catalog: &Catalog<'_>,
        moment: u64,
        upload: &Put,
    ) -> Result<Option<Code>, NoMemory>
        requires sent { elements_of sent.now ≡ sent_to (doc_of self.now) upload.now }
        requires catalog { listed catalog.now ≡ added_by (doc_of self.now) upload.now }
        requires few { all_few (listed catalog.now) ≡ true }
        ensures { IfOk result (λ r. r ≡ commit_refusal (doc_of self.now) moment upload.now) }
    {
        let locked = !allows(&self.lock, moment, upload.carried);
        let invalid = sent.has_invalid(self.guid, self.drawn, catalog);
        let full = too_much_added(catalog);
        match entry_refusal(locked, invalid, full) {
            Some(code) => Ok(Some(code)),
            None => self.index_refusal(catalog, upload),
        }
    }

    // The first reason that lies in the versions or in what the index says.
    fn index_refusal(&self, catalog: &Catalog<'_>, upload: &Put) -> Result<Option<Code>, NoMemory>
        requires { all_few (listed catalog.now) ≡ true }
        ensures { IfOk result (λ r. r ≡ first_refusal (version_reasons self.now.commits.items upload.now ++ content_reasons (listed catalog.now) upload.now.index)) }
    {
        match version_refusal(self.commits.as_slice(), upload) {
            Some(code) => Ok(Some(code)),
            None => content_refusal(self.alloc, catalog, upload.index),
        }
    }

    // Plans a version.
    fn plan_commit(&self, moment: u64, user: &Text, upload: &Put) -> Result<Plan<Change>, NoMemory>
        requires moment { moment < 2 ^ 40 }
        requires few { all_few upload.now.elements ≡ true }
        ensures { IfOk result (λ p. IsPlanned (unless (commit_refusal (doc_of self.now) moment upload.now) (doc_of self.now) (committed (doc_of self.now) moment user.now upload.now)) p (leads_to (doc_of self.now) p.fresh)) }
    {
        let alloc = self.alloc;
        let sent = self.sent(upload);
        let catalog = self.grown(&sent, upload)?;
        match self.commit_refusal(&sent, &catalog, moment, upload)? {
            Some(code) => Ok(self.read(Reply::Refused { code })),
            None => self.accepted(&sent, catalog, moment, user, upload),
        }
    }

    // Plans a version that nothing speaks against.
    fn accepted(
        &self,
        sent: &Sent<'_>,
        catalog: Catalog<'_>,
        moment: u64,
        user: &Text,
        upload: &Put,
    ) -> Result<Plan<Change>, NoMemory>
        requires moment { moment < 2 ^ 40 }
        requires accepted { commit_refusal (doc_of self.now) moment upload.now ≡ None }
        requires elements { elements_of sent.now ≡ sent_to (doc_of self.now) upload.now }
        requires catalog { listed catalog ≡ added_by (doc_of self.now) upload.now }
        requires added { catalog.added.now ≡ self.now.added.items }
        requires few { all_few (listed catalog) ≡ true }
        ensures { IfOk result (λ p. IsPlanned (committed (doc_of self.now) moment user.now upload.now) p (leads_to (doc_of self.now) p.fresh)) }
    {
        let alloc = self.alloc;
        let ranges = sent.serials(alloc, self.guid, &catalog)?;
        let fresh = catalog.into_fresh();
        let parts = self.others(moment, upload)?;
        let commit = Commit {
            index: upload.index,
            moment,
            user: user.copied(alloc)?,
        };
        Ok(Plan {
            moved: true,
            reply: Reply::Stored {
                knowledge: Knowledge { ranges },
            },
            fresh: Change::Commit {
                fresh: fresh.into_vec(),
                commit,
                parts,
            },
        })
    }
}
