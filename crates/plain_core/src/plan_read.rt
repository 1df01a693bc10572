// Planning what only reads: the versions, the file, whether a client is alone, and who the caller is.
ghost use Rattle.std.specs.Prelude.{◌≡◌, true, Some, IfOk};
ghost use Rattle.doc_model.specs.rules.Apply.{IsPlanned};
ghost use Rattle.doc_model.specs.rules.Editing.{is_alone};
ghost use Rattle.doc_model.specs.rules.Files.{file};
ghost use Rattle.doc_model.specs.rules.Effects.{reading};
ghost use Rattle.doc_model.specs.rules.Versions.{last_file};
ghost use Rattle.doc_model.specs.declared.reply.Reply.TheVariants.{VersionList, File, Lone, Me};
ghost use Rattle.plain_core.specs.Keeping.{doc_of, planned_of};
ghost use Rattle.plain_core.specs.Wholes.{all_whole, is_whole};

use crate::catalog::Catalog;
use crate::file::{Filed, file_at};
use crate::plain::{Change, PlainCore};
use compact_values::{Copied, ExGuid, NoMemory, Octets, Seq, Text};
use doc_model::{Commit, Element, Plan, Reply};
use editors_table::is_alone;
use std::alloc::Global;

impl PlainCore {
    /// Answers the versions.
    pub(crate) fn plan_versions(&self) -> Result<Plan<Change>, NoMemory>
        ensures { IfOk result (λ p. IsPlanned (reading (doc_of self.now) (VersionList self.now.commits.items)) p (planned_of self.now p.fresh)) }
    {
        let commits = Seq::copied_from(self.alloc, self.commits.as_slice())?;
        Ok(self.read(Reply::VersionList { commits }))
    }

    /// Answers the file at the last version.
    pub(crate) fn plan_file(&self) -> Result<Plan<Change>, NoMemory>
        ensures { IfOk result (λ p. IsPlanned (reading (doc_of self.now) (File (last_file self.now.added.items self.now.commits.items))) p (planned_of self.now p.fresh)) }
    {
        let bytes = last_file(self.alloc, self.added.as_slice(), self.commits.as_slice())?;
        Ok(self.read(Reply::File { bytes }))
    }

    /// Answers whether at most one client edits the document.
    pub(crate) fn plan_alone(&self, moment: u64) -> Plan<Change>
        ensures { IsPlanned (reading (doc_of self.now) (Lone (is_alone self.now.editors moment))) result (planned_of self.now result.fresh) }
    {
        let alone = is_alone(&self.editors, moment);
        self.read(Reply::Lone { alone })
    }

    /// Answers the caller's user.
    pub(crate) fn plan_user(&self, user: &Text) -> Result<Plan<Change>, NoMemory>
        ensures { IfOk result (λ p. IsPlanned (reading (doc_of self.now) (Me user.now)) p (planned_of self.now p.fresh)) }
    {
        let user = user.copied(self.alloc)?;
        Ok(self.read(Reply::Me { user }))
    }
}

// The file at an index of which all is there.
fn file_of_version(alloc: Global, added: &[Element], index: ExGuid) -> Result<Octets, NoMemory>
    requires { is_whole added.now index ≡ true }
    ensures { IfOk result (λ bytes. file added.now index ≡ Some bytes) }
{
    let catalog = Catalog::new(alloc, added)?;
    let filed = file_at(alloc, &catalog, index)?;
    match filed {
        Filed::File { bytes } => Ok(bytes),
        Filed::Undefined => unreachable!(),
        Filed::TooLarge => unreachable!(),
    }
}

// The file at the last version, empty without one.
fn last_file(alloc: Global, added: &[Element], commits: &[Commit]) -> Result<Octets, NoMemory>
    requires { all_whole added.now commits.now ≡ true }
    ensures { IfOk result (λ bytes. bytes ≡ last_file added.now commits.now) }
{
    match commits.last() {
        None => Ok(Seq::new(alloc)),
        Some(last) => file_of_version(alloc, added, last.index),
    }
}
