// A new document with its journal, and a document from the journal that it was kept in.
ghost use Rattle.std.specs.Prelude.{◌≡◌, ◌≢◌, ◌<◌, ◌^◌, ◌≤◌, ◌+◌, List, ℕ, Bool, length, IfOk, IfErr, OnOk, OnErr, IsErrOf, IsTrue, Some, None, true, false, [], ◌∷◌, ◌++◌};
ghost use Rattle.host_edge.specs.Causes.{Rose};
ghost use Rattle.host_edge.specs.Disks.{LeavesOnly, Untouched};
ghost use Rattle.compact_values.specs.declared.guid.Guid.{Guid};
ghost use Rattle.cell_journal.specs.Causes.{HasDiskCause};
ghost use Rattle.cell_journal.specs.Faults.{FailsAt};
ghost use Rattle.cell_journal.specs.Readings.{HasGiven};
ghost use Rattle.change_record.specs.Changes.{IsChange};
ghost use Rattle.change_record.specs.FittingCalls.{FitsCall};
ghost use Rattle.doc_model.specs.rules.Apply.{apply, empty_doc};
ghost use Rattle.doc_model.specs.rules.Sound.{Sound};
ghost use Rattle.doc_model.specs.declared.call.Call.{Call};
ghost use Rattle.journaled_doc.specs.Eras.{Event, Created, NotOpened, Keeps};
ghost use Rattle.journaled_doc.specs.Docs.{history, IsJournaled, InEra, IsNew};
ghost use Rattle.journaled_doc.specs.Replays.{IsReplay, Replays, IsNoChange, FailsToOpen, IsOpenedIn, IsReopened, open_fault};

use crate::doc::JournaledDoc;
use crate::fault::OpenFault;
use crate::kept::Kept;
use cell_journal::laws::{no_journal_where_it_fails, one_journal, whole_bodies_come_first};
use cell_journal::{Got, Journal, JournalFault, Reading};
use change_record::{ChangeFault, read_change};
use compact_values::{Guid, NoMemory, Octets};
use doc_model::Core;
use doc_story::Story;
use host_edge::Disk;
use std::alloc::Global;
use std::snapshot::Snapshot;

// Why a body isn't replayed.
#[derive(Clone, Copy, Debug, PartialEq, Eq)]
enum Unreplayed {
    // It is no change, or its call doesn't move.
    NotAChange,
    NoMemory,
}

// Why a journal can't be opened.
fn open_fault(fault: JournalFault) -> OpenFault
    ensures { result ≡ open_fault fault }
{
    match fault {
        JournalFault::NotAJournal { place } => OpenFault::NotAJournal { place },
        JournalFault::NoMemory => OpenFault::NoMemory,
        JournalFault::DiskFault | JournalFault::Full => OpenFault::DiskFault,
    }
}

// The document as it is opened.
fn opened<C: Core, D: Disk>(core: C, journal: Journal<D>, story: Story<D>) -> JournaledDoc<C, D>
    ensures { IsNew core journal story result }
{
    let before = journal.count();
    let kept = Kept {
        journal,
        tried: None,
    };
    JournaledDoc {
        first: Snapshot::of(&core),
        opened: Snapshot::of(&kept),
        core,
        kept,
        story,
        before,
    }
}

// The number of a GUID is in its range.
fn guid_fits(_guid: Guid)
    ensures { _guid.number < 2 ^ 128 }
{}

// Does the call of a body again.
fn replay_one<C: Core>(alloc: Global, core: &mut C, body: &[u8]) -> Result<(), Unreplayed>
    ensures done { OnOk result (Replays (C.doc core.old) body.now (C.doc core.new)) }
    ensures refused { IsErrOf result Unreplayed.NotAChange → IsNoChange (C.doc core.old) body.now }
{
    let call = match read_change(alloc, body) {
        Ok(call) => call,
        Err(ChangeFault::NotAChange) => return Err(Unreplayed::NotAChange),
        Err(ChangeFault::NoMemory) => return Err(Unreplayed::NoMemory),
    };
    let plan = match core.plan(&call) {
        Ok(plan) => plan,
        Err(NoMemory) => return Err(Unreplayed::NoMemory),
    };
    if !plan.moved {
        return Err(Unreplayed::NotAChange);
    }
    core.settle(plan);
    Ok(())
}

// Does the calls of all bodies again, on an empty document.
fn replay_all<C: Core, D: Disk>(
    alloc: Global,
    core: &mut C,
    reading: &mut Reading<D>,
) -> Result<(), OpenFault>
    requires given { HasGiven D.seen D.may_leave reading.old [] }
    requires document { C.doc core.old ≡ empty_doc reading.old.guid }
    requires number { reading.old.guid.number < 2 ^ 128 }
    ensures done { OnOk result (IsReplay D.seen D.may_leave reading.new (C.doc core.new)) }
    ensures ended { OnOk result (reading.new.ended ≡ true) }
    ensures same { Untouched D.seen D.may_leave D.moment D.left_since reading.old.disk reading.new.disk }
    ensures guid { reading.new.guid ≡ reading.old.guid }
    ensures later { D.faults reading.old.disk ≤ D.faults reading.new.disk }
    ensures cause { IsErrOf result OpenFault.DiskFault → Rose (D.faults reading.old.disk) (D.faults reading.new.disk) }
    ensures kept { OnOk result (D.faults reading.new.disk ≡ D.faults reading.old.disk) }
    ensures place { (place : ℕ) (c : List ℕ) → D.seen reading.old.disk ≡ Some c → IsErrOf result (OpenFault.NotAJournal place) → FailsToOpen place c }
{
    let mut body = Octets::new(alloc);
    loop {
        match reading.next(&mut body) {
            Ok(Got::End) => return Ok(()),
            Ok(Got::Body) => {}
            Err(fault) => return Err(open_fault(fault)),
        }
        match replay_one(alloc, core, body.as_slice()) {
            Ok(()) => {}
            Err(Unreplayed::NotAChange) => {
                let place = reading.at() - body.len() as u64;
                return Err(OpenFault::NotAJournal { place });
            }
            Err(Unreplayed::NoMemory) => return Err(OpenFault::NoMemory),
        }
    }
}

impl<C: Core, D: Disk> JournaledDoc<C, D> {
    /// A new document, on an empty disk. A crash meanwhile leaves at most the 25 bytes of a journal without bodies.
    pub fn create(alloc: Global, core: C, disk: D) -> Result<JournaledDoc<C, D>, (D, OpenFault)>
        requires document { C.doc core ≡ empty_doc (C.doc core).guid }
        requires empty { (c : List ℕ) → D.may_leave disk c → c ≡ [] }
        ensures document { IfOk result (λ j. (C.doc j.core ≡ C.doc core) × (history j ≡ [])) }
        ensures sound { IfOk result (λ j. Sound (C.doc j.core)) }
        ensures journaled { IfOk result (IsJournaled C.doc D.may_leave) }
        ensures era { IfOk result (λ j. InEra C.doc D.may_leave j (Created ∷ [])) }
        ensures settled { IfOk result (λ j. IsTrue j.kept.journal.settled) }
        ensures guid { IfOk result (λ j. j.kept.journal.guid ≡ (C.doc core).guid) }
        ensures number { IfOk result (λ j. j.kept.journal.guid.number < 2 ^ 128) }
        ensures any_moment { IfOk result (λ j. LeavesOnly D.moment D.left_since disk j.kept.journal.disk (λ c. length c ≤ 25)) }
        ensures any_moment_err { IfErr result (λ e. e.1 ≢ OpenFault.NoMemory → LeavesOnly D.moment D.left_since disk e.0 (λ c. length c ≤ 25)) }
        ensures untouched { IfErr result (λ e. e.1 ≡ OpenFault.NoMemory → e.0 ≡ disk) }
        ensures kept { IfOk result (λ j. D.faults j.kept.journal.disk ≡ D.faults disk) }
        ensures cause { IfErr result (λ e. e.1 ≡ OpenFault.DiskFault → Rose (D.faults disk) (D.faults e.0)) }
        ensures no_other { IfErr result (λ e. (place : ℕ) → e.1 ≢ OpenFault.NotAJournal place) }
    {
        let story = match Story::new(alloc) {
            Ok(story) => story,
            Err(NoMemory) => return Err((disk, OpenFault::NoMemory)),
        };
        let guid = core.guid();
        guid_fits(guid);
        match Journal::create(disk, guid) {
            Ok(journal) => Ok(opened(core, journal, story)),
            Err((disk, fault)) => Err((disk, open_fault(fault))),
        }
    }

    /// The document of a journal: its calls again, on the empty document of its GUID. `NotAJournal` comes exactly where the bytes
    /// fail as a journal, with that place, or where a body is no change or its call doesn't move where it stands, with the place of
    /// the body's first byte. Nothing on the disk is changed.
    pub fn recover(
        alloc: Global,
        core: C,
        reading: Reading<D>,
    ) -> Result<JournaledDoc<C, D>, (D, OpenFault)>
        requires given { HasGiven D.seen D.may_leave reading [] }
        requires document { C.doc core ≡ empty_doc reading.guid }
        ensures document { IfOk result (IsReopened C.doc D.seen D.may_leave reading.disk) }
        ensures sound { IfOk result (λ j. Sound (C.doc j.core)) }
        ensures history { IfOk result (λ j. history j ≡ []) }
        ensures journaled { IfOk result (IsJournaled C.doc D.may_leave) }
        ensures guid { IfOk result (λ j. j.kept.journal.guid ≡ reading.guid) }
        ensures number { IfOk result (λ j. j.kept.journal.guid.number < 2 ^ 128) }

        // What was kept, with or without the change that was tried last: where the disk tells what it reads.
        ensures era { (guid : Guid) (events : List Event) (c : List ℕ) → guid.number < 2 ^ 128 → D.seen reading.disk ≡ Some c → Keeps (D.may_leave reading.disk) guid events
            → IfOk result (IsOpenedIn C.doc D.may_leave events) }
        ensures not_opened { (guid : Guid) (events : List Event) → Keeps (D.may_leave reading.disk) guid events
            → IfErr result (λ e. Keeps (D.may_leave e.0) guid (events ++ NotOpened ∷ [])) }
        ensures any_moment { IfOk result (λ j. LeavesOnly D.moment D.left_since reading.disk j.kept.journal.disk (D.may_leave reading.disk)) }
        ensures any_moment_err { IfErr result (λ e. LeavesOnly D.moment D.left_since reading.disk e.0 (D.may_leave reading.disk)) }
        ensures place { (place : ℕ) (c : List ℕ) → D.seen reading.disk ≡ Some c → IfErr result (λ e. e.1 ≡ OpenFault.NotAJournal place → FailsToOpen place c) }
        ensures opens { (place : ℕ) (c : List ℕ) → D.seen reading.disk ≡ Some c → FailsToOpen place c → OnOk result ⊥ }
        ensures kept { IfOk result (λ j. D.faults j.kept.journal.disk ≡ D.faults reading.disk) }
        ensures cause { IfErr result (λ e. e.1 ≡ OpenFault.DiskFault → Rose (D.faults reading.disk) (D.faults e.0)) }
    {
        let mut core = core;
        let mut reading = reading;
        let story = match Story::new(alloc) {
            Ok(story) => story,
            Err(NoMemory) => return Err((reading.into_disk(), OpenFault::NoMemory)),
        };
        one_journal();
        whole_bodies_come_first();
        no_journal_where_it_fails();
        guid_fits(reading.guid());
        match replay_all(alloc, &mut core, &mut reading) {
            Ok(()) => Ok(opened(core, reading.finish(), story)),
            Err(fault) => Err((reading.into_disk(), fault)),
        }
    }
}
