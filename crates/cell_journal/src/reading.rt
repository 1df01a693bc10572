ghost use Rattle.std.specs.Prelude.{◌≡◌, ◌≢◌, ◌⊎◌, ◌+◌, ◌*◌, ◌^◌, ◌<◌, ◌≤◌, ◌↔◌, ◌++◌, [], ◌∷◌, List, ℕ, min, length, take, drop, IsTrue, OnOk, OnErr, IfOk, IfErr, IfSome, IsErrOf, Some, None, Ok, Err, true, false};
ghost use Rattle.std.specs.declared.option.Option.{Option};
ghost use Rattle.host_edge.specs.Causes.{Rose};
ghost use Rattle.host_edge.specs.Disks.{LeavesOnly, NoneIsNew, Only, Untouched};
ghost use Rattle.compact_values.specs.Compact.{little_endian};
ghost use Rattle.cell_journal.specs.Causes.{HasDiskCause};
ghost use Rattle.cell_journal.specs.Layout.{header};
ghost use Rattle.cell_journal.specs.Journals.{Stands};
ghost use Rattle.cell_journal.specs.Readings.{HasGiven, Gives, StandsThere};
ghost use Rattle.cell_journal.specs.Faults.{signature, differs, header_fault, FailsAt, IsJudged};

use crate::fault::JournalFault;
use crate::state::{Journal, Reading};
use compact_values::{Guid, Octets, guid_of, number_of};
use host_edge::{Disk, Failed};

const MAX_BODY: u64 = 33_554_432;

// The first of the eight bytes with which a journal begins that is another, or is not there.
fn first_difference(bytes: &[u8]) -> Option<usize>
    ensures { result ≡ differs 0 signature bytes.now }
{
    let signature = [0x01, 0x43, 0x45, 0x4C, 0x4C, 0x4A, 0x4E, 0x4C];
    let mut wants: &[u8] = &signature;
    let mut rest = bytes;
    let mut place = 0;
    while let [want, wants_after @ ..] = wants {
        match rest {
            [byte, after @ ..] => {
                if byte != want {
                    return Some(place);
                }
                wants = wants_after;
                rest = after;
                place += 1;
            }
            [] => return Some(place),
        }
    }
    None
}

// The GUID of the first 24 bytes, or where they fail. The disk holds so many bytes in all.
fn header_in(bytes: &[u8], total: u64) -> Result<Guid, u64>
    requires { length bytes.now ≤ 24 }
    ensures ok { IfOk result (λ guid. bytes.now ≡ header guid) }
    ensures whole { OnOk result ((header_fault bytes.now ≡ None) × (24 ≤ total)) }
    ensures err { length bytes.now ≡ min 24 total → IfErr result (λ place. header_fault bytes.now ≡ Some place) }
{
    if let Some(place) = first_difference(bytes) {
        return Err(place as u64);
    }
    if bytes.len() < 24 {
        return Err(total);
    }
    if total < 24 {
        return Err(total);
    }
    Ok(guid_of(&bytes[8..]))
}

// What stands at a gate, by the first 9 bytes of the rest: how long a body, or the end.
fn gate_in(bytes: &[u8], at: u64, total: u64) -> Result<Option<u64>, u64>
    requires inside { at ≤ total }
    requires head { length bytes.now ≤ 9 }
    ensures judged { (rest : List ℕ) → bytes.now ≡ take 9 rest → total ≡ at + length rest → IsJudged at rest result }
    ensures size { IfOk result (λ found. IfSome found (λ size. (1 ≤ size) × (size ≤ 33554432) × (at + 9 + size ≤ total))) }
    ensures spelled { IfOk result (λ found. IfSome found (λ size. bytes.now ≡ 1 ∷ little_endian 8 size)) }
{
    if bytes.is_empty() {
        return Err(total);
    }
    if bytes[0] != 1 {
        return Ok(None);
    }
    if bytes.len() < 9 {
        return Err(total);
    }
    let size = number_of(&bytes[1..]);
    if total == at {
        return Err(total);
    }
    if size < 1 || size > MAX_BODY {
        return Err(at + 1);
    }
    if total - at < 9 + size {
        return Err(total);
    }
    Ok(Some(size))
}

// Reads a body into `into`. Where the disk tells what it reads, and the body is there, the answer is true.
fn read_body<D: Disk>(
    disk: &mut D,
    place: u64,
    size: u64,
    into: &mut Octets,
) -> Result<bool, JournalFault>
    requires { place + size < 2 ^ 64 }
    ensures same { Untouched D.seen D.may_leave D.moment D.left_since disk.old disk.new }
    ensures body { (c : List ℕ) → D.seen disk.old ≡ Some c → place + size ≤ length c
        → IfOk result (λ found. IsTrue found × (into.new ≡ take size (drop place c))) }
    ensures size { IfOk result (λ found. IsTrue found → length into.new ≡ size) }
    ensures cause { HasDiskCause (D.faults disk.old) (D.faults disk.new) result }
    ensures no_place { (at : ℕ) → IsErrOf result (JournalFault.NotAJournal at) → ⊥ }
    ensures not_full { IsErrOf result JournalFault.Full → ⊥ }
{
    into.truncate(0);
    let mut chunk = [0u8; 4096];
    let mut done: u64 = 0;
    while done < size {
        let want = (size - done).min(4096) as usize;
        let got = disk.read_at(place + done, &mut chunk[..want])?;
        if got < want {
            return Ok(false);
        }
        into.extend_from_slice(&chunk[..want])?;
        done += want as u64;
    }
    Ok(true)
}

// Reads what stands at a gate: how long a body, or the end.
fn read_gate<D: Disk>(disk: &mut D, at: u64, total: u64) -> Result<Option<u64>, JournalFault>
    requires { at ≤ total }
    ensures same { Untouched D.seen D.may_leave D.moment D.left_since disk.old disk.new }
    ensures judged { (c : List ℕ) → D.seen disk.old ≡ Some c → total ≡ length c
        → IfOk result (λ found. IsJudged at (drop at c) (Ok found)) }
    ensures place { (c : List ℕ) → D.seen disk.old ≡ Some c → total ≡ length c
        → (place : ℕ) → IsErrOf result (JournalFault.NotAJournal place) → IsJudged at (drop at c) (Err place) }
    ensures size { IfOk result (λ found. IfSome found (λ size. (1 ≤ size) × (size ≤ 33554432) × (at + 9 + size ≤ total))) }
    ensures spelled { (c : List ℕ) → D.seen disk.old ≡ Some c
        → IfOk result (λ found. IfSome found (λ size. take 9 (drop at c) ≡ 1 ∷ little_endian 8 size)) }
    ensures cause { HasDiskCause (D.faults disk.old) (D.faults disk.new) result }
    ensures not_full { IsErrOf result JournalFault.Full → ⊥ }
    ensures no_memory { IsErrOf result JournalFault.NoMemory → ⊥ }
{
    let mut head = [0u8; 9];
    let got = disk.read_at(at, &mut head)?;
    match gate_in(&head[..got], at, total) {
        Ok(found) => Ok(found),
        Err(place) => Err(JournalFault::NotAJournal { place }),
    }
}

/// What a call of a reading gave.
#[derive(Clone, Copy, Debug, PartialEq, Eq)]
pub enum Got {
    /// A body, in the list that was handed in.
    Body,
    /// The end of the list: the gate is closed.
    End,
}

impl<D: Disk> Reading<D> {
    /// Begins to read a journal, after a sync of the disk, which it does not change. `NotAJournal` comes exactly where the
    /// first 24 bytes are no header, with the first place that is wrong: that of the first byte of the signature that is
    /// another, or the disk's length. A crash meanwhile leaves one of the disk's images. A fault gives the disk back.
    pub fn begin(disk: D) -> Result<Reading<D>, (D, JournalFault)>
        ensures ok { IfOk result (λ reading. HasGiven D.seen D.may_leave reading []) }
        ensures same { IfOk result (λ reading. D.seen reading.disk ≡ D.seen disk) }
        ensures header { (c : List ℕ) → D.seen disk ≡ Some c → OnOk result (header_fault c ≡ None) }
        ensures place { IfErr result (λ e. (place : ℕ) → e.1 ≡ JournalFault.NotAJournal place
            → (c : List ℕ) → D.seen disk ≡ Some c → header_fault c ≡ Some place) }
        ensures none_new { IfOk result (λ reading. NoneIsNew (D.may_leave disk) (D.may_leave reading.disk)) }
        ensures none_new_err { IfErr result (λ e. NoneIsNew (D.may_leave disk) (D.may_leave e.0)) }
        ensures any_moment { IfOk result (λ reading. LeavesOnly D.moment D.left_since disk reading.disk (D.may_leave disk)) }
        ensures any_moment_err { IfErr result (λ e. LeavesOnly D.moment D.left_since disk e.0 (D.may_leave disk)) }
        ensures later { IfErr result (λ e. D.faults disk ≤ D.faults e.0) }
        ensures kept { IfOk result (λ reading. D.faults reading.disk ≡ D.faults disk) }
        ensures failed { IfErr result (λ e. e.1 ≡ JournalFault.DiskFault → Rose (D.faults disk) (D.faults e.0)) }
        ensures cause { IfErr result (λ e. (e.1 ≢ JournalFault.Full) × (e.1 ≢ JournalFault.NoMemory)) }
    {
        let mut disk = disk;
        match read_header(&mut disk) {
            Ok((guid, total)) => Ok(Reading {
                disk,
                guid,
                at: 24,
                count: 0,
                total,
                ended: false,
            }),
            Err(fault) => Err((disk, fault)),
        }
    }

    /// Gives the next body in `into`, whose bytes it replaces, or the end. `NotAJournal` comes exactly where the bytes fail
    /// behind the bodies given so far, with that place: the disk's length where a gate, a length or a body is cut, and the
    /// place of a length that is 0 or above 33,554,432. After a fault only the disk is taken back.
    pub fn next(&mut self, into: &mut Octets) -> Result<Got, JournalFault>
        ensures gives { (taken : List (List ℕ)) → HasGiven D.seen D.may_leave self.old taken
            → IfOk result (λ got. Gives D.seen D.may_leave got taken into.new self.new) }
        ensures stands { (taken : List (List ℕ)) → HasGiven D.seen D.may_leave self.old taken
            → (c : List ℕ) → D.seen self.old.disk ≡ Some c
            → IfOk result (λ got. StandsThere got self.old.at (drop self.old.at c) into.new) }
        ensures place { (taken : List (List ℕ)) → HasGiven D.seen D.may_leave self.old taken
            → (c : List ℕ) → D.seen self.old.disk ≡ Some c
            → (place : ℕ) → IsErrOf result (JournalFault.NotAJournal place) → FailsAt place c }
        ensures ended { IfOk result (λ got. got ≡ Got.End → self.new.ended ≡ true) }
        ensures same { Untouched D.seen D.may_leave D.moment D.left_since self.old.disk self.new.disk }
        ensures guid { self.new.guid ≡ self.old.guid }
        // So a reader that goes on comes to an end.
        ensures total { self.new.total ≡ self.old.total }
        ensures grows { IfOk result (λ got. got ≡ Got.Body → self.old.at < self.new.at) }
        ensures cause { HasDiskCause (D.faults self.old.disk) (D.faults self.new.disk) result }
        ensures not_full { IsErrOf result JournalFault.Full → ⊥ }
    {
        let found = match read_gate(&mut self.disk, self.at, self.total) {
            Ok(found) => found,
            Err(fault) => return Err(fault),
        };
        match found {
            None => {
                self.ended = true;
                Ok(Got::End)
            }
            Some(size) => {
                if !read_body(&mut self.disk, self.at + 9, size, into)? {
                    return Err(JournalFault::NotAJournal { place: self.total });
                }
                self.at += 9 + size;
                self.count += 1;
                self.ended = false;
                Ok(Got::Body)
            }
        }
    }

    /// The journal of the bodies that were given, after the end was seen. It is not settled, since the byte that closes it
    /// may be another than 0.
    pub fn finish(self) -> Journal<D>
        requires { IsTrue self.ended }
        ensures stands { (taken : List (List ℕ)) → HasGiven D.seen D.may_leave self taken → Stands D.may_leave result taken None }
        ensures disk { result.disk ≡ self.disk }
        ensures guid { result.guid ≡ self.guid }
        ensures unsettled { result.settled ≡ false }
        ensures count { result.count ≡ self.count }
    {
        Journal {
            disk: self.disk,
            guid: self.guid,
            gate: self.at,
            count: self.count,
            settled: false,
        }
    }

    /// The place of the next gate, where the body that was given last ends.
    pub fn at(&self) -> u64
        ensures { result ≡ self.now.at }
    {
        self.at
    }

    /// The GUID of the header.
    pub fn guid(&self) -> Guid
        ensures { result ≡ self.now.guid }
    {
        self.guid
    }

    /// The disk, at any time.
    pub fn into_disk(self) -> D
        ensures { result ≡ self.disk }
    {
        self.disk
    }
}

// The GUID and how many bytes the disk holds, after a sync.
fn read_header<D: Disk>(disk: &mut D) -> Result<(Guid, u64), JournalFault>
    ensures only { OnOk result (Only (D.seen disk.old) (D.may_leave disk.new)) }
    ensures same { OnOk result (D.seen disk.new ≡ D.seen disk.old) }
    ensures front { (c : List ℕ) → D.seen disk.old ≡ Some c
        → IfOk result (λ found. (c ≡ header found.0 ++ drop 24 c) × (found.1 ≡ length c) × (header_fault c ≡ None)) }
    ensures total { IfOk result (λ found. 24 ≤ found.1) }
    ensures place { (place : ℕ) → IsErrOf result (JournalFault.NotAJournal place)
        → (c : List ℕ) → D.seen disk.old ≡ Some c → header_fault c ≡ Some place }
    ensures none_new { NoneIsNew (D.may_leave disk.old) (D.may_leave disk.new) }
    ensures any_moment { LeavesOnly D.moment D.left_since disk.old disk.new (D.may_leave disk.old) }
    ensures cause { HasDiskCause (D.faults disk.old) (D.faults disk.new) result }
    ensures not_full { IsErrOf result JournalFault.Full → ⊥ }
    ensures no_memory { IsErrOf result JournalFault.NoMemory → ⊥ }
{
    disk.sync()?;
    let total = disk.length()?;
    let mut head = [0u8; 24];
    let got = disk.read_at(0, &mut head)?;
    match header_in(&head[..got], total) {
        Ok(guid) => Ok((guid, total)),
        Err(place) => Err(JournalFault::NotAJournal { place }),
    }
}
