ghost use Rattle.std.specs.Prelude.{◌≡◌, ◌&&◌, filter, count_by, IfOk};
ghost use Rattle.doc_model.specs.rules.Locks.{live, shared_by, is_live};
ghost use Rattle.doc_model.specs.rules.LockSteps.{coauthors_of, coauthors_by};

use compact_values::{Guid, NoMemory, Seq};
use doc_model::{Coauthors, LockRecord, Member, Members};
use std::alloc::Global;

/// The members that haven't expired.
fn live_members(alloc: Global, members: &Members, moment: u64) -> Result<Members, NoMemory>
    ensures { IfOk result (λ them. them ≡ filter (is_live moment) members.now) }
{
    match members
        .as_slice()
        .iter()
        .copied()
        .filter(|x| moment < x.until)
        .collect(alloc)
    {
        Ok(them) => Ok(Seq::from_vec(them)),
        Err(_) => Err(NoMemory),
    }
}

/// A lock that these members share; it is free where there are none.
pub fn shared_by(schema: Guid, members: Members) -> LockRecord
    ensures { result ≡ shared_by schema members }
{
    if members.is_empty() {
        LockRecord::Free
    } else {
        LockRecord::Shared { schema, members }
    }
}

/// The lock at a moment, in seconds: without what has expired.
pub fn live(alloc: Global, lock: &LockRecord, moment: u64) -> Result<LockRecord, NoMemory>
    ensures { IfOk result (λ now. now ≡ live lock.now moment) }
{
    match lock {
        LockRecord::Free => Ok(LockRecord::Free),
        LockRecord::Exclusive { id, until } => {
            if moment < *until {
                Ok(LockRecord::Exclusive {
                    id: *id,
                    until: *until,
                })
            } else {
                Ok(LockRecord::Free)
            }
        }
        LockRecord::Shared { schema, members } => {
            let members = live_members(alloc, members, moment)?;
            Ok(shared_by(*schema, members))
        }
    }
}

fn coauthors_by(count: usize) -> Coauthors
    ensures { result ≡ coauthors_by count }
{
    match count {
        0 => Coauthors::Nobody,
        1 => Coauthors::Alone,
        _ => Coauthors::Several,
    }
}

/// How many of those who share a lock are coauthors; nobody shares one that is free or exclusive.
pub fn coauthors(lock: &LockRecord) -> Coauthors
    ensures { result ≡ coauthors_of lock.now }
{
    match lock {
        LockRecord::Shared { members, .. } => {
            coauthors_by(members.as_slice().iter().filter(|x| x.coauthor).count())
        }
        _ => Coauthors::Nobody,
    }
}

fn live_coauthors(members: &[Member], moment: u64) -> usize
    ensures { result ≡ count_by (λ x. is_live moment x && x.coauthor) members.now }
{
    members
        .iter()
        .filter(|x| moment < x.until && x.coauthor)
        .count()
}

/// How many of those who share the lock at a moment, in seconds, are coauthors. It takes no memory.
pub fn status(lock: &LockRecord, moment: u64) -> Coauthors
    ensures { result ≡ coauthors_of (live lock.now moment) }
{
    match lock {
        LockRecord::Shared { members, .. } => {
            coauthors_by(live_coauthors(members.as_slice(), moment))
        }
        _ => Coauthors::Nobody,
    }
}
