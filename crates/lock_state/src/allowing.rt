ghost use Rattle.std.specs.Prelude.{◌≡◌};
ghost use Rattle.std.specs.List.{list_any};
ghost use Rattle.doc_model.specs.rules.Locks.{live, allowed, carries, is_live};

use compact_values::Guid;
use doc_model::{LockRecord, Member};

fn carries(carried: Option<Guid>, id: Guid) -> bool
    ensures { result ≡ carries carried id }
{
    match carried {
        None => false,
        Some(held) => held.is(id),
    }
}

fn any_live(members: &[Member], moment: u64) -> bool
    ensures { result ≡ list_any (is_live moment) members.now }
{
    members.iter().any(|x| moment < x.until)
}

/// Whether the lock lets a call change content at a moment, in seconds: it is free then, or the call carries its exclusive
/// lock id or its schema lock id. It takes no memory.
pub fn allows(lock: &LockRecord, moment: u64, carried: Option<Guid>) -> bool
    ensures { result ≡ allowed (live lock.now moment) carried }
{
    match lock {
        LockRecord::Free => true,
        LockRecord::Exclusive { id, until } => {
            if moment < *until {
                carries(carried, *id)
            } else {
                true
            }
        }
        LockRecord::Shared { schema, members } => {
            if any_live(members.as_slice(), moment) {
                carries(carried, *schema)
            } else {
                true
            }
        }
    }
}
