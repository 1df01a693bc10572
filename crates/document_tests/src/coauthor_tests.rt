// Each call that takes memory, with ample memory.
use coauth_state::*;
use compact_values::{Guid, NoMemory};
use doc_model::{Coauthors, LockRecord, LockStep, Member};
use std::alloc::Global;
use std::test::Fail;

/// A schema lock id, and two clients.
const S: Guid = Guid { number: 0x20 };

const A: Guid = Guid { number: 0x30 };

const B: Guid = Guid { number: 0x31 };

/// A lock that A shares until 100 and B until 200, both as coauthors.
fn shared_by_two(alloc: Global) -> Result<LockRecord, NoMemory> {
    let mut members = one_member(alloc, A, 100, true)?;
    members.push(Member {
        client: B,
        until: 200,
        coauthor: true,
    })?;
    Ok(LockRecord::Shared { schema: S, members })
}

#[test]
fn who_has_expired_is_left_out(rt: HostRuntime) -> Result<(), Fail> {
    let alloc = rt.alloc();
    let lock = shared_by_two(alloc)?;
    assert!(rt; status(&lock, 99) == Coauthors::Several);
    assert!(rt; status(&lock, 100) == Coauthors::Alone);
    let members = one_member(alloc, B, 200, true)?;
    let left = LockRecord::Shared { schema: S, members };
    assert!(rt; live(alloc, &lock, 100)? == left);
    assert!(rt; live(alloc, &lock, 200)? == LockRecord::Free);
    Ok(())
}

#[test]
fn a_client_joins(rt: HostRuntime) -> Result<(), Fail> {
    let alloc = rt.alloc();
    let step = LockStep::TakeShared {
        schema: S,
        client: A,
        timeout: 60,
        coauthor: true,
    };
    let plan = shared(alloc, &LockRecord::Free, 40, &step)?;
    assert!(rt; plan.moved);
    assert!(rt; plan.code.is_none());
    let members = one_member(alloc, A, 100, true)?;
    assert!(rt; plan.after == LockRecord::Shared { schema: S, members });
    Ok(())
}
