ghost use Rattle.std.specs.Prelude.{◌≡◌, [], ◌∷◌, length, IfOk};
ghost use Rattle.std.specs.List.{list_any};
ghost use Rattle.doc_model.specs.rules.LockSteps.{is_client, member, others, with_client};
ghost use Rattle.coauth_state.specs.Standings.{members_of};

use compact_values::{Guid, NoMemory, Seq};
use doc_model::{LockRecord, Member, Members};
use std::alloc::Global;

/// The members of a shared lock.
pub fn members(lock: &LockRecord) -> &[Member]
    ensures { result.now ≡ members_of lock.now }
{
    match lock {
        LockRecord::Shared { members, .. } => members.as_slice(),
        _ => &[],
    }
}

pub fn is_member(members: &[Member], client: Guid) -> bool
    ensures { result ≡ list_any (is_client client) members.now }
{
    members.iter().any(|x| x.client == client)
}

pub fn count_others(members: &[Member], client: Guid) -> usize
    ensures { result ≡ length (others client members.now) }
{
    members.iter().filter(|x| x.client != client).count()
}

/// The members but for the client.
pub fn others(alloc: Global, members: &[Member], client: Guid) -> Result<Members, NoMemory>
    ensures { IfOk result (λ rest. rest ≡ others client members.now) }
{
    match members
        .iter()
        .copied()
        .filter(|x| x.client != client)
        .collect(alloc)
    {
        Ok(rest) => Ok(Seq::from_vec(rest)),
        Err(_) => Err(NoMemory),
    }
}

/// The client alone.
pub fn one_member(
    alloc: Global,
    client: Guid,
    until: u64,
    coauthor: bool,
) -> Result<Members, NoMemory>
    ensures { IfOk result (λ all. all ≡ member client until coauthor ∷ []) }
{
    let mut all = Seq::new(alloc);
    all.push(Member {
        client,
        until,
        coauthor,
    })?;
    Ok(all)
}

/// The members with the client there until then, at its place or else at the end.
pub fn with_client(
    alloc: Global,
    members: &[Member],
    client: Guid,
    until: u64,
    coauthor: bool,
) -> Result<Members, NoMemory>
    ensures { IfOk result (λ all. all ≡ with_client client until coauthor members.now) }
{
    let mut all = Seq::new(alloc);
    let mut found = false;
    for x in members {
        if !found && x.client == client {
            found = true;
            let coauthor = x.coauthor || coauthor;
            all.push(Member {
                client,
                until,
                coauthor,
            })?;
        } else {
            all.push(*x)?;
        }
    }
    if !found {
        all.push(Member {
            client,
            until,
            coauthor,
        })?;
    }
    Ok(all)
}
