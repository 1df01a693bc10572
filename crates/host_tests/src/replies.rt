// A checker of histories: whether what several callers were told of one document can have been told by one thread. It is written
// on its own, over the replies alone.
use compact_values::NoMemory;
use std::alloc::Global;

/// How many callers there are.
pub const CALLERS: usize = 4;

/// How many steps a search may take.
const STEPS: u32 = 100_000;

/// What a caller was told.
#[derive(Clone, Copy)]
pub enum Told {
    /// This number was drawn.
    Drawn { number: u64 },
    /// The exclusive lock is the caller's now.
    Taken,
    /// The lock is another's.
    Refused,
    /// The lock is free again.
    Dropped,
    /// How many changes the document has had.
    Front { count: u64 },
    /// Something else.
    Other,
}

/// What the document is after some of the replies, and how many of each caller's these are.
#[derive(Clone, Copy)]
struct State {
    heard: [usize; CALLERS],
    drawn: u64,
    holder: Option<usize>,
    changes: u64,
}

impl State {
    // The same document after one more reply of this caller.
    fn heard_by(self, caller: usize) -> State {
        let mut next = self;
        if let Some(heard) = next.heard.get_mut(caller) {
            *heard = heard.saturating_add(1);
        }
        next
    }

    // What the document is after this reply to this caller. None where it can't give the reply.
    fn after(self, caller: usize, told: Told) -> Option<State> {
        let mut next = self.heard_by(caller);
        match told {
            Told::Drawn { number } => {
                next.drawn = next.drawn.saturating_add(1);
                next.changes = next.changes.saturating_add(1);
                if number == next.drawn {
                    Some(next)
                } else {
                    None
                }
            }
            Told::Taken => {
                next.holder = Some(caller);
                next.changes = next.changes.saturating_add(1);
                if self.holder.is_none() {
                    Some(next)
                } else {
                    None
                }
            }
            Told::Dropped => {
                next.holder = None;
                next.changes = next.changes.saturating_add(1);
                if self.holder == Some(caller) {
                    Some(next)
                } else {
                    None
                }
            }
            Told::Refused => match self.holder {
                Some(holder) if holder != caller => Some(next),
                _ => None,
            },
            Told::Front { count } => {
                if count == self.changes {
                    Some(next)
                } else {
                    None
                }
            }
            Told::Other => None,
        }
    }

    // The next reply to this caller.
    fn next(self, told: &[Vec<Told>], caller: usize) -> Option<Told> {
        let heard = *self.heard.get(caller)?;
        let all = told.get(caller)?;
        Some(*all.get(heard)?)
    }

    // Whether all replies to all callers were heard.
    fn is_end(self, told: &[Vec<Told>]) -> bool {
        for caller in 0..CALLERS {
            if self.next(told, caller).is_some() {
                return false;
            }
        }
        true
    }
}

// The states that one more reply leads to. A reply that changes nothing can be given at once where it can be given at all, so it
// leads to the only one that has to be looked at.
fn successors(states: &mut Vec<State>, told: &[Vec<Told>], state: State) -> Result<(), NoMemory> {
    let mut moving = [None; CALLERS];
    for caller in 0..CALLERS {
        let Some(said) = state.next(told, caller) else {
            continue;
        };
        let Some(next) = state.after(caller, said) else {
            continue;
        };
        if next.changes == state.changes {
            states.push(next)?;
            return Ok(());
        }
        moving[caller] = Some(next);
    }
    for next in moving.into_iter().flatten() {
        states.push(next)?;
    }
    Ok(())
}

/// Whether there is an order of all replies in which one thread can have been told them, with each caller's in its order. Also
/// false where the search takes too many steps.
pub fn is_one_thread(alloc: Global, told: &[Vec<Told>]) -> Result<bool, NoMemory> {
    let start = State {
        heard: [0; CALLERS],
        drawn: 0,
        holder: None,
        changes: 0,
    };
    let mut states = Vec::new(alloc);
    states.push(start)?;
    for _ in 0..STEPS {
        let Some(state) = states.pop() else {
            return Ok(false);
        };
        if state.is_end(told) {
            return Ok(true);
        }
        successors(&mut states, told, state)?;
    }
    Ok(false)
}
