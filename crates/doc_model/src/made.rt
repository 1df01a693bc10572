use crate::reply::Submitted;

/// What became of a call, with the disk's counts of faults at its start and at its end.
#[derive(Debug, Drop, PartialEq, Eq)]
pub struct Made {
    pub submitted: Submitted,
    pub before: u64,
    pub after: u64,
}
