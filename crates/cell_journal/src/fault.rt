ghost use Rattle.std.specs.Prelude.{◌≡◌};
ghost use Rattle.cell_journal.specs.declared.fault.JournalFault.TheVariants.{DiskFault, NoMemory};

use host_edge::Failed;
use thiserror::Error;

/// Why a call on a journal was refused.
#[derive(Clone, Copy, Debug, PartialEq, Eq, Error)]
pub enum JournalFault {
    /// The disk failed. Its count of faults rose in this call.
    #[error("the disk failed")]
    DiskFault,
    /// The journal has 1,000,000 bodies.
    #[error("the journal is full")]
    Full,
    /// The bytes are no journal: `place` is the first one where the form fails.
    #[error("no journal from byte {place} on")]
    NotAJournal { place: u64 },
    /// No memory was left for a body.
    #[error("no memory")]
    NoMemory,
}

impl From<Failed> for JournalFault {
    ghost from_gives = { λ _ e. e ≡ DiskFault };

    fn from(_: Failed) -> Self {
        JournalFault::DiskFault
    }
}

impl From<compact_values::NoMemory> for JournalFault {
    ghost from_gives = { λ _ e. e ≡ NoMemory };

    fn from(_: compact_values::NoMemory) -> Self {
        JournalFault::NoMemory
    }
}
