ghost use Rattle.std.specs.Prelude.{◌≡◌};
ghost use Rattle.document_store.specs.declared.fault.StoreFault.TheVariants.{Failed, NoMemory};

use thiserror::Error;

/// Why a store refused a call.
#[derive(Clone, Copy, Debug, PartialEq, Eq, Error)]
pub enum StoreFault {
    /// The store failed. Its count of faults says that it did.
    #[error("the store failed")]
    Failed,
    /// No memory was left.
    #[error("no memory")]
    NoMemory,
}

impl From<compact_values::NoMemory> for StoreFault {
    ghost from_gives = { λ _ fault. fault ≡ NoMemory };

    fn from(_: compact_values::NoMemory) -> Self {
        StoreFault::NoMemory
    }
}

impl From<host_edge::Failed> for StoreFault {
    ghost from_gives = { λ _ fault. fault ≡ Failed };

    fn from(_: host_edge::Failed) -> Self {
        StoreFault::Failed
    }
}
