ghost use Rattle.std.specs.Prelude.{◌≡◌};
ghost use Rattle.change_record.specs.declared.fault.ChangeFault.TheVariants.{NoMemory};

use thiserror::Error;

/// Why no change was read.
#[derive(Clone, Copy, Debug, PartialEq, Eq, Error)]
pub enum ChangeFault {
    /// The bytes are the body of no call that may be made and may move.
    #[error("no body of a change")]
    NotAChange,
    /// No memory was left.
    #[error("no memory")]
    NoMemory,
}

impl From<compact_values::NoMemory> for ChangeFault {
    ghost from_gives = { λ _ e. e ≡ NoMemory };

    fn from(_fault: compact_values::NoMemory) -> ChangeFault {
        ChangeFault::NoMemory
    }
}
