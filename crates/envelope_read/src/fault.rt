use thiserror::Error;

/// Why an envelope is refused. The first that holds, in this order, is told.
#[derive(Clone, Copy, Debug, PartialEq, Eq, Error)]
pub enum EnvelopeFault {
    /// The text is not in the grammar. The place is within the text.
    #[error("no envelope from byte {place} on")]
    NotInGrammar { place: usize },
    /// More than 64 subrequests.
    #[error("more than 64 subrequests")]
    TooMany,
    /// The text of this subrequest, counted from 0 over all Requests, is no base64.
    #[error("subrequest {sub} has no base64")]
    BadBase64 { sub: usize },
    #[error("no memory")]
    NoMemory,
}

impl From<compact_values::NoMemory> for EnvelopeFault {
    ghost use Rattle.std.specs.Prelude.{◌≡◌};
    ghost use Rattle.envelope_read.specs.declared.fault.EnvelopeFault.TheVariants.{NoMemory};

    ghost from_gives = { λ _ e. e ≡ NoMemory };

    fn from(_: compact_values::NoMemory) -> Self {
        EnvelopeFault::NoMemory
    }
}
