//! The limits of a host. Definitions and code cite them.

/// How many documents a host may have.
pub const MOST_DOCUMENTS: usize = 16;

/// How many numbers a host may have for its passes.
pub const MOST_PASSES: u32 = 64;
