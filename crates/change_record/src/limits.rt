//! The limit of bodies.

/// How many bytes a body may have: 32 MiB, as many as a journal takes.
pub const MOST_BODY: usize = 33_554_432;
