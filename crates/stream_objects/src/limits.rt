//! How large a tree of stream objects may be. Definitions and code cite these; they stand nowhere else.

/// How deep objects may stand in one another, the outermost at depth 1.
pub const MOST_LEVELS: usize = 12;

/// How many objects a tree may have.
pub const MOST_OBJECTS: usize = 262_144;
