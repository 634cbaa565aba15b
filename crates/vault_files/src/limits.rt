//! The limit on paths in memory.

/// The length of the longest path at which a file can be created in memory, as on Linux.
pub const PATH_LIMIT: usize = 4_095;
