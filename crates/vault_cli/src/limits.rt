//! Limits of a run.

/// The length of the salt at the start of a salt file, in bytes.
pub const SEALING_SALT_LENGTH: usize = 32;
