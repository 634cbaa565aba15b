//! Limits of the command line.

/// The longest text of `--salt`, in bytes.
pub const SALT_TEXT_LIMIT: usize = 64;
