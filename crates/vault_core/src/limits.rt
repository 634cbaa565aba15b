//! The limit on passwords.

/// The longest password file, and so the longest password, in bytes.
pub const PASSWORD_FILE_LIMIT: usize = 4096;
