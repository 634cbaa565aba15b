//! Limits on the number of secrets, and on the length of a fault's text.

/// The most secrets that a list may have, not counting the new one of `rekey`.
pub const SECRET_COUNT_LIMIT: usize = 16;

/// The length of the longest text of a fault, in bytes.
pub const FAULT_TEXT_LIMIT: usize = 62;
