//! The sizes of a full line in the body of a written envelope.

/// The number of digits on a line.
pub(crate) const LINE_DIGITS: usize = 80;

/// The number of bytes of inner text that they spell. Most of these are digits as well.
pub(crate) const LINE_BYTES: usize = LINE_DIGITS / 2;

/// The number of bytes of ciphertext that the inner text of a line spells.
pub(crate) const LINE_CIPHERTEXT: usize = LINE_BYTES / 2;
