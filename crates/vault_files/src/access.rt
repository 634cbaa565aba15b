//! The permissions of an output.

/// Who may read and write an output that already exists. A new one is always for its owner only.
#[derive(Clone, Copy, Debug, PartialEq, Eq)]
pub enum Access {
    /// The same users as before.
    Kept,
    /// Only its owner, if it is a regular file.
    OwnerOnly,
}
