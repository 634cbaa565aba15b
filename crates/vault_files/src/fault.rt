//! The faults of files.
use thiserror::Error;

/// Why a file could not be opened or read.
#[derive(Clone, Copy, Debug, PartialEq, Eq, Error)]
pub enum FileFault {
    /// There is no file at the path, or it cannot be opened.
    #[error("the file cannot be opened")]
    CannotOpen,
    /// The file was opened, but reading it failed.
    #[error("the file cannot be read")]
    CannotRead,
}
