//! Calls of the standard library on files.
use std::fs::FileType;
use std::io::ErrorKind;

/// How a call ended: with a value, or with an error of this kind.
pub type Outcome<T> = Result<T, ErrorKind>;

/// A call of the standard library on a file, and how it ended. `B` is the type of paths and bytes:
/// a slice in the code, a list in a clause.
#[derive(Clone, Copy, Drop)]
pub enum HostCall<B> {
    /// An open of this path for reading.
    OpenToRead(B, Outcome<()>),
    /// An open of this path for writing, as it is. If there is no file, it is created with this
    /// mode, less the umask.
    OpenToWrite(B, u32, Outcome<()>),
    Metadata(Outcome<FileType>),
    /// A change to this mode.
    SetPermissions(u32, Outcome<()>),
    SetLen(u64, Outcome<()>),
    /// A write of these bytes, of which the file took this many.
    Write(B, Outcome<usize>),
    SyncAll(Outcome<()>),
}
