//! The files of a program: over the runtime, or in memory.
//!
//! ```rust
//! let entries = [MemFile::whole("one", b"first\n")];
//! let mut files = MemFiles::new(alloc, &entries);
//! let mut output = FileOutput::new(&mut files, "two", Access::OwnerOnly);
//! output.begin()?;
//! put_all(&mut output, b"second\n")?;
//! output.finish()?;
//! assert!(rt; files.content("one") == Some(b"first\n".as_slice()));
//! assert!(rt; files.content("two") == Some(b"second\n".as_slice()));
//! ```
#![tactic(auto)]

mod access;
mod fault;
pub mod laws;
mod limits;
mod memory;
mod output;
mod system;

pub use access::Access;
pub use fault::FileFault;
pub use limits::PATH_LIMIT;
pub use memory::{MemFile, MemFileReader, MemFiles, MemWriter};
pub use output::FileOutput;
pub use system::{HostFiles, Prefix, System, open, read_prefix};
