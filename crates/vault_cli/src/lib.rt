//! The whole run of a request, and of a command line of `ansible-vault`.
//!
//! The crate `vault_request` reads the command line: its options are in `command_line.rt`. Its
//! calls are offered here as well.
//!
//! ```rust
//! let mut words = Vec::new(alloc);
//! for word in ["ansible-vault", "encrypt_string", "--vault-id=one", "--salt=abc", "text"] {
//!     words.push(String::from_str(alloc, word)?)?;
//! }
//! let matches = parse(alloc, words.as_slice())?;
//! let request = settle(alloc, &matches)?;
//! let mut secret_files = Vec::new(alloc);
//! secret_files.push(Vec::from_slice(alloc, b"password\n")?)?;
//! assert_eq!(rt; secret_files.len(), request.files());
//! let (secret_files, mut work) = (secret_files.as_slice(), [0; 64]);
//! let mut src = MemSource::new(b"", 4_096);
//! let mut out = MemSink::new(alloc, 4_096);
//! let mut err = MemSink::new(alloc, 4_096);
//! let status = run(&request, secret_files, b"", &mut work, &mut src, &mut out, &mut err);
//! assert_eq!(rt; status, Status::Success);
//! assert!(rt; out.bytes().starts_with(b"!vault |\n"));
//! ```
#![tactic(auto)]

mod escaping;
mod explaining;
mod in_memory;
pub mod laws;
mod limits;
mod loading;
mod output_access;
mod program;
mod reserving;
mod runs;
mod system;
mod writing;

pub use explaining::reject_words;
pub use in_memory::drive_in_memory;
pub use limits::SEALING_SALT_LENGTH;
pub use program::drive_over;
pub use runs::{Status, report, run};
pub use system::{drive, drive_host};
pub use vault_core::{Fault, LabelRule, Role, SECRET_COUNT_LIMIT};
pub use vault_files::{Access, FileFault, FileOutput, HostFiles, MemFile, MemFiles, System};
pub use vault_request::{CommandName, Request, SALT_TEXT_LIMIT, command, parse, settle};
pub use vault_text::{MemSink, MemSource, ReadSource, Sink, Source, Stage, WriteSink};
