//! Files in memory, for tests and for programs that embed this one.
mod file;
mod path_log;
mod store;

pub use file::{MemFile, MemFileReader};
pub use store::{MemFiles, MemWriter};
