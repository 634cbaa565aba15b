//! Text of the Ansible Vault formats 1.1 and 1.2: sources and sinks of bytes, labels, salts and
//! envelopes.
//!
//! ```rust
//! let salt = Salt::new(&[7; 32]).ok_or("the salt is too long")?;
//! let mut sink = MemSink::new(alloc, 4_096);
//! sink.begin()?;
//! write_envelope(&mut sink, &Label::default_label(), &salt, &[0; TAG_LENGTH], b"ciphertext")?;
//! sink.finish()?;
//! assert!(rt; sink.bytes().starts_with(b"$ANSIBLE_VAULT;1.1;AES256\n"));
//! ```
#![tactic(auto)]

mod byte_log;
mod failure_count;
mod fault;
mod header;
mod hexadecimal;
mod label;
pub mod laws;
mod limits;
mod line;
mod payload;
mod reader;
mod salt;
mod sink;
mod source;
mod text_memory;
mod whitespace;
mod writing;

pub use failure_count::FailureCount;
pub use fault::TextFault;
pub use header::MARKER;
pub use label::{BadLabel, Label};
pub use limits::{
    CIPHERTEXT_LIMIT, ENVELOPE_LIMIT, HEADER_LIMIT, LABEL_LIMIT, PADDING_LIMIT, PLAINTEXT_LIMIT,
    SALT_LIMIT, TAG_LENGTH,
};
pub use payload::Payload;
pub use reader::EnvelopeReader;
pub use salt::Salt;
pub use sink::{FailingSink, MemSink, Sink, SinkFailed, Stage, WriteSink, put_all};
pub use source::{FailingSource, MemSource, ReadSource, Source, SourceFailed, fill_up};
pub use text_memory::TextMemory;
pub use whitespace::strip;
pub use writing::{write_block, write_envelope};
