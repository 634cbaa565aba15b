//! Tests of the calls on vaults, of requests and of files, and helpers that tests of whole runs
//! also use: command lines and a reader that counts.
#![tactic(auto)]

#[cfg(test)]
mod binding_labels;
mod counting_reader;
#[cfg(test)]
mod each_byte;
#[cfg(test)]
mod endless_line_ends;
#[cfg(test)]
mod fault_texts;
#[cfg(test)]
mod host_files;
#[cfg(test)]
mod memory_files;
#[cfg(test)]
mod prefixes;
#[cfg(test)]
mod rekeying;
#[cfg(test)]
mod requests;
#[cfg(test)]
mod secrets;
mod words;

pub use counting_reader::CountingReader;
pub use words::line_of;
