//! Tests of the program over files in memory, the examples of the libraries' first pages, and the
//! programs of docs/library.md.
#![tactic(auto)]

#[cfg(test)]
mod examples;
#[cfg(test)]
mod in_memory;
pub mod library;
