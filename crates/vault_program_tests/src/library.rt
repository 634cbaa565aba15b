//! The programs of docs/library.md, and tests that run them.
#[cfg(test)]
mod decrypting;
#[cfg(test)]
mod encrypting;
#[cfg(test)]
mod in_memory;
pub mod own_files;
#[cfg(test)]
mod requesting;
#[cfg(test)]
mod tests;
