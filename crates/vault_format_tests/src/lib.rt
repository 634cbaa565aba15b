//! Tests of the parts of the format: cipher, keys, devices and envelopes.
#![tactic(auto)]

#[cfg(test)]
mod asked_once;
#[cfg(test)]
mod cipher;
#[cfg(test)]
mod contents;
#[cfg(test)]
mod failing_source;
#[cfg(test)]
mod field_cipher;
#[cfg(test)]
mod keys;
#[cfg(test)]
mod labels;
#[cfg(test)]
mod reading;
#[cfg(test)]
mod text_memory;
#[cfg(test)]
mod vectors;
#[cfg(test)]
mod writing;
