//! Tests of whole runs: the output of each command; envelopes that are damaged, or spelled
//! differently from how they are written; inputs at the limits; devices that fail.
#![tactic(auto)]

#[cfg(test)]
mod decrypting;
#[cfg(test)]
mod encrypting;
#[cfg(test)]
mod failures;
#[cfg(test)]
mod limits;
#[cfg(test)]
mod narrow_writer;
#[cfg(test)]
mod rekeying;
#[cfg(test)]
mod system;
#[cfg(test)]
mod trial;
#[cfg(test)]
mod watched;
