//! A second writer of envelopes, for tests. It uses only the parts of the format: no reader or
//! writer of the library takes part in what it makes.
#![tactic(auto)]

mod envelopes;

pub use envelopes::{EMPTY_ENVELOPE, block, envelope, spelled, tagged};
