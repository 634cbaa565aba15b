//! Definitions that requests and vaults share: the table of faults, the rule for labels, and the
//! most secrets that a list may have.
//!
//! ```rust
//! assert_eq!(rt; Fault::NoSecretFits.number(), 20);
//! assert_eq!(rt; Fault::NoSecretFits.text(), "no secret decrypts this vault");
//! ```
#![tactic(auto)]

mod fault;
mod label_rule;
pub mod laws;
mod limits;

pub use fault::{Fault, Role};
pub use label_rule::LabelRule;
pub use limits::{FAULT_TEXT_LIMIT, SECRET_COUNT_LIMIT};
