//! AES-256 (FIPS 197) in counter mode (SP 800-38A), and PKCS #7 padding (RFC 5652).
//!
//! The cipher is not constant-time: the table entries that it reads depend on the key and on the
//! bytes, and others who share the processor may learn them through its caches.
//!
//! ```rust
//! let key = Key::new(&[7; 32]);
//! let mut bytes = *b"of any length";
//! ctr_apply(&key, &[0; 16], &mut bytes);
//! assert_ne!(rt; bytes, *b"of any length");
//! ctr_apply(&key, &[0; 16], &mut bytes);
//! assert_eq!(rt; bytes, *b"of any length");
//! ```
#![tactic(auto)]

mod counter_mode;
mod key;
mod key_expansion;
pub mod laws;
mod padding;
mod rounds;
mod tables;

pub use counter_mode::ctr_apply;
pub use key::Key;
pub use padding::{pad, unpad};
