//! The keys of a vault: HMAC with SHA-256 (RFC 2104), PBKDF2 over it (RFC 8018), and the three keys
//! that are derived from a vault's password and salt.
//!
//! ```rust
//! let mut meter = Meter::new();
//! let keys = derive(b"password", b"salt", &mut meter);
//! assert_eq!(rt; meter.count(), 1);
//! let mut tag = Hmac::new(&keys.mac);
//! tag.update(b"cipher");
//! tag.update(b"text");
//! assert_eq!(rt; tag.finish(), hmac(&keys.mac, b"ciphertext"));
//! ```
#![tactic(auto)]

mod hmac_sha256;
mod keys;
mod meter;
mod one_shot;
mod pbkdf2_hmac;
mod xor;

pub use hmac_sha256::Hmac;
pub use keys::{Derivation, Keys, derive};
pub use meter::Meter;
pub use one_shot::hmac;
pub use pbkdf2_hmac::pbkdf2;
