//! Working with vaults: password files and lists of secrets, and encrypting, decrypting and
//! rekeying in the memory that the input was read into.
//!
//! ```rust
//! let mut secrets = Secrets::new();
//! secrets.push(Label::new("dev")?, password_of(b"secret\n")?)?;
//! let choice = secrets.encrypt_choice(None)?;
//! let salt = Salt::new(b"a salt of its own").unwrap();
//! let mut work = [0; 64];
//! let mut src = MemSource::new(b"plaintext", 4_096);
//! let mut sink = MemSink::new(alloc, 4_096);
//! let mut meter = Meter::new();
//! let form = Form::Envelope;
//! prepare_encrypt(&mut src, &mut work, &secrets, choice, form, &salt, &mut meter)?
//!     .write_to(&mut sink)?;
//! assert!(rt; sink.bytes().starts_with(b"$ANSIBLE_VAULT;1.2;AES256;dev\n"));
//! ```
#![tactic(auto)]

mod choice;
mod decryption;
mod encryption;
mod input;
pub mod laws;
mod limits;
mod password;
mod ready;
mod rekeying;
mod sealing;
mod secrets;
mod tag;
mod tried_secrets;
mod unsealing;

pub use choice::ChoiceFault;
pub use decryption::{prepare_decrypt, prepare_decrypt_in};
pub use encryption::{prepare_encrypt, prepare_encrypt_in};
pub use limits::PASSWORD_FILE_LIMIT;
pub use password::{SecretFault, password_of};
pub use ready::{Form, Ready, WriteFault};
pub use rekeying::{prepare_rekey, prepare_rekey_in};
pub use secrets::{ListFault, SealingSecret, Secrets};
pub use vault_fault::{Fault, LabelRule, Role, SECRET_COUNT_LIMIT};
