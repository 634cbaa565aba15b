//! Passwords, and the files that contain them.
ghost use Rattle.std.specs.Prelude.{◌≡◌, IfOk, MatchResult};
ghost use Rattle.vault_core.specs.Password.{IsPassword, of_secret, password_of};

use crate::limits::PASSWORD_FILE_LIMIT;
use thiserror::Error;
use vault_fault::Fault;
use vault_text::{MARKER, strip};

const SCRIPT_MARKER: &[u8; 2] = b"#!";

/// Why a file has no usable password, in the order in which the faults are checked.
#[derive(Clone, Copy, Debug, PartialEq, Eq, Error)]
#[error("{}", Fault::from(*self).text())]
pub enum SecretFault {
    SecretTooLong,
    SecretIsScript,
    SecretIsVault,
    SecretEmpty,
}

impl From<SecretFault> for Fault {
    ghost from_gives = { λ fault of. of ≡ of_secret fault };

    fn from(fault: SecretFault) -> Self {
        match fault {
            SecretFault::SecretTooLong => Fault::SecretTooLong,
            SecretFault::SecretIsScript => Fault::SecretIsScript,
            SecretFault::SecretIsVault => Fault::SecretIsVault,
            SecretFault::SecretEmpty => Fault::SecretEmpty,
        }
    }
}

/// The password in a password file: its bytes without the ASCII whitespace at both ends.
#[tactic(auto, unfolding(crate::specs::Password::password_of))]
pub fn password_of(file: &[u8]) -> Result<&[u8], SecretFault>
    ensures password { MatchResult result
        (λ password. password_of file.now ≡ Ok password.now)
        (λ fault. password_of file.now ≡ Err fault) }
    ensures fits { IfOk result (λ password. IsPassword password.now) }
{
    if file.len() > PASSWORD_FILE_LIMIT {
        return Err(SecretFault::SecretTooLong);
    }
    if file.starts_with(SCRIPT_MARKER) {
        return Err(SecretFault::SecretIsScript);
    }
    if file.starts_with(MARKER) {
        return Err(SecretFault::SecretIsVault);
    }
    let password = strip(file);
    if password.is_empty() {
        return Err(SecretFault::SecretEmpty);
    }
    Ok(password)
}
