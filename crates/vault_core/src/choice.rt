//! Choosing the secret to encrypt with.
ghost use Rattle.std.specs.Prelude.{◌≡◌, position};
ghost use Rattle.std.specs.Option.{option_copied};
ghost use Rattle.vault_core.specs.Choice.{chosen_index, of_choice};
ghost use Rattle.vault_core.specs.Secrets.{has_label};

use crate::secrets::Secret;
use thiserror::Error;
use vault_fault::Fault;
use vault_text::Label;

/// Why no secret was chosen to encrypt with.
#[derive(Clone, Copy, Debug, PartialEq, Eq, Error)]
#[error("{}", Fault::from(*self).text())]
pub enum ChoiceFault {
    NoEncryptSecret,
    ManyEncryptSecrets,
    UnknownEncryptId,
}

impl From<ChoiceFault> for Fault {
    ghost from_gives = { λ fault of. of ≡ of_choice fault };

    fn from(fault: ChoiceFault) -> Self {
        match fault {
            ChoiceFault::NoEncryptSecret => Fault::NoEncryptSecret,
            ChoiceFault::ManyEncryptSecrets => Fault::ManyEncryptSecrets,
            ChoiceFault::UnknownEncryptId => Fault::UnknownEncryptId,
        }
    }
}

/// The index of the first secret with the label, or of the only one if no label is given.
pub(crate) fn chosen_index(secrets: &[Secret], label: Option<&Label>) -> Result<usize, ChoiceFault>
    ensures { result ≡ chosen_index secrets.now (option_copied label.entry) }
{
    if secrets.is_empty() {
        return Err(ChoiceFault::NoEncryptSecret);
    }
    match label {
        Some(label) => index_of(secrets, label).ok_or(ChoiceFault::UnknownEncryptId),
        None if secrets.len() == 1 => Ok(0),
        None => Err(ChoiceFault::ManyEncryptSecrets),
    }
}

fn index_of(secrets: &[Secret], label: &Label) -> Option<usize>
    ensures { result ≡ position (has_label label.now) secrets.now }
{
    secrets.iter().position(|secret| secret.has_label(label))
}
