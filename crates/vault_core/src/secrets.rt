//! Secrets, and the list of secrets that are tried on a vault.
ghost use Rattle.std.specs.Prelude.{◌≡◌, ◌<◌, ◌≤◌, ◌↔◌, [], ◌∷◌, ◌++◌, length, IsErr, IfOk};
ghost use Rattle.std.specs.Prelude.{OnOk, OnErr};
ghost use Rattle.std.specs.Option.{option_copied};
ghost use Rattle.vault_core.specs.Choice.{chosen_index};
ghost use Rattle.vault_core.specs.Password.{IsPassword};
ghost use Rattle.vault_fault.specs.declared.fault.Fault.TheVariants.{TooManySecrets};
ghost use Rattle.vault_fault.specs.declared.label_rule.LabelRule.TheVariants.{Hint};

use crate::choice::{ChoiceFault, chosen_index};
use arrayvec::ArrayVec;
use std::marker::Model;
use thiserror::Error;
use vault_fault::{Fault, LabelRule, SECRET_COUNT_LIMIT};
use vault_text::Label;

/// A secret to seal with: a password under a label.
#[derive(Drop)]
pub struct SealingSecret<'a, 'p> {
    pub label: &'a Label,
    pub password: &'p [u8],
}

impl<'a, 'p> Model for SealingSecret<'a, 'p> {
    ghost use Rattle.vault_core.specs.Secrets.{Secret};

    ghost Value = { Secret };

    ghost view = { λ s. record { label = s.label.now; password = s.password.now } };
}

/// A secret of a list.
#[derive(Drop)]
pub(crate) struct Secret<'p> {
    pub label: Label,
    pub password: &'p [u8],
}

impl<'p> Model for Secret<'p> {
    ghost use Rattle.vault_core.specs.Secrets.{Secret};

    ghost Value = { Secret };

    ghost view = { λ s. record { label = s.label; password = s.password.now } };
}

impl<'p> Secret<'p> {
    ghost use Rattle.vault_core.specs.Secrets.{has_label};

    pub(crate) fn to_seal_with(&self) -> SealingSecret<'_, 'p>
        ensures { result ≡ self.now }
    {
        SealingSecret {
            label: &self.label,
            password: self.password,
        }
    }

    pub(crate) fn has_label(&self, label: &Label) -> bool
        ensures { result ≡ has_label label.now self.now }
    {
        self.label == *label
    }
}

/// An unused slot of a list.
impl<'p> Default for Secret<'p> {
    fn default() -> Self {
        Secret {
            label: Label::default_label(),
            password: b"",
        }
    }
}

/// Why a secret cannot be added to a list.
#[derive(Clone, Copy, Debug, PartialEq, Eq, Error)]
#[error("{}", Fault::from(*self).text())]
pub enum ListFault {
    TooManySecrets,
}

impl From<ListFault> for Fault {
    ghost from_gives = { λ _ of. of ≡ TooManySecrets };

    fn from(_: ListFault) -> Self {
        Fault::TooManySecrets
    }
}

/// A list of at most 16 secrets, whose passwords are borrowed, and what an envelope's label means
/// for them.
#[derive(Drop)]
pub struct Secrets<'p> {
    list: ArrayVec<Secret<'p>, SECRET_COUNT_LIMIT>,
    rule: LabelRule,
}

impl<'p> Model for Secrets<'p> {
    ghost use Rattle.vault_core.specs.Secrets.{SecretList};

    ghost Value = { SecretList };

    ghost view = { λ s. record { secrets = s.list.items; rule = s.rule } };
}

impl<'p> Secrets<'p> {
    ghost use Rattle.vault_core.specs.Secrets.{secret_at};

    /// No secrets, and labels that are hints.
    pub fn new() -> Self
        ensures { result ≡ record { secrets = []; rule = Hint } }
    {
        Secrets {
            list: ArrayVec::new(),
            rule: LabelRule::Hint,
        }
    }

    /// The number of secrets.
    pub fn len(&self) -> usize
        ensures { result ≡ length self.now.secrets }
    {
        self.list.len()
    }

    pub(crate) fn as_slice(&self) -> &[Secret<'p>]
        ensures secrets { result.now ≡ self.now.secrets }
        ensures fits { length result.now ≤ SECRET_COUNT_LIMIT }
    {
        self.list.as_slice()
    }

    /// The secret at an index, counted from 0.
    pub(crate) fn get(&self, index: usize) -> &Secret<'p>
        requires { index < length self.now.secrets }
        ensures { result.now ≡ secret_at index self.now.secrets }
    {
        &self.list.as_slice()[index]
    }

    pub(crate) fn rule(&self) -> LabelRule
        ensures { result ≡ self.now.rule }
    {
        self.rule
    }

    /// Sets what the label of an envelope means.
    pub fn set_rule(&mut self, rule: LabelRule)
        ensures { self.new ≡ record { secrets = self.old.secrets; rule = rule } }
    {
        self.rule = rule;
    }

    /// Adds a secret at the end. If the list is full, this fails and leaves it unchanged.
    pub fn push(&mut self, label: Label, password: &'p [u8]) -> Result<(), ListFault>
        requires { IsPassword password.now }
        ensures added { OnOk result (self.new.secrets
            ≡ self.old.secrets ++ record { label = label; password = password.now } ∷ []) }
        ensures rule { OnOk result (self.new.rule ≡ self.old.rule) }
        ensures full { IsErr result ↔ (length self.old.secrets ≡ SECRET_COUNT_LIMIT) }
        ensures unchanged { OnErr result (self.new ≡ self.old) }
    {
        let pushed = self.list.try_push(Secret { label, password });
        pushed.map_err(|_| ListFault::TooManySecrets)
    }

    /// The index, from 0, of the secret to encrypt with: the first with the label, or the only one
    /// if no label is given.
    pub fn encrypt_choice(&self, label: Option<&Label>) -> Result<usize, ChoiceFault>
        ensures choice { result ≡ chosen_index self.now.secrets (option_copied label.entry) }
        ensures within { IfOk result (λ index. index < length self.now.secrets) }
    {
        chosen_index(self.as_slice(), label)
    }
}
