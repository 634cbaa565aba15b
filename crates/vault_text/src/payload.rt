//! The contents of an envelope.
ghost use Rattle.std.specs.Prelude.{◌≡◌};

use crate::label::Label;
use crate::limits::TAG_LENGTH;
use crate::salt::Salt;
use std::marker::Model;

/// The contents of an envelope. The tag is not checked against the ciphertext.
#[derive(Drop)]
pub struct Payload<'a> {
    pub(crate) label: Label,
    pub(crate) salt: Salt,
    pub(crate) tag: [u8; TAG_LENGTH],
    pub(crate) ciphertext: &'a mut [u8],
}

impl<'a> Model for Payload<'a> {
    ghost use Rattle.vault_text.specs.Envelope.{Payload};

    ghost Value = { Payload };

    ghost view = { λ p. record {
      label = p.label;
      salt = p.salt;
      tag = p.tag;
      ciphertext = p.ciphertext.now;
    } };
}

impl<'a> Payload<'a> {
    /// The label that the header line names, or `default` if it names none.
    pub fn label(&self) -> &Label
        ensures { result.now ≡ self.now.label }
    {
        &self.label
    }

    /// The salt: at most `SALT_LIMIT` bytes. It may be empty.
    pub fn salt(&self) -> &Salt
        ensures { result.now ≡ self.now.salt }
    {
        &self.salt
    }

    /// The tag as it was read. It need not match the ciphertext.
    pub fn tag(&self) -> &[u8; TAG_LENGTH]
        ensures { result.now ≡ self.now.tag }
    {
        &self.tag
    }

    /// The ciphertext. It may be empty, or have a length that no padded text has.
    pub fn cipher(&self) -> &[u8]
        ensures { result.now ≡ self.now.ciphertext }
    {
        self.ciphertext
    }

    /// The ciphertext, in place in the memory that the reader borrowed.
    pub fn into_body(self) -> &'a mut [u8]
        ensures { result.now ≡ self.entry.ciphertext }
    {
        let Payload { ciphertext, .. } = self;
        ciphertext
    }
}
