//! The inner text of an envelope, read in pieces: salt, tag and ciphertext in hexadecimal, with LF
//! between them.
ghost use Rattle.std.specs.Prelude.{◌≡◌, ◌<◌, ◌≤◌, ◌++◌, ◌∷◌, ℕ, List, [], length};
ghost use Rattle.std.specs.Prelude.{IfNone, IfSome};
ghost use Rattle.vault_text.specs.Envelope.{read_inner};
ghost use Rattle.vault_text.specs.EnvelopeReader.{InnerHas, MayHave, next_part};
ghost use Rattle.vault_text.specs.Limits.{ciphertext_limit};
ghost use Rattle.vault_text.specs.Pieces.{TakesPiece, TakesUpTo};

use super::parts::{CiphertextPart, ShortPart};
use crate::fault::TextFault;
use crate::header::split_at_byte;
use crate::label::Label;
use crate::limits::{SALT_LIMIT, TAG_LENGTH};
use crate::line::LINE_BYTES;
use crate::payload::Payload;
use crate::salt::Salt;
use crate::text_memory::TextMemory;
use std::marker::Model;

/// A part of the inner text.
#[derive(Clone, Copy)]
pub(super) enum Part {
    Salt,
    Tag,
    Ciphertext,
}

impl Part {
    /// The digits that a text has for the part, and the text after the LF that ends them, if any.
    fn split(self, text: &[u8]) -> (&[u8], Option<&[u8]>)
        ensures digits { MayHave self result.0.now }
        ensures whole { IfNone result.1 (text.now ≡ result.0.now) }
        ensures cut { IfSome result.1 (λ rest. text.now ≡ result.0.now ++ 10 ∷ rest.now) }
        ensures early { IfSome result.1 (λ rest. self ≡ Part.Ciphertext → ⊥) }
        ensures bound { length result.0.now ≤ length text.now }
        ensures shorter { IfSome result.1 (λ rest. length rest.now < length text.now) }
    {
        match self {
            Part::Salt | Part::Tag => split_at_byte(text, b'\n'),
            Part::Ciphertext => (text, None),
        }
    }

    /// The next part; the ciphertext is the last.
    fn next(self) -> Part
        ensures { result ≡ next_part self }
    {
        match self {
            Part::Salt => Part::Tag,
            Part::Tag | Part::Ciphertext => Part::Ciphertext,
        }
    }
}

/// The inner text so far.
#[derive(Drop)]
pub(super) struct InnerReader<'a> {
    /// The part that the next text belongs to.
    part: Part,
    salt: ShortPart<SALT_LIMIT>,
    tag: ShortPart<TAG_LENGTH>,
    ciphertext: CiphertextPart<'a>,
}

impl<'a> Model for InnerReader<'a> {
    ghost use Rattle.vault_text.specs.EnvelopeReader.{InnerState};

    ghost Value = { InnerState };

    ghost view = { λ r. record {
      part = r.part;
      salt = r.salt;
      tag = r.tag;
      ciphertext = r.ciphertext;
    } };
}

impl<'a> InnerReader<'a> {
    pub(super) fn new(memory: TextMemory<'a>) -> Self
        requires { memory.bytes ≡ [] }
        ensures { InnerHas memory.entry.limit result [] }
    {
        InnerReader {
            part: Part::Salt,
            salt: ShortPart::new(),
            tag: ShortPart::new(),
            ciphertext: CiphertextPart::new(memory),
        }
    }

    /// Takes the next piece of text.
    // Inlined, and without a loop for ciphertext, so that the length of a line's text is known.
    #[inline(always)]
    pub(super) fn extend(&mut self, text: &[u8])
        requires { length text.now ≤ LINE_BYTES }
        ensures { (limit : ℕ) → TakesPiece (InnerHas limit) self.old text.now self.new }
    {
        if let Part::Ciphertext = self.part {
            self.extend_digits(text);
            return;
        }
        let mut rest = text;
        while !rest.is_empty() {
            rest = self.extend_part(rest);
        }
    }

    /// Takes the digits that the text has for the current part, and returns the rest.
    fn extend_part<'t>(&mut self, text: &'t [u8]) -> &'t [u8]
        requires some { 0 < length text.now }
        requires short { length text.now ≤ LINE_BYTES }
        ensures shorter { length result.now < length text.now }
        ensures taken { (limit : ℕ) →
            TakesUpTo (InnerHas limit) self.old text.now result.now self.new }
    {
        let (digits, rest) = self.part.split(text);
        self.extend_digits(digits);
        let Some(rest) = rest else {
            return &[];
        };
        self.part = self.part.next();
        rest
    }

    /// Passes digits to the current part.
    #[inline(always)]
    fn extend_digits(&mut self, digits: &[u8])
        requires short { length digits.now ≤ LINE_BYTES }
        requires digits { MayHave self.old.part digits.now }
        ensures part { self.new.part ≡ self.old.part }
        ensures taken { (limit : ℕ) → TakesPiece (InnerHas limit) self.old digits.now self.new }
    {
        match self.part {
            Part::Salt => self.salt.extend(digits),
            Part::Tag => self.tag.extend(digits),
            Part::Ciphertext => self.ciphertext.extend(digits),
        }
    }

    /// The payload with this label, if no more text follows.
    pub(super) fn finish(self, label: Label) -> Result<Payload<'a>, TextFault>
        ensures { (limit : ℕ) (text : List ℕ) → InnerHas (ciphertext_limit limit) self.entry text
            → result ≡ read_inner limit label text }
    {
        let InnerReader {
            part,
            salt,
            tag,
            ciphertext,
        } = self;
        let Part::Ciphertext = part else {
            return Err(TextFault::BadPayload);
        };
        let Some(salt) = Salt::new(salt.finish()?) else {
            return Err(TextFault::BadPayload);
        };
        let Ok(tag) = <[u8; TAG_LENGTH]>::try_from(tag.finish()?) else {
            return Err(TextFault::BadPayload);
        };
        let ciphertext = ciphertext.finish()?;
        Ok(Payload {
            label,
            salt,
            tag,
            ciphertext,
        })
    }
}
