//! The parts of the inner text, whose digits come in pieces: the salt and the tag, which are short,
//! and the ciphertext.
ghost use Rattle.std.specs.Prelude.{◌≡◌, ◌<◌, ◌≤◌, ℕ, List, [], IfErr, IfOk, IfSome, OnErr, Err};
ghost use Rattle.std.specs.Prelude.{Ok, Some, length};
ghost use Rattle.vault_text.specs.EnvelopeReader.{PartHas};
ghost use Rattle.vault_text.specs.Hexadecimal.{unhex};
ghost use Rattle.vault_text.specs.InnerText.{ciphertext_of};
ghost use Rattle.vault_text.specs.Pieces.{TakesPiece};
ghost use Rattle.vault_text.specs.declared.fault.TextFault.TheVariants.{BadPayload};

use crate::fault::TextFault;
use crate::hexadecimal::HexDecoder;
use crate::line::{LINE_BYTES, LINE_CIPHERTEXT};
use crate::text_memory::TextMemory;
use arrayvec::ArrayVec;
use std::marker::Model;

/// A salt or a tag so far.
#[derive(Drop)]
pub(super) struct ShortPart<const LIMIT: usize> {
    bytes: ArrayVec<u8, LIMIT>,
    decoder: HexDecoder,
    /// Whether the part has more bytes than fit.
    is_long: bool,
}

impl<const LIMIT: usize> Model for ShortPart<LIMIT> {
    ghost use Rattle.vault_text.specs.EnvelopeReader.{PartState};

    ghost Value = { PartState };

    ghost view = { λ p. record {
      bytes = p.bytes.items;
      decoder = p.decoder;
      limit = LIMIT;
      is_long = p.is_long;
    } };
}

impl<const LIMIT: usize> ShortPart<LIMIT> {
    pub(super) fn new() -> Self
        ensures { PartHas LIMIT result [] }
    {
        ShortPart {
            bytes: ArrayVec::new(),
            decoder: HexDecoder::new(),
            is_long: false,
        }
    }

    /// Takes the next digits.
    pub(super) fn extend(&mut self, digits: &[u8])
        requires { length digits.now ≤ LINE_BYTES }
        ensures { TakesPiece (PartHas LIMIT) self.old digits.now self.new }
    {
        let mut bytes = [0; LINE_CIPHERTEXT];
        let count = self.decoder.decode(digits, &mut bytes);
        if self.bytes.try_extend_from_slice(&bytes[..count]).is_err() {
            self.is_long = true;
        }
    }

    /// The bytes of the part, if no more digits follow.
    pub(super) fn finish(&self) -> Result<&[u8], TextFault>
        ensures bytes { (digits : List ℕ) → PartHas LIMIT self.now digits
            → IfOk result (λ bytes. unhex digits ≡ Some bytes.now) }
        ensures fits { IfOk result (λ bytes. length bytes.now ≤ LIMIT) }
        ensures fault { IfErr result (λ fault. fault ≡ BadPayload) }
        ensures long { (digits : List ℕ) → PartHas LIMIT self.now digits
            → OnErr result (IfSome (unhex digits) (λ bytes. LIMIT < length bytes)) }
    {
        if self.is_long || !self.decoder.is_complete() {
            return Err(TextFault::BadPayload);
        }
        Ok(self.bytes.as_slice())
    }
}

/// The ciphertext so far, in the reader's memory.
#[derive(Drop)]
pub(super) struct CiphertextPart<'a> {
    memory: TextMemory<'a>,
    decoder: HexDecoder,
    /// Whether the ciphertext has more bytes than fit.
    is_long: bool,
}

impl<'a> Model for CiphertextPart<'a> {
    ghost use Rattle.vault_text.specs.EnvelopeReader.{PartState};

    ghost Value = { PartState };

    ghost view = { λ p. record {
      bytes = p.memory.bytes;
      decoder = p.decoder;
      limit = p.memory.limit;
      is_long = p.is_long;
    } };
}

impl<'a> CiphertextPart<'a> {
    pub(super) fn new(memory: TextMemory<'a>) -> Self
        requires { memory.bytes ≡ [] }
        ensures { PartHas memory.entry.limit result [] }
    {
        CiphertextPart {
            memory,
            decoder: HexDecoder::new(),
            is_long: false,
        }
    }

    /// Takes the next digits.
    #[inline(always)]
    pub(super) fn extend(&mut self, digits: &[u8])
        requires { length digits.now ≤ LINE_BYTES }
        ensures { (limit : ℕ) → TakesPiece (PartHas limit) self.old digits.now self.new }
    {
        let mut bytes = [0; LINE_CIPHERTEXT];
        let count = self.decoder.decode(digits, &mut bytes);
        if count <= self.memory.room() {
            self.memory.put(&bytes[..count]);
        } else {
            self.is_long = true;
        }
    }

    /// The ciphertext, if no more digits follow.
    pub(super) fn finish(self) -> Result<&'a mut [u8], TextFault>
        ensures bytes { (limit : ℕ) (digits : List ℕ) → PartHas limit self.entry digits
            → IfOk result (λ bytes. ciphertext_of limit digits ≡ Ok bytes.now) }
        ensures fault { (limit : ℕ) (digits : List ℕ) → PartHas limit self.entry digits
            → IfErr result (λ fault. ciphertext_of limit digits ≡ Err fault) }
    {
        let CiphertextPart {
            memory,
            decoder,
            is_long,
        } = self;
        if !decoder.is_complete() {
            return Err(TextFault::BadPayload);
        }
        if is_long {
            return Err(TextFault::CipherTooLong);
        }
        Ok(memory.into_bytes())
    }
}
