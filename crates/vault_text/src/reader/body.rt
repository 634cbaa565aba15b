//! The body of an envelope, read in pieces: the inner text in lines of hexadecimal digits.
ghost use Rattle.std.specs.Prelude.{◌≡◌, ◌<◌, ℕ, List, [], IfNone, IfSome, length};
ghost use Rattle.vault_text.specs.Envelope.{read_body, without_line_ends};
ghost use Rattle.vault_text.specs.EnvelopeReader.{BodyHas};
ghost use Rattle.vault_text.specs.Limits.{ciphertext_limit};
ghost use Rattle.vault_text.specs.Pieces.{TakesPiece, TakesUpTo};

use super::inner_text::InnerReader;
use crate::fault::TextFault;
use crate::header::{before_line_end, is_line_end};
use crate::hexadecimal::HexDecoder;
use crate::label::Label;
use crate::line::{LINE_BYTES, LINE_DIGITS};
use crate::payload::Payload;
use crate::text_memory::TextMemory;
use std::marker::Model;

/// The body so far.
#[derive(Drop)]
pub(super) struct BodyReader<'a> {
    decoder: HexDecoder,
    inner: InnerReader<'a>,
}

impl<'a> Model for BodyReader<'a> {
    ghost use Rattle.vault_text.specs.EnvelopeReader.{BodyState};

    ghost Value = { BodyState };

    ghost view = { λ r. record { decoder = r.decoder; inner = r.inner } };
}

impl<'a> BodyReader<'a> {
    pub(super) fn new(memory: TextMemory<'a>) -> Self
        requires { memory.bytes ≡ [] }
        ensures { BodyHas memory.entry.limit result [] }
    {
        BodyReader {
            decoder: HexDecoder::new(),
            inner: InnerReader::new(memory),
        }
    }

    /// Takes the text that comes next, line ends among its digits.
    pub(super) fn extend(&mut self, text: &[u8])
        ensures { (limit : ℕ) →
            TakesPiece (BodyHas limit) self.old (without_line_ends text.now) self.new }
    {
        let mut rest = text;
        while !rest.is_empty() {
            rest = self.extend_chunk(rest);
        }
    }

    /// Takes a line end, or digits of a line, and returns the rest.
    fn extend_chunk<'t>(&mut self, text: &'t [u8]) -> &'t [u8]
        requires { 0 < length text.now }
        ensures shorter { length result.now < length text.now }
        ensures taken { (limit : ℕ) → TakesUpTo (BodyHas limit) self.old
            (without_line_ends text.now) (without_line_ends result.now) self.new }
    {
        if is_line_end(text[0]) {
            return &text[1..];
        }
        if let Some(rest) = self.extend_line(text) {
            return rest;
        }
        let digits = before_line_end(&text[..text.len().min(LINE_DIGITS - 1)]);
        self.extend_digits(digits);
        &text[digits.len()..]
    }

    /// Takes as many digits as a full written line has, if the text begins with them, and returns
    /// the rest. It does not look for a line end.
    fn extend_line<'t>(&mut self, text: &'t [u8]) -> Option<&'t [u8]>
        ensures shorter { IfSome result (λ rest. length rest.now < length text.now) }
        ensures taken { IfSome result (λ rest. (limit : ℕ) → TakesUpTo (BodyHas limit) self.old
            (without_line_ends text.now) (without_line_ends rest.now) self.new) }
        ensures untouched { IfNone result (self.new ≡ self.old) }
    {
        let (line, rest) = text.split_at_checked(LINE_DIGITS)?;
        let mut bytes = [0; LINE_BYTES];
        if !self.decoder.decode_whole(line, &mut bytes) {
            return None;
        }
        self.inner.extend(&bytes);
        Some(rest)
    }

    /// Takes the next digits. With one that waits for its second, they are no more than a line
    /// has.
    fn extend_digits(&mut self, digits: &[u8])
        requires { length digits.now < LINE_DIGITS }
        ensures { (limit : ℕ) → TakesPiece (BodyHas limit) self.old digits.now self.new }
    {
        let mut text = [0; LINE_BYTES];
        let count = self.decoder.decode(digits, &mut text);
        self.inner.extend(&text[..count]);
    }

    /// The payload with this label, if no more digits follow.
    pub(super) fn finish(self, label: Label) -> Result<Payload<'a>, TextFault>
        ensures { (limit : ℕ) (digits : List ℕ) → BodyHas (ciphertext_limit limit) self.entry digits
            → result ≡ read_body limit label digits }
    {
        let BodyReader { decoder, inner } = self;
        if !decoder.is_complete() {
            return Err(TextFault::BadHex);
        }
        inner.finish(label)
    }
}
