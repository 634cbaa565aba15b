//! Reading an envelope that comes in pieces: the header line, then the digits of the body, then the
//! parts of the inner text that these spell. Each layer takes what the layer above passes on.
ghost use Rattle.std.specs.Prelude.{◌≡◌, ◌≤◌, ℕ, List, [], ◌++◌, length};
ghost use Rattle.vault_text.specs.Envelope.{read_within};
ghost use Rattle.vault_text.specs.EnvelopeReader.{HasRead};
ghost use Rattle.vault_text.specs.Limits.{IsWorkLength, envelope_limit, limit_of};
ghost use Rattle.vault_text.specs.declared.limits.TheConstants.{ENVELOPE_LIMIT};

mod body;
mod header_line;
mod inner_text;
mod parts;

use crate::fault::TextFault;
use crate::limits::{PADDING_LIMIT, envelope_limit};
use crate::payload::Payload;
use crate::text_memory::TextMemory;
use body::BodyReader;
use header_line::HeaderLine;
use std::marker::Model;

/// Reads an envelope that comes in pieces of any length. Only `finish` reports a fault, since one
/// that comes earlier in the order may still be found. The ciphertext goes into the memory that the
/// reader borrows; the reader keeps no more of the other input than its type has room for.
#[derive(Drop)]
pub struct EnvelopeReader<'a> {
    /// The limit of the plaintext.
    limit: usize,
    /// The number of bytes read so far, saturating at `usize::MAX`.
    bytes_read: usize,
    line: HeaderLine,
    body: BodyReader<'a>,
}

impl<'a> Model for EnvelopeReader<'a> {
    ghost use Rattle.std.specs.Prelude.{◌≤◌};
    ghost use Rattle.vault_text.specs.EnvelopeReader.{ReaderState};
    ghost use Rattle.vault_text.specs.declared.limits.TheConstants.{PLAINTEXT_LIMIT};

    ghost Value = { ReaderState };

    ghost view = { λ r. record {
      limit = r.limit;
      bytes_read = r.bytes_read;
      line = r.line;
      body = r.body;
    } };

    ghost invariant = { λ r. r.limit ≤ PLAINTEXT_LIMIT };
}

impl<'a> EnvelopeReader<'a> {
    /// A reader that writes the ciphertext to `work`. Plaintext may have up to `work.len() - 16`
    /// bytes, ciphertext up to `work.len()`, and the input up to `input_limit()`.
    pub fn new(work: &'a mut [u8]) -> Self
        requires { IsWorkLength (length work.old) }
        ensures limit { result.limit ≡ limit_of (length work.old) }
        ensures nothing { HasRead result [] }
    {
        EnvelopeReader::in_memory(TextMemory::borrowed(work))
    }

    /// A reader that puts the ciphertext into memory that has no text yet. Its limits are as for
    /// `new`, with the limit of the memory in place of the length of `work`.
    pub fn in_memory(memory: TextMemory<'a>) -> Self
        requires empty { memory.bytes ≡ [] }
        requires room { IsWorkLength memory.limit }
        ensures limit { result.limit ≡ limit_of memory.entry.limit }
        ensures nothing { HasRead result [] }
    {
        EnvelopeReader {
            limit: memory.room() - PADDING_LIMIT,
            bytes_read: 0,
            line: HeaderLine::new(),
            body: BodyReader::new(memory),
        }
    }

    /// The most bytes of input that are read, line ends included.
    pub fn input_limit(&self) -> usize
        ensures value { result ≡ envelope_limit self.now.limit }
        ensures bound { result ≤ ENVELOPE_LIMIT }
    {
        envelope_limit(self.limit)
    }

    /// Takes the next piece of the input.
    pub fn feed(&mut self, piece: &[u8])
        ensures limit { self.new.limit ≡ self.old.limit }
        ensures taken { (input : List ℕ) →
            HasRead self.old input → HasRead self.new (input ++ piece.now) }
    {
        self.bytes_read = self.bytes_read.saturating_add(piece.len());
        let rest = self.line.extend(piece);
        self.body.extend(rest);
    }

    /// The payload of the input, or its first fault in the order of the nine steps: `TooLong` over
    /// `input_limit`, then the faults of the header line, `BadHex`, `BadPayload`, and
    /// `CipherTooLong` if the ciphertext does not fit in the memory.
    pub fn finish(self) -> Result<Payload<'a>, TextFault>
        ensures { (input : List ℕ) →
            HasRead self.entry input → result ≡ read_within self.entry.limit input }
    {
        let EnvelopeReader {
            limit,
            bytes_read,
            line,
            body,
        } = self;
        if bytes_read > envelope_limit(limit) {
            return Err(TextFault::TooLong);
        }
        let label = line.finish()?;
        body.finish(label)
    }
}
