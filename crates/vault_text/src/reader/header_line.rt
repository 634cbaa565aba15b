//! The header line of an envelope, read in pieces.
ghost use Rattle.std.specs.Prelude.{◌≡◌, ℕ, List, ◌++◌, []};
ghost use Rattle.vault_text.specs.Envelope.{body, read_head, without_line_ends};
ghost use Rattle.vault_text.specs.EnvelopeReader.{LineHas};
ghost use Rattle.vault_text.specs.Pieces.{TakesPiece};

use crate::fault::TextFault;
use crate::header::{MARKER, before_line_end, read_header};
use crate::label::Label;
use crate::limits::HEADER_LIMIT;
use arrayvec::ArrayVec;
use std::marker::Model;

/// One byte more than the limit, which shows that a line is too long.
const KEPT_LIMIT: usize = HEADER_LIMIT + 1;

/// The header line so far.
#[derive(Drop)]
pub(super) struct HeaderLine {
    kept: ArrayVec<u8, KEPT_LIMIT>,
    /// Whether the line end was found.
    has_ended: bool,
}

impl Model for HeaderLine {
    ghost use Rattle.vault_text.specs.EnvelopeReader.{LineState};

    ghost Value = { LineState };

    ghost view = { λ l. record { kept = l.kept.items; has_ended = l.has_ended } };
}

impl HeaderLine {
    pub(super) fn new() -> Self
        ensures { LineHas result [] }
    {
        HeaderLine {
            kept: ArrayVec::new(),
            has_ended: false,
        }
    }

    /// Takes the part of the text that belongs to the header line, and returns the rest.
    pub(super) fn extend<'t>(&mut self, text: &'t [u8]) -> &'t [u8]
        ensures line { TakesPiece LineHas self.old text.now self.new }
        ensures body { (input : List ℕ) → LineHas self.old input →
            body (input ++ text.now) ≡ body input ++ without_line_ends result.now }
    {
        if self.has_ended {
            return text;
        }
        let line = before_line_end(text);
        self.has_ended = line.len() < text.len();
        let count = line.len().min(self.kept.remaining_capacity());
        self.kept.try_extend_from_slice(&line[..count]).unwrap();
        &text[line.len()..]
    }

    /// The label that the line names, if nothing more follows.
    pub(super) fn finish(&self) -> Result<Label, TextFault>
        ensures { (input : List ℕ) → LineHas self.now input → result ≡ read_head input }
    {
        if !self.kept.as_slice().starts_with(MARKER) {
            return Err(TextFault::NotVault);
        }
        read_header(self.kept.as_slice())
    }
}
