//! Memory for a text while it is read and processed.
ghost use Rattle.std.specs.Prelude.{◌≡◌, ◌+◌, ◌≤◌, ◌++◌, [], length, take, vec_capacity};

use std::marker::Model;

/// Where the text is stored.
#[derive(Drop)]
pub(crate) enum Place<'a> {
    /// At the start of a slice, with this length.
    Borrowed(&'a mut [u8], usize),
    /// In a vector, all of which is the text.
    Reserved(&'a mut Vec<u8>),
}

/// Memory for one text, which grows at its end up to a limit and never allocates. All bytes of a
/// slice were written when it was made. The system provides a vector's capacity only as far as the
/// text reaches, so a short text takes little memory.
#[derive(Drop)]
pub struct TextMemory<'a> {
    place: Place<'a>,
    limit: usize,
}

impl<'a> Model for TextMemory<'a> {
    ghost use Rattle.vault_text.specs.TextMemory.{HasRoom, TextMemoryState, bytes_of};

    ghost Value = { TextMemoryState };

    ghost view = { λ m. record { bytes = bytes_of m.place; limit = m.limit } };

    ghost invariant = { λ m. HasRoom m.place m.limit };
}

impl<'a> TextMemory<'a> {
    /// The whole slice, with no text in it.
    pub fn borrowed(memory: &'a mut [u8]) -> Self
        ensures { result ≡ record { bytes = []; limit = length memory.old } }
    {
        let limit = memory.len();
        TextMemory {
            place: Place::Borrowed(memory, 0),
            limit,
        }
    }

    /// `limit` bytes of the vector's capacity, with no text in them. The vector is cleared.
    pub fn reserved(memory: &'a mut Vec<u8>, limit: usize) -> Self
        requires { limit ≤ vec_capacity memory.old }
        ensures { result ≡ record { bytes = []; limit = limit } }
    {
        memory.clear();
        TextMemory {
            place: Place::Reserved(memory),
            limit,
        }
    }

    /// How many more bytes fit.
    pub fn room(&self) -> usize
        ensures { length self.now.bytes + result ≡ self.now.limit }
    {
        match &self.place {
            Place::Borrowed(_, filled) => self.limit - *filled,
            Place::Reserved(memory) => self.limit - memory.len(),
        }
    }

    /// Appends bytes to the text.
    pub fn put(&mut self, bytes: &[u8])
        requires { length self.old.bytes + length bytes.now ≤ self.old.limit }
        ensures { self.new
            ≡ record { bytes = self.old.bytes ++ bytes.now; limit = self.old.limit } }
    {
        match &mut self.place {
            Place::Borrowed(memory, filled) => {
                let end = *filled + bytes.len();
                memory[*filled..end].copy_from_slice(bytes);
                *filled = end;
            }
            Place::Reserved(memory) => {
                // It stays within the capacity.
                memory.extend_from_slice(bytes).unwrap();
            }
        }
    }

    /// The text, in place.
    pub fn into_bytes(self) -> &'a mut [u8]
        ensures bytes { result.now ≡ self.entry.bytes }
        ensures bound { length result.now ≤ self.entry.limit }
    {
        let TextMemory { place, limit: _ } = self;
        match place {
            Place::Borrowed(memory, filled) => &mut memory[..filled],
            Place::Reserved(memory) => memory.as_mut_slice(),
        }
    }

    /// The text, in place, followed by `spare` further bytes of unspecified value.
    pub fn into_bytes_and_spare(self, spare: usize) -> &'a mut [u8]
        requires { length self.bytes + spare ≤ self.limit }
        ensures bytes { take (length self.entry.bytes) result.now ≡ self.entry.bytes }
        ensures length { length result.now ≡ length self.entry.bytes + spare }
    {
        let TextMemory { place, limit: _ } = self;
        match place {
            Place::Borrowed(memory, filled) => &mut memory[..filled + spare],
            Place::Reserved(memory) => {
                // It stays within the capacity.
                memory.resize(memory.len() + spare, 0).unwrap();
                memory.as_mut_slice()
            }
        }
    }
}
