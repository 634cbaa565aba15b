//! Bytes as lines of hexadecimal digits.
ghost use Rattle.std.specs.Prelude.{◌≡◌, ◌+◌, ◌*◌, ◌≤◌, ◌++◌, ◌∷◌, [], length};
ghost use Rattle.arrayvec.specs.ArrayVec.{array_vec_len};
ghost use Rattle.hex.specs.Hex.{encode_lower};
ghost use Rattle.vault_text.specs.Written.{hexadecimal_lines};

use crate::line::{LINE_BYTES, LINE_CIPHERTEXT, LINE_DIGITS};
use arrayvec::ArrayVec;

pub(super) const INDENTATION_LIMIT: usize = 10;

/// The longest line, with its indentation and its end.
const LINE_LIMIT: usize = INDENTATION_LIMIT + LINE_DIGITS + 1;

/// The number of first lines, which have room for the longest salt and the tag.
const FIRST_LINES: usize = 15;

/// The number of bytes that the first lines spell.
pub(super) const FIRST_BYTES: usize = FIRST_LINES * LINE_BYTES;

/// The number of lines of ciphertext that are passed to a sink at once, some 16 KiB of text.
const BATCH_LINES: usize = 203;

/// The number of bytes of ciphertext on the lines of a batch.
pub(super) const BATCH_CIPHERTEXT: usize = BATCH_LINES * LINE_CIPHERTEXT;

/// Room for the text before the lines of a body: the start of a block, and the header line.
pub(super) const HEAD_ROOM: usize = 256;

/// The longest text before the lines of a batch: the head, and the first lines of the body.
pub(super) const OPENING_LIMIT: usize = HEAD_ROOM + FIRST_LINES * LINE_LIMIT;

/// The longest text that is passed to a sink at once.
pub(super) const TEXT_LIMIT: usize = OPENING_LIMIT + BATCH_LINES * LINE_LIMIT;

/// Text that is collected before it is passed to a sink.
pub(super) type Text = ArrayVec<u8, TEXT_LIMIT>;

/// The inner text as far as the first lines of a body spell it.
pub(super) type First = ArrayVec<u8, FIRST_BYTES>;

/// Appends bytes, for which there must be room.
pub(super) fn append<const LIMIT: usize>(text: &mut ArrayVec<u8, LIMIT>, bytes: &[u8])
    requires { array_vec_len text.old + length bytes.now ≤ LIMIT }
    ensures text { text.new.items ≡ text.old.items ++ bytes.now }
    ensures length { array_vec_len text.new ≡ array_vec_len text.old + length bytes.now }
{
    text.try_extend_from_slice(bytes).unwrap();
}

/// Writes the digits of bytes to the start of memory that has room for them, and returns them.
pub(super) fn digits_of<'d>(bytes: &[u8], memory: &'d mut [u8]) -> &'d [u8]
    requires { 2 * length bytes.now ≤ length memory.old }
    ensures digits { result.now ≡ encode_lower bytes.now }
    ensures length { length result.now ≡ 2 * length bytes.now }
{
    let digits = &mut memory[..2 * bytes.len()];
    hex::encode_to_slice(bytes, digits).unwrap();
    digits
}

/// Appends a line that spells the bytes.
fn append_line(text: &mut Text, indentation: &[u8], bytes: &[u8])
    requires few { length bytes.now ≤ LINE_BYTES }
    requires room { array_vec_len text.old + length indentation.now + 2 * length bytes.now + 1
        ≤ TEXT_LIMIT }
    ensures text { text.new.items
        ≡ text.old.items ++ (indentation.now ++ encode_lower bytes.now ++ 10 ∷ []) }
    ensures length { array_vec_len text.new
        ≡ array_vec_len text.old + length indentation.now + 2 * length bytes.now + 1 }
{
    append(text, indentation);
    append(text, digits_of(bytes, &mut [0; LINE_DIGITS]));
    append(text, b"\n");
}

/// Appends the first lines of a body, indented, which spell these bytes.
pub(super) fn append_lines(text: &mut Text, indentation: &[u8], bytes: &[u8])
    requires head { array_vec_len text.old ≤ HEAD_ROOM }
    requires narrow { length indentation.now ≤ INDENTATION_LIMIT }
    requires few { length bytes.now ≤ FIRST_BYTES }
    ensures text { text.new.items
        ≡ text.old.items ++ hexadecimal_lines indentation.now bytes.now }
    ensures length { array_vec_len text.new ≤ OPENING_LIMIT }
{
    let mut line = 0;
    while line * LINE_BYTES < bytes.len() {
        let start = line * LINE_BYTES;
        let end = bytes.len().min(start + LINE_BYTES);
        append_line(text, indentation, &bytes[start..end]);
        line += 1;
    }
}

/// Appends a line that spells the digits of ciphertext.
fn append_ciphertext_line(text: &mut Text, indentation: &[u8], ciphertext: &[u8])
    requires few { length ciphertext.now ≤ LINE_CIPHERTEXT }
    requires narrow { length indentation.now ≤ INDENTATION_LIMIT }
    requires room { array_vec_len text.old + LINE_LIMIT ≤ TEXT_LIMIT }
    ensures text { text.new.items ≡ text.old.items
        ++ (indentation.now ++ encode_lower (encode_lower ciphertext.now) ++ 10 ∷ []) }
    ensures length { array_vec_len text.new ≤ array_vec_len text.old + LINE_LIMIT }
{
    let mut memory = [0; LINE_BYTES];
    let digits = digits_of(ciphertext, &mut memory);
    // The compiler fully unrolls loops over half of a line, but not over a whole line.
    let (first, second) = digits.split_at(digits.len() / 2);
    append(text, indentation);
    append(text, digits_of(first, &mut [0; LINE_BYTES]));
    append(text, digits_of(second, &mut [0; LINE_BYTES]));
    append(text, b"\n");
}

/// Appends the lines of at most a batch of ciphertext.
#[inline(always)]
pub(super) fn append_ciphertext(text: &mut Text, indentation: &[u8], ciphertext: &[u8])
    requires opening { array_vec_len text.old ≤ OPENING_LIMIT }
    requires narrow { length indentation.now ≤ INDENTATION_LIMIT }
    requires batch { length ciphertext.now ≤ BATCH_CIPHERTEXT }
    ensures { text.new.items
        ≡ text.old.items ++ hexadecimal_lines indentation.now (encode_lower ciphertext.now) }
{
    let mut line = 0;
    while line * LINE_CIPHERTEXT < ciphertext.len() {
        let start = line * LINE_CIPHERTEXT;
        let end = ciphertext.len().min(start + LINE_CIPHERTEXT);
        append_ciphertext_line(text, indentation, &ciphertext[start..end]);
        line += 1;
    }
}
