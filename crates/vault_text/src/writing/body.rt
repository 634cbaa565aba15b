//! The body of an envelope: the inner text in lines of hexadecimal digits.
ghost use Rattle.std.specs.Prelude.{◌≡◌, ◌+◌, ◌*◌, ◌<◌, ◌≤◌, ◌⊎◌, ◌++◌, [], ℕ, IsErr, OnOk};
ghost use Rattle.std.specs.Prelude.{length, take};
ghost use Rattle.arrayvec.specs.ArrayVec.{array_vec_len};
ghost use Rattle.hex.specs.Hex.{encode_lower};
ghost use Rattle.vault_text.specs.Failures.{CountsFailure, IsSaturated};
ghost use Rattle.vault_text.specs.Written.{hexadecimal_lines, inner_text};

use super::lines::{
    BATCH_CIPHERTEXT, FIRST_BYTES, First, INDENTATION_LIMIT, OPENING_LIMIT, Text, append,
    append_ciphertext, digits_of,
};
use crate::limits::TAG_LENGTH;
use crate::salt::Salt;
use crate::sink::{Sink, SinkFailed, Stage, put_all};

/// The inner text as far as it fits into the first lines, and the rest of the ciphertext.
pub(super) fn first_lines<'c>(
    salt: &Salt,
    tag: &[u8; TAG_LENGTH],
    ciphertext: &'c [u8],
) -> (First, &'c [u8])
    ensures text { result.0.items ++ encode_lower result.1.now
        ≡ inner_text salt.now tag.now ciphertext.now }
    ensures few { array_vec_len result.0 ≤ FIRST_BYTES }
    ensures full { (array_vec_len result.0 ≡ FIRST_BYTES) ⊎ (result.1.now ≡ []) }
{
    let mut inner = salt_and_tag(salt, tag);
    let room = (FIRST_BYTES - inner.len()) / 2;
    let (first, rest) = ciphertext.split_at(ciphertext.len().min(room));
    append(&mut inner, digits_of(first, &mut [0; FIRST_BYTES]));
    (inner, rest)
}

/// The inner text up to the digits of the ciphertext.
fn salt_and_tag(salt: &Salt, tag: &[u8; TAG_LENGTH]) -> First
    ensures text { result.items ≡ inner_text salt.now tag.now [] }
    ensures length { array_vec_len result ≡ 2 * length salt.now + 66 }
    ensures short { array_vec_len result ≤ FIRST_BYTES }
{
    let mut inner = First::new();
    let mut memory = [0; FIRST_BYTES];
    append(&mut inner, digits_of(salt.as_bytes(), &mut memory));
    append(&mut inner, b"\n");
    append(&mut inner, digits_of(tag, &mut memory));
    append(&mut inner, b"\n");
    inner
}

/// Writes the contents of `text`, then lines that spell the digits of the ciphertext. All batches
/// of lines use the same memory.
// Inlined, like its callees, so that the length of a line in a whole batch is known.
#[inline(always)]
pub(super) fn put_ciphertext<K: Sink>(
    sink: &mut K,
    text: &mut Text,
    indentation: &[u8],
    ciphertext: &[u8],
) -> Result<(), SinkFailed>
    requires begun { K.stage sink.old ≡ Stage.Begun }
    requires some { 0 < array_vec_len text.old }
    requires opening { array_vec_len text.old ≤ OPENING_LIMIT }
    requires narrow { length indentation.now ≤ INDENTATION_LIMIT }
    ensures takes { let text = text.old.items
        ++ hexadecimal_lines indentation.now (encode_lower ciphertext.now) in
        OnOk result (K.takes sink.old text sink.new) }
    ensures prefix { let text = text.old.items
        ++ hexadecimal_lines indentation.now (encode_lower ciphertext.now) in
        (n : ℕ) × K.takes sink.old (take n text) sink.new }
    ensures stage { K.stage sink.new ≡ Stage.Begun }
    ensures failed { CountsFailure (K.failures sink.old) (K.failures sink.new) result }
    ensures full { IsSaturated (K.failures sink.old) → IsErr result }
{
    let mut done = 0;
    while ciphertext.len() - done > BATCH_CIPHERTEXT {
        let end = done + BATCH_CIPHERTEXT;
        append_ciphertext(text, indentation, &ciphertext[done..end]);
        put_all(sink, text.as_slice())?;
        text.clear();
        done = end;
    }
    append_ciphertext(text, indentation, &ciphertext[done..]);
    put_all(sink, text.as_slice())
}
