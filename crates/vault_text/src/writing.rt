//! Writing envelopes into a sink.
ghost use Rattle.std.specs.Prelude.{◌≡◌, ◌+◌, ◌<◌, ◌≤◌, ◌++◌, ◌∷◌, [], ℕ, IsErr, OnOk, length};
ghost use Rattle.std.specs.Prelude.{take};
ghost use Rattle.arrayvec.specs.ArrayVec.{array_vec_len};
ghost use Rattle.vault_text.specs.Failures.{CountsFailure, IsSaturated};
ghost use Rattle.vault_text.specs.Written.{text_of_lines, written, written_header, written_lines};

mod block;
mod body;
mod lines;

use crate::header::MARKER;
use crate::label::Label;
use crate::limits::TAG_LENGTH;
use crate::salt::Salt;
use crate::sink::{Sink, SinkFailed, Stage};
pub use block::write_block;
use body::{first_lines, put_ciphertext};
use lines::{HEAD_ROOM, INDENTATION_LIMIT, TEXT_LIMIT, Text, append, append_lines};

/// The length of the longest start before the header line.
const START_LIMIT: usize = 11;

/// Writes an envelope in format 1.1 for the label `default`, and in format 1.2 for any other. After
/// a failure the sink has taken a prefix of it.
#[tactic(auto, unfolding(crate::specs::Written::written))]
pub fn write_envelope<K: Sink>(
    sink: &mut K,
    label: &Label,
    salt: &Salt,
    tag: &[u8; TAG_LENGTH],
    ciphertext: &[u8],
) -> Result<(), SinkFailed>
    requires { K.stage sink.old ≡ Stage.Begun }
    ensures takes { OnOk result
        (K.takes sink.old (written label.now salt.now tag.now ciphertext.now) sink.new) }
    ensures prefix { (n : ℕ)
        × K.takes sink.old (take n (written label.now salt.now tag.now ciphertext.now)) sink.new }
    ensures stage { K.stage sink.new ≡ Stage.Begun }
    ensures failed { CountsFailure (K.failures sink.old) (K.failures sink.new) result }
    ensures full { IsSaturated (K.failures sink.old) → IsErr result }
{
    put_lines(sink, &[], &[], label, salt, tag, ciphertext)
}

/// Writes `start`, then the indented lines of an envelope. The header line is put together with the
/// first lines of the body, so that with `| head -n 1` no write of a short envelope fails.
// Inlined, so that the indentation is known.
#[inline(always)]
fn put_lines<K: Sink>(
    sink: &mut K,
    start: &[u8],
    indentation: &[u8],
    label: &Label,
    salt: &Salt,
    tag: &[u8; TAG_LENGTH],
    ciphertext: &[u8],
) -> Result<(), SinkFailed>
    requires begun { K.stage sink.old ≡ Stage.Begun }
    requires short { length start.now ≤ START_LIMIT }
    requires narrow { length indentation.now ≤ INDENTATION_LIMIT }
    ensures takes { let text = start.now ++ text_of_lines indentation.now
        (written_lines label.now salt.now tag.now ciphertext.now) in
        OnOk result (K.takes sink.old text sink.new) }
    ensures prefix { let text = start.now ++ text_of_lines indentation.now
        (written_lines label.now salt.now tag.now ciphertext.now) in
        (n : ℕ) × K.takes sink.old (take n text) sink.new }
    ensures stage { K.stage sink.new ≡ Stage.Begun }
    ensures failed { CountsFailure (K.failures sink.old) (K.failures sink.new) result }
    ensures full { IsSaturated (K.failures sink.old) → IsErr result }
{
    let mut text = Text::new();
    append_head(&mut text, start, indentation, label);
    let (first, rest) = first_lines(salt, tag, ciphertext);
    append_lines(&mut text, indentation, first.as_slice());
    put_ciphertext(sink, &mut text, indentation, rest)
}

/// Begins a text with `start` and the indented header line, with its end.
#[tactic(auto, unfolding(crate::specs::Written::text_of_lines))]
fn append_head(text: &mut Text, start: &[u8], indentation: &[u8], label: &Label)
    requires empty { text.old.items ≡ [] }
    requires short { length start.now ≤ START_LIMIT }
    requires narrow { length indentation.now ≤ INDENTATION_LIMIT }
    ensures text { text.new.items
        ≡ start.now ++ text_of_lines indentation.now (written_header label.now ∷ []) }
    ensures length { array_vec_len text.new ≤ HEAD_ROOM }
    ensures some { 0 < array_vec_len text.new }
{
    append(text, start);
    append(text, indentation);
    append_header(text, label.as_str());
    append(text, b"\n");
}

/// Appends the header line for a label, without its end.
#[tactic(auto, unfolding(crate::specs::Written::written_header))]
fn append_header(line: &mut Text, label: &str)
    requires { array_vec_len line.old + 26 + length label.now ≤ TEXT_LIMIT }
    ensures line { line.new.items ≡ line.old.items ++ written_header label.now }
    ensures length { array_vec_len line.new ≤ array_vec_len line.old + 26 + length label.now }
{
    append(line, MARKER);
    if label == "default" {
        append(line, b";1.1;AES256");
    } else {
        append(line, b";1.2;AES256;");
        append(line, label.as_bytes());
    }
}
