//! YAML blocks: an envelope as the value of a variable, written into a sink.
ghost use Rattle.std.specs.Prelude.{◌≡◌, ◌≤◌, ◌++◌, ℕ, IsErr, OnOk, length, take};
ghost use Rattle.std.specs.Option.{option_copied};
ghost use Rattle.vault_text.specs.Block.{block, first_line};
ghost use Rattle.vault_text.specs.Failures.{CountsFailure, IsSaturated};

use super::lines::INDENTATION_LIMIT;
use super::{START_LIMIT, put_lines};
use crate::label::Label;
use crate::limits::TAG_LENGTH;
use crate::salt::Salt;
use crate::sink::{Sink, SinkFailed, Stage, put_all};

/// The indentation of each line of an envelope in a block.
const BLOCK_INDENTATION: &[u8; INDENTATION_LIMIT] = b"          ";

/// Writes an envelope as a YAML block for the variable `name`, or without a name if it is absent or
/// empty. After a failure the sink has taken a prefix of it.
pub fn write_block<K: Sink>(
    sink: &mut K,
    name: Option<&str>,
    label: &Label,
    salt: &Salt,
    tag: &[u8; TAG_LENGTH],
    ciphertext: &[u8],
) -> Result<(), SinkFailed>
    requires { K.stage sink.old ≡ Stage.Begun }
    ensures takes { let text = block (option_copied name.entry)
        label.now salt.now tag.now ciphertext.now in
        OnOk result (K.takes sink.old text sink.new) }
    ensures prefix { let text = block (option_copied name.entry)
        label.now salt.now tag.now ciphertext.now in
        (n : ℕ) × K.takes sink.old (take n text) sink.new }
    ensures stage { K.stage sink.new ≡ Stage.Begun }
    ensures failed { CountsFailure (K.failures sink.old) (K.failures sink.new) result }
    ensures full { IsSaturated (K.failures sink.old) → IsErr result }
{
    let name = name.unwrap_or("");
    let start = block_start(name);
    put_all(sink, name.as_bytes())?;
    put_lines(sink, start, BLOCK_INDENTATION, label, salt, tag, ciphertext)
}

/// The rest of the first line of a block, after the name, with the end of the line.
fn block_start(name: &str) -> &[u8]
    ensures line { name.now ++ result.now ≡ first_line name.now }
    ensures short { length result.now ≤ START_LIMIT }
{
    if name.is_empty() {
        b"!vault |\n"
    } else {
        b": !vault |\n"
    }
}
