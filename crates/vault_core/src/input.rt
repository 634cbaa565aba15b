//! Reading the input of a call.
ghost use Rattle.std.specs.Prelude.{◌≡◌, ◌≢◌, ℕ, List, [], Err, IsErr, OnOk, OnErr};
ghost use Rattle.vault_text.specs.Call.{source};
ghost use Rattle.vault_text.specs.EnvelopeReader.{HasRead};
ghost use Rattle.vault_text.specs.Failures.{IsSaturated};
ghost use Rattle.vault_core.specs.Decryption.{payload_of};
ghost use Rattle.vault_core.specs.Input.{ReadFails, ReadsInput};
ghost use Rattle.vault_text.specs.Limits.{IsWorkLength, envelope_limit, limit_of};
ghost use Rattle.vault_text.specs.Pieces.{TakesPiece};
ghost use Rattle.vault_fault.specs.declared.fault.Fault.TheVariants.{Read};
ghost use Rattle.vault_fault.specs.declared.fault.Role.TheVariants.{Input};

use vault_fault::Fault;
use vault_text::{EnvelopeReader, PADDING_LIMIT, Payload, Source, SourceFailed, TextMemory};

/// The number of bytes that are requested from a source at once.
const PIECE_LIMIT: usize = 4096;

/// Reads a plaintext into memory that has no text yet: all of it, or one byte more than can be
/// padded there.
pub(crate) fn read_plaintext<S: Source>(
    src: &mut S,
    memory: &mut TextMemory,
) -> Result<(), SourceFailed>
    requires empty { memory.old.bytes ≡ [] }
    requires room { IsWorkLength memory.old.limit }
    ensures limit { memory.new.limit ≡ memory.old.limit }
    ensures read { let limit = limit_of memory.old.limit in
        OnOk result (ReadsInput (source S.Source src.old src.new) limit memory.new.bytes) }
    ensures failed { let limit = limit_of memory.old.limit in
        OnErr result (ReadFails (source S.Source src.old src.new) limit) }
    ensures full { IsSaturated (S.failures src.old) → IsErr result }
{
    let mut buffer = [0; PIECE_LIMIT];
    while memory.room() >= PADDING_LIMIT {
        let most = memory.room() - PADDING_LIMIT + 1;
        let piece = &mut buffer[..most.min(PIECE_LIMIT)];
        let n = src.fill(piece)?;
        if n == 0 {
            break;
        }
        memory.put(&piece[..n]);
    }
    Ok(())
}

/// Reads an envelope into memory that has no text yet, to its end, or to one byte past its limit,
/// and returns its payload, whose ciphertext is in the memory.
pub(crate) fn read_payload<'a, S: Source>(
    src: &mut S,
    memory: TextMemory<'a>,
) -> Result<Payload<'a>, Fault>
    requires empty { memory.bytes ≡ [] }
    requires room { IsWorkLength memory.limit }
    ensures answered { let limit = limit_of memory.entry.limit in
        result ≢ Err (Read Input) → (input : List ℕ) × record {
          read : ReadsInput (source S.Source src.old src.new) (envelope_limit limit) input;
          answer : result ≡ payload_of limit input;
        } }
    ensures failed { let limit = limit_of memory.entry.limit in
        result ≡ Err (Read Input)
        → ReadFails (source S.Source src.old src.new) (envelope_limit limit) }
    ensures full { IsSaturated (S.failures src.old) → result ≡ Err (Read Input) }
{
    let mut reader = EnvelopeReader::in_memory(memory);
    feed_input(src, &mut reader)?;
    Ok(reader.finish()?)
}

/// Feeds the input to the reader, to its end or to one byte past its limit.
fn feed_input<S: Source>(src: &mut S, reader: &mut EnvelopeReader) -> Result<(), SourceFailed>
    ensures limit { reader.new.limit ≡ reader.old.limit }
    ensures read { let limit = envelope_limit reader.old.limit in
        OnOk result ((input : List ℕ) × record {
          read : ReadsInput (source S.Source src.old src.new) limit input;
          fed : TakesPiece HasRead reader.old input reader.new;
        }) }
    ensures failed { let limit = envelope_limit reader.old.limit in
        OnErr result (ReadFails (source S.Source src.old src.new) limit) }
    ensures full { IsSaturated (S.failures src.old) → IsErr result }
{
    let mut buffer = [0; PIECE_LIMIT];
    let mut left = reader.input_limit() + 1;
    while left > 0 {
        let piece = &mut buffer[..left.min(PIECE_LIMIT)];
        let n = src.fill(piece)?;
        if n == 0 {
            break;
        }
        reader.feed(&piece[..n]);
        left -= n;
    }
    Ok(())
}
