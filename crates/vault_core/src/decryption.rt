//! Decrypting a vault.
ghost use Rattle.std.specs.Prelude.{◌≡◌, ◌≢◌, ℕ, ◌+◌, ◌<◌, ◌^◌, List, [], length, Err};
ghost use Rattle.vault_core.specs.Decryption.{decryption, decryption_derivations};
ghost use Rattle.vault_core.specs.Input.{ReadFails, ReadsInput};
ghost use Rattle.vault_fault.specs.declared.fault.Fault.TheVariants.{Read};
ghost use Rattle.vault_fault.specs.declared.fault.Role.TheVariants.{Input};
ghost use Rattle.vault_text.specs.Call.{source};
ghost use Rattle.vault_text.specs.Failures.{IsSaturated};
ghost use Rattle.vault_text.specs.Limits.{IsWorkLength, envelope_limit, limit_of};

use crate::input::read_payload;
use crate::ready::{Output, Ready};
use crate::secrets::Secrets;
use crate::unsealing::{Unsealed, unseal};
use vault_fault::Fault;
use vault_kdf::Meter;
use vault_text::{Source, TextMemory};

/// Reads an envelope and unseals it with the first of the secrets, in the tried order, that matches
/// its tag.
///
/// Decrypts in place. `work`, of 16 to `CIPHERTEXT_LIMIT` bytes, bounds the ciphertext; after an
/// error its contents are unspecified. The input is read to its end, or to one byte past its limit,
/// even if a fault was found earlier. [`Fault::Read`] comes before all other faults, which come in
/// the order of their numbers: the faults of the envelope, [`Fault::NoSecretFits`],
/// [`Fault::BadPadding`].
pub fn prepare_decrypt<'a, S: Source>(
    src: &mut S,
    work: &'a mut [u8],
    secrets: &Secrets,
    meter: &mut Meter,
) -> Result<Ready<'a>, Fault>
    requires room { IsWorkLength (length work.old) }
    requires countable { meter.old < 2 ^ 62 }
    ensures answered { let limit = limit_of (length work.old) in
        result ≢ Err (Read Input) → (input : List ℕ) × record {
          read : ReadsInput (source S.Source src.old src.new) (envelope_limit limit) input;
          answer : result ≡ decryption limit secrets.now input;
          counted : meter.new ≡ meter.old + decryption_derivations limit secrets.now input;
        } }
    ensures failed { let limit = limit_of (length work.old) in
        result ≡ Err (Read Input)
        → ReadFails (source S.Source src.old src.new) (envelope_limit limit) }
    ensures underived { result ≡ Err (Read Input) → meter.new ≡ meter.old }
    ensures full { IsSaturated (S.failures src.old) → result ≡ Err (Read Input) }
{
    prepare_decrypt_in(src, TextMemory::borrowed(work), secrets, meter)
}

/// Does what `prepare_decrypt` does, in memory that has no text yet.
pub fn prepare_decrypt_in<'a, S: Source>(
    src: &mut S,
    memory: TextMemory<'a>,
    secrets: &Secrets,
    meter: &mut Meter,
) -> Result<Ready<'a>, Fault>
    requires empty { memory.bytes ≡ [] }
    requires room { IsWorkLength memory.limit }
    requires countable { meter.old < 2 ^ 62 }
    ensures answered { let limit = limit_of memory.entry.limit in
        result ≢ Err (Read Input) → (input : List ℕ) × record {
          read : ReadsInput (source S.Source src.old src.new) (envelope_limit limit) input;
          answer : result ≡ decryption limit secrets.now input;
          counted : meter.new ≡ meter.old + decryption_derivations limit secrets.now input;
        } }
    ensures failed { let limit = limit_of memory.entry.limit in
        result ≡ Err (Read Input)
        → ReadFails (source S.Source src.old src.new) (envelope_limit limit) }
    ensures underived { result ≡ Err (Read Input) → meter.new ≡ meter.old }
    ensures full { IsSaturated (S.failures src.old) → result ≡ Err (Read Input) }
{
    let payload = read_payload(src, memory)?;
    let Unsealed { padded, len, tried } = unseal(payload, secrets, meter)?;
    let output = Output::Plain(&padded[..len]);
    Ok(Ready { output, tried })
}
