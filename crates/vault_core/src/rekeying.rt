//! Giving a vault a new secret.
ghost use Rattle.std.specs.Prelude.{◌≡◌, ◌≢◌, ℕ, ◌+◌, ◌<◌, ◌^◌, List, [], length, Err};
ghost use Rattle.vault_core.specs.TriedSecrets.{tries};
ghost use Rattle.vault_core.specs.Decryption.{decryption_derivations};
ghost use Rattle.vault_core.specs.Input.{ReadFails, ReadsInput};
ghost use Rattle.vault_core.specs.Rekeying.{rekeying, rekeying_of_payload};
ghost use Rattle.vault_core.specs.Sealing.{sealing_derivations};
ghost use Rattle.vault_core.specs.Secrets.{Secret, tried_order};
ghost use Rattle.vault_fault.specs.declared.fault.Fault.TheVariants.{Read};
ghost use Rattle.vault_fault.specs.declared.fault.Role.TheVariants.{Input};
ghost use Rattle.vault_text.specs.Call.{source};
ghost use Rattle.vault_text.specs.Failures.{IsSaturated};
ghost use Rattle.vault_text.specs.Limits.{IsWorkLength, envelope_limit, limit_of};

use crate::encryption::is_vault;
use crate::input::read_payload;
use crate::ready::{Form, Output, Ready};
use crate::sealing::seal;
use crate::secrets::{SealingSecret, Secrets};
use crate::unsealing::{Unsealed, unseal};
use vault_fault::Fault;
use vault_kdf::Meter;
use vault_text::{Label, Payload, Salt, Source, TextMemory};

/// Reads an envelope, unseals it as `prepare_decrypt` does, and seals its plaintext with a new
/// label, a new password and a new salt.
///
/// Works in place. `work`, of 16 to `CIPHERTEXT_LIMIT` bytes, bounds the ciphertext; after an error
/// its contents are unspecified. The faults are the same as for `prepare_decrypt`, in the same
/// order, and then [`Fault::AlreadyVault`].
pub fn prepare_rekey<'a, S: Source>(
    src: &mut S,
    work: &'a mut [u8],
    secrets: &Secrets,
    new: &'a Label,
    password: &[u8],
    salt: &'a Salt,
    meter: &mut Meter,
) -> Result<Ready<'a>, Fault>
    requires room { IsWorkLength (length work.old) }
    requires countable { meter.old < 2 ^ 62 }
    ensures answered { let limit = limit_of (length work.old) in
        let secret : Secret = record { label = new.now; password = password.now } in
        result ≢ Err (Read Input) → (input : List ℕ) × record {
          read : ReadsInput (source S.Source src.old src.new) (envelope_limit limit) input;
          answer : result ≡ rekeying limit secrets.now secret salt.now input;
          counted : meter.new ≡ meter.old + decryption_derivations limit secrets.now input
              + sealing_derivations result;
        } }
    ensures failed { let limit = limit_of (length work.old) in
        result ≡ Err (Read Input)
        → ReadFails (source S.Source src.old src.new) (envelope_limit limit) }
    ensures underived { result ≡ Err (Read Input) → meter.new ≡ meter.old }
    ensures full { IsSaturated (S.failures src.old) → result ≡ Err (Read Input) }
{
    let new = SealingSecret {
        label: new,
        password,
    };
    prepare_rekey_in(src, TextMemory::borrowed(work), secrets, &new, salt, meter)
}

/// Does what `prepare_rekey` does, in memory that has no text yet.
pub fn prepare_rekey_in<'a, S: Source>(
    src: &mut S,
    memory: TextMemory<'a>,
    secrets: &Secrets,
    new: &SealingSecret<'a, '_>,
    salt: &'a Salt,
    meter: &mut Meter,
) -> Result<Ready<'a>, Fault>
    requires empty { memory.bytes ≡ [] }
    requires room { IsWorkLength memory.limit }
    requires countable { meter.old < 2 ^ 62 }
    ensures answered { let limit = limit_of memory.entry.limit in
        result ≢ Err (Read Input) → (input : List ℕ) × record {
          read : ReadsInput (source S.Source src.old src.new) (envelope_limit limit) input;
          answer : result ≡ rekeying limit secrets.now new.now salt.now input;
          counted : meter.new ≡ meter.old + decryption_derivations limit secrets.now input
              + sealing_derivations result;
        } }
    ensures failed { let limit = limit_of memory.entry.limit in
        result ≡ Err (Read Input)
        → ReadFails (source S.Source src.old src.new) (envelope_limit limit) }
    ensures underived { result ≡ Err (Read Input) → meter.new ≡ meter.old }
    ensures full { IsSaturated (S.failures src.old) → result ≡ Err (Read Input) }
{
    let payload = read_payload(src, memory)?;
    rekey_payload(payload, secrets, new, salt, meter)
}

/// Unseals the payload of an envelope and seals its plaintext again, both in place.
fn rekey_payload<'a>(
    payload: Payload<'a>,
    secrets: &Secrets,
    new: &SealingSecret<'a, '_>,
    salt: &'a Salt,
    meter: &mut Meter,
) -> Result<Ready<'a>, Fault>
    requires countable { meter.old < 2 ^ 62 }
    ensures answer { result ≡ rekeying_of_payload secrets.now new.now salt.now payload.entry }
    ensures counted { meter.new
        ≡ meter.old + tries payload.entry (tried_order secrets.now payload.entry.label)
        + sealing_derivations result }
{
    let Unsealed { padded, len, tried } = unseal(payload, secrets, meter)?;
    if is_vault(&padded[..len]) {
        return Err(Fault::AlreadyVault);
    }
    let vault = seal(padded, len, new, salt, meter);
    let output = Output::Vault(vault, Form::Envelope);
    Ok(Ready { output, tried })
}
