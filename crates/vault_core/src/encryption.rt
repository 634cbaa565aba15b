//! Encrypting a plaintext.
ghost use Rattle.std.specs.Prelude.{◌≡◌, ◌≢◌, ℕ, ◌+◌, ◌<◌, ◌^◌, List, [], length, Err};
ghost use Rattle.vault_core.specs.Encryption.{encryption, is_vault};
ghost use Rattle.vault_core.specs.Form.{form_of};
ghost use Rattle.vault_core.specs.Input.{ReadFails, ReadsInput};
ghost use Rattle.vault_core.specs.Sealing.{sealing_derivations};
ghost use Rattle.vault_fault.specs.declared.fault.Fault.TheVariants.{Read};
ghost use Rattle.vault_fault.specs.declared.fault.Role.TheVariants.{Input};
ghost use Rattle.vault_text.specs.Call.{source};
ghost use Rattle.vault_text.specs.Failures.{IsSaturated};
ghost use Rattle.vault_text.specs.Limits.{IsWorkLength, limit_of};

use crate::input::read_plaintext;
use crate::ready::{Form, Output, Ready};
use crate::sealing::seal;
use crate::secrets::Secrets;
use vault_fault::Fault;
use vault_kdf::Meter;
use vault_text::{MARKER, PADDING_LIMIT, Salt, Source, TextMemory};

/// Reads a plaintext and seals it with the chosen secret: `choice` is its index, from 0.
///
/// Encrypts in place. `work`, of 16 to `CIPHERTEXT_LIMIT` bytes, bounds the plaintext with a whole
/// block of padding; after an error its contents are unspecified. The input is read to its end, or
/// to one byte past its limit. Faults come in this order: [`Fault::Read`], [`Fault::TooLong`],
/// [`Fault::EmptyString`] (only for a block), [`Fault::AlreadyVault`].
pub fn prepare_encrypt<'a, S: Source>(
    src: &mut S,
    work: &'a mut [u8],
    secrets: &'a Secrets,
    choice: usize,
    form: Form<'a>,
    salt: &'a Salt,
    meter: &mut Meter,
) -> Result<Ready<'a>, Fault>
    requires room { IsWorkLength (length work.old) }
    requires chosen { choice < length secrets.now.secrets }
    requires countable { meter.old < 2 ^ 62 }
    ensures answered { let limit = limit_of (length work.old) in
        result ≢ Err (Read Input) → (input : List ℕ) × record {
          read : ReadsInput (source S.Source src.old src.new) limit input;
          answer : result ≡ encryption limit secrets.now.secrets choice (form_of form.entry)
              salt.now input;
        } }
    ensures counted { meter.new ≡ meter.old + sealing_derivations result }
    ensures failed { let limit = limit_of (length work.old) in
        result ≡ Err (Read Input) → ReadFails (source S.Source src.old src.new) limit }
    ensures full { IsSaturated (S.failures src.old) → result ≡ Err (Read Input) }
{
    prepare_encrypt_in(
        src,
        TextMemory::borrowed(work),
        secrets,
        choice,
        form,
        salt,
        meter,
    )
}

/// Does what `prepare_encrypt` does, in memory that has no text yet.
pub fn prepare_encrypt_in<'a, S: Source>(
    src: &mut S,
    mut memory: TextMemory<'a>,
    secrets: &'a Secrets,
    choice: usize,
    form: Form<'a>,
    salt: &'a Salt,
    meter: &mut Meter,
) -> Result<Ready<'a>, Fault>
    requires empty { memory.bytes ≡ [] }
    requires room { IsWorkLength memory.limit }
    requires chosen { choice < length secrets.now.secrets }
    requires countable { meter.old < 2 ^ 62 }
    ensures answered { let limit = limit_of memory.entry.limit in
        result ≢ Err (Read Input) → (input : List ℕ) × record {
          read : ReadsInput (source S.Source src.old src.new) limit input;
          answer : result ≡ encryption limit secrets.now.secrets choice (form_of form.entry)
              salt.now input;
        } }
    ensures counted { meter.new ≡ meter.old + sealing_derivations result }
    ensures failed { let limit = limit_of memory.entry.limit in
        result ≡ Err (Read Input) → ReadFails (source S.Source src.old src.new) limit }
    ensures full { IsSaturated (S.failures src.old) → result ≡ Err (Read Input) }
{
    read_plaintext(src, &mut memory)?;
    encrypt_plaintext(memory, secrets, choice, form, salt, meter)
}

/// Seals the plaintext in the memory. It is too long if a whole block of padding does not fit
/// after it.
fn encrypt_plaintext<'a>(
    memory: TextMemory<'a>,
    secrets: &'a Secrets,
    choice: usize,
    form: Form<'a>,
    salt: &'a Salt,
    meter: &mut Meter,
) -> Result<Ready<'a>, Fault>
    requires room { IsWorkLength memory.limit }
    requires chosen { choice < length secrets.now.secrets }
    requires countable { meter.old < 2 ^ 62 }
    ensures answer { let limit = limit_of memory.entry.limit in
        result ≡ encryption limit secrets.now.secrets choice (form_of form.entry) salt.now
        memory.entry.bytes }
    ensures counted { meter.new ≡ meter.old + sealing_derivations result }
{
    if memory.room() < PADDING_LIMIT {
        return Err(Fault::TooLong);
    }
    let work = memory.into_bytes_and_spare(PADDING_LIMIT);
    let n = work.len() - PADDING_LIMIT;
    if form.is_block() && n == 0 {
        return Err(Fault::EmptyString);
    }
    if is_vault(&work[..n]) {
        return Err(Fault::AlreadyVault);
    }
    let secret = secrets.get(choice).to_seal_with();
    let vault = seal(work, n, &secret, salt, meter);
    let output = Output::Vault(vault, form);
    Ok(Ready { output, tried: 0 })
}

/// Whether a plaintext begins like every vault.
pub(crate) fn is_vault(plain: &[u8]) -> bool
    ensures { result ≡ is_vault plain.now }
{
    plain.starts_with(MARKER)
}
