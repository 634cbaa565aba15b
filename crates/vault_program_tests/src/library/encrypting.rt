//! Encrypts a plaintext in memory.
use std::alloc::Global;
use vault_core::{Fault, Form, Secrets, password_of, prepare_encrypt_in};
use vault_kdf::Meter;
use vault_text::{CIPHERTEXT_LIMIT, Label, MemSink, MemSource, Salt, TextMemory};

/// Encrypts a plaintext as a vault, with a label and the password from a password file. No other
/// plaintext may have the same salt.
pub fn encrypt<'a>(
    alloc: Global,
    plaintext: &[u8],
    label: &str,
    password_file: &'a [u8],
    salt: &'a Salt,
) -> Result<Vec<u8>, Fault> {
    let password = password_of(password_file)?;
    let mut secrets = Secrets::new();
    secrets.push(Label::new(label)?, password)?;
    let choice = secrets.encrypt_choice(None)?;
    let mut room = Vec::with_capacity(alloc, CIPHERTEXT_LIMIT)?;
    let memory = TextMemory::reserved(&mut room, CIPHERTEXT_LIMIT);
    let mut src = MemSource::new(plaintext, 4_096);
    let form = Form::Envelope;
    let mut meter = Meter::new();
    let ready = prepare_encrypt_in(&mut src, memory, &secrets, choice, form, salt, &mut meter)?;
    let mut vault = MemSink::new(alloc, 4_096);
    ready.write_to(&mut vault)?;
    Ok(Vec::from_slice(alloc, vault.bytes())?)
}
