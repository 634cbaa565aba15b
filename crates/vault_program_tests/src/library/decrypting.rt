//! Decrypts a vault in memory.
use std::alloc::Global;
use vault_core::{Fault, Secrets, password_of, prepare_decrypt_in};
use vault_kdf::Meter;
use vault_text::{CIPHERTEXT_LIMIT, Label, MemSink, MemSource, TextMemory};

/// Decrypts a vault; `password_file` is the content of the password file.
pub fn decrypt(alloc: Global, vault: &[u8], password_file: &[u8]) -> Result<Vec<u8>, Fault> {
    let password = password_of(password_file)?;
    let mut secrets = Secrets::new();
    secrets.push(Label::default_label(), password)?;
    let mut room = Vec::with_capacity(alloc, CIPHERTEXT_LIMIT)?;
    let memory = TextMemory::reserved(&mut room, CIPHERTEXT_LIMIT);
    let mut src = MemSource::new(vault, 4_096);
    let ready = prepare_decrypt_in(&mut src, memory, &secrets, &mut Meter::new())?;
    let mut plaintext = MemSink::new(alloc, 4_096);
    ready.write_to(&mut plaintext)?;
    Ok(Vec::from_slice(alloc, plaintext.bytes())?)
}
