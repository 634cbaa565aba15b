//! Envelopes, made only from the parts of the format: no reader or writer of the library takes part
//! in making them.
use std::alloc::{AllocError, Global};
use vault_aes::{Key, ctr_apply, pad};
use vault_kdf::{Meter, derive, hmac};

/// The number of digits on a line of the body.
const LINE: usize = 80;

/// An envelope with no salt, a tag of 32 zero bytes and no ciphertext.
pub const EMPTY_ENVELOPE: &[u8; 160] = b"$ANSIBLE_VAULT;1.1;AES256\n\
    0a303030303030303030303030303030303030303030303030303030303030303030303030303030\n\
    303030303030303030303030303030303030303030303030300a\n";

/// The envelope of a plaintext.
pub fn envelope(
    alloc: Global,
    label: &str,
    password: &[u8],
    salt: &[u8],
    plaintext: &[u8],
) -> Result<Vec<u8>, AllocError> {
    let keys = derive(password, salt, &mut Meter::new());
    let mut ciphertext = padded(alloc, plaintext)?;
    ctr_apply(&Key::new(&keys.cipher), &keys.iv, ciphertext.as_mut_slice());
    let tag = hmac(&keys.mac, ciphertext.as_slice());
    spelled(alloc, label, salt, &tag, ciphertext.as_slice())
}

/// An envelope over ciphertext as it is, with the right tag.
pub fn tagged(
    alloc: Global,
    label: &str,
    password: &[u8],
    salt: &[u8],
    ciphertext: &[u8],
) -> Result<Vec<u8>, AllocError> {
    let keys = derive(password, salt, &mut Meter::new());
    spelled(alloc, label, salt, &hmac(&keys.mac, ciphertext), ciphertext)
}

/// The text of an envelope, with any parts.
pub fn spelled(
    alloc: Global,
    label: &str,
    salt: &[u8],
    tag: &[u8],
    ciphertext: &[u8],
) -> Result<Vec<u8>, AllocError> {
    let mut inner = String::new(alloc);
    inner.push_str(hex::encode(alloc, salt)?.as_str())?;
    inner.push_str("\n")?;
    inner.push_str(hex::encode(alloc, tag)?.as_str())?;
    inner.push_str("\n")?;
    inner.push_str(hex::encode(alloc, ciphertext)?.as_str())?;
    let digits = hex::encode(alloc, inner.as_bytes())?;
    let mut text = header(alloc, label)?;
    for line in digits.as_bytes().chunks(LINE) {
        text.extend_from_slice(line)?;
        text.push(b'\n')?;
    }
    Ok(text)
}

/// The lines of an envelope as the value of a variable in YAML, or without a variable if the name
/// is empty.
pub fn block(alloc: Global, name: &str, envelope: &[u8]) -> Result<Vec<u8>, AllocError> {
    let mut text = Vec::from_slice(alloc, name.as_bytes())?;
    if !name.is_empty() {
        text.extend_from_slice(b": ")?;
    }
    text.extend_from_slice(b"!vault |\n")?;
    for line in envelope.split(|byte| *byte == b'\n') {
        if !line.is_empty() {
            text.extend_from_slice(b"          ")?;
            text.extend_from_slice(line)?;
            text.push(b'\n')?;
        }
    }
    Ok(text)
}

fn header(alloc: Global, label: &str) -> Result<Vec<u8>, AllocError> {
    let mut line = Vec::new(alloc);
    if label == "default" {
        line.extend_from_slice(b"$ANSIBLE_VAULT;1.1;AES256\n")?;
    } else {
        line.extend_from_slice(b"$ANSIBLE_VAULT;1.2;AES256;")?;
        line.extend_from_slice(label.as_bytes())?;
        line.push(b'\n')?;
    }
    Ok(line)
}

fn padded(alloc: Global, plaintext: &[u8]) -> Result<Vec<u8>, AllocError> {
    let mut work = Vec::from_slice(alloc, plaintext)?;
    work.extend_from_slice(&[0; 16])?;
    let length = pad(work.as_mut_slice(), plaintext.len());
    work.truncate(length);
    Ok(work)
}
