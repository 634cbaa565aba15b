//! Key derivation, and tags.
use sha2::{Digest, Sha256};
use std::alloc::{AllocError, Global};
use vault_kdf::{Keys, Meter, derive, hmac};

const COMPRESSIONS: u32 = 60_000;

/// A MiB.
const MESSAGE_LENGTH: usize = 1_048_576;

/// Derives keys; each derivation has a key of the one before it as its salt.
pub(crate) fn derive_keys(times: u32) -> [u8; 32] {
    let mut meter = Meter::new();
    let mut salt = [0; 32];
    for _ in 0..times {
        let Keys { cipher, .. } = derive(b"password", &salt, &mut meter);
        salt = cipher;
    }
    salt
}

/// Runs compressions; each message begins with the digest of the one before it. An update with a
/// whole block costs one compression, and so does the end of a message of whole blocks.
pub(crate) fn compress(times: u32) -> [u8; 32] {
    let mut digest = [0; 32];
    for _ in 0..times {
        let mut block = [0; 64];
        block[..32].copy_from_slice(&digest);
        let mut hasher = Sha256::new();
        for _ in 1..COMPRESSIONS {
            hasher.update(&block);
        }
        digest = hasher.finalize();
    }
    digest
}

/// Computes tags; each is the key of the next.
pub(crate) fn tags(alloc: Global, times: u32) -> Result<[u8; 32], AllocError> {
    let message = vec![in alloc; 0u8; MESSAGE_LENGTH]?;
    let mut tag = [0; 32];
    for _ in 0..times {
        tag = hmac(&tag, &message);
    }
    Ok(tag)
}
