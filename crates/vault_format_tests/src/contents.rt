//! The contents of an envelope, in a form that can be compared and shown as a whole.
use std::process::Abort;
use vault_text::Payload;

/// The contents of an envelope.
#[derive(Clone, Copy, Debug, PartialEq, Eq)]
pub struct Contents<'a> {
    pub label: &'a str,
    pub salt: &'a [u8],
    pub tag: &'a [u8],
    pub ciphertext: &'a [u8],
}

impl<'a> Contents<'a> {
    pub fn of(payload: &'a Payload<'_>) -> Self {
        Contents {
            label: payload.label().as_str(),
            salt: payload.salt().as_bytes(),
            tag: payload.tag().as_slice(),
            ciphertext: payload.cipher(),
        }
    }
}

/// Asserts that these bytes are as expected.
pub fn assert_bytes(rt: &impl Abort, bytes: &[u8], expected: &[u8]) {
    assert_eq!(rt; bytes, expected);
}
