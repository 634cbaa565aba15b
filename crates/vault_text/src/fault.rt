//! The faults of a text.
use thiserror::Error;

/// Why bytes are not an envelope, in the order in which the faults are checked.
#[derive(Clone, Copy, Debug, PartialEq, Eq, Error)]
pub enum TextFault {
    #[error("input is longer than the limit")]
    TooLong,
    #[error("input is not vault encrypted data")]
    NotVault,
    #[error("vault header line is longer than 256 bytes")]
    HeaderTooLong,
    #[error("vault header line is malformed")]
    BadHeader,
    #[error("vault format version is not supported")]
    BadVersion,
    #[error("vault cipher is not supported")]
    BadCipher,
    #[error("vault body is not hexadecimal")]
    BadHex,
    #[error("vault payload is malformed")]
    BadPayload,
    #[error("vault ciphertext is longer than the limit")]
    CipherTooLong,
}
