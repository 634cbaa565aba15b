//! The limits, all in bytes.

ghost use Rattle.std.specs.Prelude.{◌≡◌, ◌≤◌};
ghost use Rattle.vault_text.specs.Limits.{envelope_limit};
ghost use Rattle.vault_text.specs.declared.limits.TheConstants.{ENVELOPE_LIMIT, PLAINTEXT_LIMIT};

/// The longest plaintext that is encrypted.
pub const PLAINTEXT_LIMIT: usize = 16_777_216;

/// The longest padding: a whole block.
pub const PADDING_LIMIT: usize = 16;

/// The longest ciphertext, read or written.
pub const CIPHERTEXT_LIMIT: usize = PLAINTEXT_LIMIT + PADDING_LIMIT;

/// Four digits for each byte of plaintext, and room for line ends.
const ENVELOPE_FACTOR: usize = 6;

/// Room for the header line, the salt, the tag and the padding.
const ENVELOPE_MARGIN: usize = 8_192;

/// The longest envelope that is read, line ends included.
pub const ENVELOPE_LIMIT: usize = ENVELOPE_FACTOR * PLAINTEXT_LIMIT + ENVELOPE_MARGIN;

/// The longest header line of an envelope, without its end.
pub const HEADER_LIMIT: usize = 256;

/// The longest salt that is read.
pub const SALT_LIMIT: usize = 256;

/// The longest label of a vault id.
pub const LABEL_LIMIT: usize = 128;

/// The length of a tag, which is a SHA-256 digest.
pub const TAG_LENGTH: usize = 32;

/// The longest envelope that is read under this limit of the plaintext.
pub(crate) fn envelope_limit(limit: usize) -> usize
    requires { limit ≤ PLAINTEXT_LIMIT }
    ensures value { result ≡ envelope_limit limit }
    ensures bound { result ≤ ENVELOPE_LIMIT }
{
    ENVELOPE_FACTOR * limit + ENVELOPE_MARGIN
}
