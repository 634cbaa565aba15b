//! HMAC with SHA-256 (RFC 2104) of a whole message.
ghost use Rattle.std.specs.Prelude.{◌≡◌};
ghost use Rattle.vault_kdf.specs.Hmac.{hmac};

use crate::hmac_sha256::{DIGEST_LEN, Hmac};

/// The HMAC-SHA-256 tag of a whole message (RFC 2104), under a key of any length: 32 bytes.
pub fn hmac(key: &[u8], message: &[u8]) -> [u8; DIGEST_LEN]
    ensures { result ≡ hmac key.now message.now }
{
    Hmac::new(key).mac_of(message)
}
