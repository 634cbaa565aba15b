//! HMAC with SHA-256 (RFC 2104), piece by piece.
ghost use Rattle.std.specs.Prelude.{◌≡◌, ℕ, List, [], ◌++◌};
ghost use Rattle.vault_kdf.specs.Hmac.{hmac, padded_key};

use crate::xor::xor;
use sha2::{Digest, Sha256};

/// The length of a SHA-256 digest, in bytes.
pub(crate) const DIGEST_LEN: usize = 32;

/// The length of a SHA-256 block, in bytes.
const HASH_BLOCK_LEN: usize = 64;

const INNER_PAD: [u8; HASH_BLOCK_LEN] = [0x36; HASH_BLOCK_LEN];

const OUTER_PAD: [u8; HASH_BLOCK_LEN] = [0x5c; HASH_BLOCK_LEN];

fn padded_key(key: &[u8]) -> [u8; HASH_BLOCK_LEN]
    ensures { result ≡ padded_key key.now }
{
    let mut block = [0; HASH_BLOCK_LEN];
    if key.len() > HASH_BLOCK_LEN {
        block[..DIGEST_LEN].copy_from_slice(&Sha256::digest(key));
    } else {
        block[..key.len()].copy_from_slice(key);
    }
    block
}

/// An HMAC-SHA-256 in progress (RFC 2104): a key, and the message so far.
#[derive(Clone, Drop)]
pub struct Hmac {
    inner: Sha256,
    outer: Sha256,
}

impl Hmac {
    ghost use Rattle.vault_kdf.specs.Hmac.{HasRead};

    /// A key of any length, and no message yet.
    pub fn new(key: &[u8]) -> Hmac
        ensures { HasRead result key.now [] }
    {
        let block = padded_key(key);
        Hmac {
            inner: Sha256::new_with_prefix(xor(&block, &INNER_PAD)),
            outer: Sha256::new_with_prefix(xor(&block, &OUTER_PAD)),
        }
    }

    /// Adds a piece, of any length, to the end of the message.
    pub fn update(&mut self, piece: &[u8])
        ensures { (key message : List ℕ) → HasRead self.old key message
            → HasRead self.new key (message ++ piece.now) }
    {
        self.inner.update(piece);
    }

    /// The tag of the message: 32 bytes.
    pub fn finish(self) -> [u8; DIGEST_LEN]
        ensures { (key message : List ℕ) → HasRead self key message → result ≡ hmac key message }
    {
        let Hmac { inner, outer } = self;
        outer.chain_update(inner.finalize()).finalize()
    }

    /// The tag of the message with a last piece added. Each hasher is cloned just before it is
    /// updated in place: cloning both at once, or `chain_update`, would move them more often.
    // Each round of PBKDF2 calls it; out of line, with two callers, it took 4% of a derivation.
    #[inline(always)]
    pub(crate) fn mac_of(&self, last: &[u8]) -> [u8; DIGEST_LEN]
        ensures { (key message : List ℕ) → HasRead self.now key message
            → result ≡ hmac key (message ++ last.now) }
    {
        let mut inner = self.inner.clone().unwrap();
        inner.update(last);
        let mut outer = self.outer.clone().unwrap();
        outer.update(inner.finalize());
        outer.finalize()
    }
}
