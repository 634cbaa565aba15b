//! Salts of vaults.
ghost use Rattle.std.specs.Prelude.{◌≡◌, ℕ, ◌≤◌, ◌↔◌, List, length, IsSome, IfSome};
ghost use Rattle.vault_text.specs.declared.limits.TheConstants.{SALT_LIMIT};

use crate::limits::SALT_LIMIT;
use arrayvec::ArrayVec;
use std::marker::Model;

/// The salt of a vault, at most 256 bytes.
#[derive(Drop)]
pub struct Salt {
    bytes: ArrayVec<u8, SALT_LIMIT>,
}

impl Model for Salt {
    ghost use Rattle.std.specs.Prelude.{◌≤◌, ℕ, List, length};
    ghost use Rattle.vault_text.specs.declared.limits.TheConstants.{SALT_LIMIT};

    ghost Value = { List ℕ };

    ghost view = { λ s. s.bytes.items };

    ghost invariant = { λ s. length s.bytes.items ≤ SALT_LIMIT };
}

impl Salt {
    /// The salt with these bytes; None if there are more than 256.
    pub fn new(bytes: &[u8]) -> Option<Self>
        ensures fits { IsSome result ↔ (length bytes.now ≤ SALT_LIMIT) }
        ensures bytes { IfSome result (λ salt. salt ≡ bytes.now) }
    {
        let mut copy = ArrayVec::new();
        copy.try_extend_from_slice(bytes).ok()?;
        Some(Salt { bytes: copy })
    }

    /// The bytes of the salt, at most 256.
    pub fn as_bytes(&self) -> &[u8]
        ensures bytes { result.now ≡ self.now }
        ensures fits { length result.now ≤ SALT_LIMIT }
    {
        self.bytes.as_slice()
    }
}
