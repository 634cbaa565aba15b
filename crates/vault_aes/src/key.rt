//! The cipher of one block under a key.
ghost use Rattle.std.specs.Prelude.{◌≡◌};
ghost use Rattle.vault_aes.specs.Cipher.{cipher};
ghost use Rattle.vault_aes.specs.KeyExpansion.{key_schedule};

use crate::key_expansion::expand_key;
use crate::rounds::{
    BLOCK_LEN, KeySchedule, ROUND_COUNT, add_round_key, bytes_of, columns_of, final_round,
    four_rounds, round,
};
use std::marker::Model;

/// A key of 32 bytes, expanded for the cipher. Contracts see it as the 60 words of its key
/// schedule. It is not erased from memory when it is dropped.
#[derive(Drop)]
pub struct Key {
    words: KeySchedule,
}

impl Model for Key {
    ghost use Rattle.std.specs.Prelude.{ℕ, List};

    ghost Value = { List ℕ };

    ghost view = { λ key. key.words };
}

impl Key {
    /// Expands the key (FIPS 197, 5.2).
    pub fn new(key: &[u8; 32]) -> Key
        ensures { result ≡ key_schedule key.now }
    {
        Key {
            words: expand_key(key),
        }
    }

    /// Encrypts one block (FIPS 197, 5.1).
    pub fn block(&self, block: &[u8; BLOCK_LEN]) -> [u8; BLOCK_LEN]
        ensures { result ≡ cipher self.now block.now }
    {
        let words = &self.words;
        let state = add_round_key(words, 0, columns_of(block));
        let state = four_rounds(words, 0, state);
        let state = four_rounds(words, 4, state);
        let state = four_rounds(words, 8, state);
        let state = round(words, ROUND_COUNT - 1, state);
        bytes_of(final_round(words, state))
    }
}
