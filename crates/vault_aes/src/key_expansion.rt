//! The key expansion (FIPS 197, 5.2).
ghost use Rattle.std.specs.Prelude.{◌≡◌, ◌<◌, ◌≤◌, map};
ghost use Rattle.std.specs.List.{range_with_len};
ghost use Rattle.vault_aes.specs.KeyExpansion.{key_schedule, key_word, schedule_step, sub_word};

use crate::rounds::{KeySchedule, WORD_COUNT};
use crate::tables::sub_byte;
use std::array;

/// The number of words in a key.
const KEY_WORDS: usize = 8;

/// Rcon[1] to Rcon[7] (FIPS 197, table 5).
const ROUND_CONSTANTS: [u32; 7] = [
    0x01000000, 0x02000000, 0x04000000, 0x08000000, 0x10000000, 0x20000000, 0x40000000,
];

fn key_word(key: &[u8; 32], i: usize) -> u32
    requires { i < KEY_WORDS }
    ensures { result ≡ key_word key.now i }
{
    u32::from_be_bytes([key[4 * i], key[4 * i + 1], key[4 * i + 2], key[4 * i + 3]])
}

fn key_words(key: &[u8; 32]) -> [u32; KEY_WORDS]
    ensures { result ≡ map (key_word key.now) (range_with_len 0 KEY_WORDS) }
{
    array::from_fn(|i| key_word(key, i))
}

fn sub_word(word: u32) -> u32
    ensures { result ≡ sub_word word }
{
    let [a, b, c, d] = word.to_be_bytes();
    u32::from_be_bytes([sub_byte(a), sub_byte(b), sub_byte(c), sub_byte(d)])
}

/// The word that is XORed into word `i - 8` to make word `i`, computed from word `i - 1`.
fn schedule_step(i: usize, previous: u32) -> u32
    requires low { KEY_WORDS ≤ i }
    requires high { i < WORD_COUNT }
    ensures { result ≡ schedule_step i previous }
{
    match i % KEY_WORDS {
        0 => sub_word(previous.rotate_left(8)) ^ ROUND_CONSTANTS[i / KEY_WORDS - 1],
        4 => sub_word(previous),
        _ => previous,
    }
}

pub(crate) fn expand_key(key: &[u8; 32]) -> KeySchedule
    ensures { result ≡ key_schedule key.now }
{
    let mut words = [0; WORD_COUNT];
    words[..KEY_WORDS].copy_from_slice(&key_words(key));
    for i in KEY_WORDS..WORD_COUNT {
        words[i] = words[i - KEY_WORDS] ^ schedule_step(i, words[i - 1]);
    }
    words
}
