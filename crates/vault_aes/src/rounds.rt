//! The steps of the cipher (FIPS 197, 5.1) on the state's four columns, each a word with row 0 in
//! its most significant byte.
ghost use Rattle.std.specs.Prelude.{◌≡◌, ℕ, ◌+◌, ◌≤◌, List};
ghost use Rattle.std.specs.Int.{w32, to_be_bytes};
ghost use Rattle.vault_aes.specs.Cipher.{add_round_key, round, rounds, shift_rows, sub_bytes};
ghost use Rattle.vault_aes.specs.Columns.{final_column, round_column, state_of};

use crate::tables::{sub_byte, te0, te1, te2, te3};

/// The length of a block in bytes, which are the entries of a state.
pub(crate) const BLOCK_LEN: usize = 16;

/// The number of rounds under a key of 32 bytes.
pub(crate) const ROUND_COUNT: usize = 14;

/// The number of words in a key schedule: four before the first round, and four for each.
pub(crate) const WORD_COUNT: usize = 4 * (ROUND_COUNT + 1);

pub(crate) type KeySchedule = [u32; WORD_COUNT];

pub(crate) type State = [u32; 4];

#[inline(always)]
pub(crate) fn columns_of(block: &[u8; BLOCK_LEN]) -> State
    ensures { state_of result ≡ block.now }
{
    [
        u32::from_be_bytes([block[0], block[1], block[2], block[3]]),
        u32::from_be_bytes([block[4], block[5], block[6], block[7]]),
        u32::from_be_bytes([block[8], block[9], block[10], block[11]]),
        u32::from_be_bytes([block[12], block[13], block[14], block[15]]),
    ]
}

/// Each word is stored whole; an array of 16 bytes would be stored byte by byte.
#[inline(always)]
pub(crate) fn bytes_of(state: State) -> [u8; BLOCK_LEN]
    ensures { result ≡ state_of state }
{
    let mut bytes = [0; BLOCK_LEN];
    bytes[..4].copy_from_slice(&state[0].to_be_bytes());
    bytes[4..8].copy_from_slice(&state[1].to_be_bytes());
    bytes[8..12].copy_from_slice(&state[2].to_be_bytes());
    bytes[12..].copy_from_slice(&state[3].to_be_bytes());
    bytes
}

#[inline(always)]
pub(crate) fn add_round_key(words: &KeySchedule, n: usize, state: State) -> State
    requires { n ≤ ROUND_COUNT }
    ensures { state_of result ≡ add_round_key words.now n (state_of state) }
{
    [
        state[0] ^ words[4 * n],
        state[1] ^ words[4 * n + 1],
        state[2] ^ words[4 * n + 2],
        state[3] ^ words[4 * n + 3],
    ]
}

/// SubBytes, MixColumns and AddRoundKey of one column, from the bytes that ShiftRows brings
/// together.
#[inline(always)]
fn round_column(a: u8, b: u8, c: u8, d: u8, key: u32) -> u32
    ensures { to_be_bytes w32 result ≡ round_column a b c d key }
{
    te0(a) ^ te1(b) ^ te2(c) ^ te3(d) ^ key
}

#[inline(always)]
pub(crate) fn round(words: &KeySchedule, n: usize, state: State) -> State
    requires { n ≤ ROUND_COUNT }
    ensures { state_of result ≡ round words.now n (state_of state) }
{
    let [a0, a1, a2, a3] = state[0].to_be_bytes();
    let [b0, b1, b2, b3] = state[1].to_be_bytes();
    let [c0, c1, c2, c3] = state[2].to_be_bytes();
    let [d0, d1, d2, d3] = state[3].to_be_bytes();
    [
        round_column(a0, b1, c2, d3, words[4 * n]),
        round_column(b0, c1, d2, a3, words[4 * n + 1]),
        round_column(c0, d1, a2, b3, words[4 * n + 2]),
        round_column(d0, a1, b2, c3, words[4 * n + 3]),
    ]
}

/// The four rounds after round n.
#[inline(always)]
pub(crate) fn four_rounds(words: &KeySchedule, n: usize, state: State) -> State
    requires { n + 4 ≤ ROUND_COUNT }
    ensures { (block : List ℕ) → state_of state ≡ rounds words.now block n
        → state_of result ≡ rounds words.now block (n + 4) }
{
    let state = round(words, n + 1, state);
    let state = round(words, n + 2, state);
    let state = round(words, n + 3, state);
    round(words, n + 4, state)
}

/// SubBytes and AddRoundKey of one column, from the bytes that ShiftRows brings together.
#[inline(always)]
fn final_column(a: u8, b: u8, c: u8, d: u8, key: u32) -> u32
    ensures { to_be_bytes w32 result ≡ final_column a b c d key }
{
    let column = [sub_byte(a), sub_byte(b), sub_byte(c), sub_byte(d)];
    u32::from_be_bytes(column) ^ key
}

#[inline(always)]
pub(crate) fn final_round(words: &KeySchedule, state: State) -> State
    ensures { state_of result
        ≡ add_round_key words.now ROUND_COUNT (shift_rows (sub_bytes (state_of state))) }
{
    let [a0, a1, a2, a3] = state[0].to_be_bytes();
    let [b0, b1, b2, b3] = state[1].to_be_bytes();
    let [c0, c1, c2, c3] = state[2].to_be_bytes();
    let [d0, d1, d2, d3] = state[3].to_be_bytes();
    [
        final_column(a0, b1, c2, d3, words[4 * ROUND_COUNT]),
        final_column(b0, c1, d2, a3, words[4 * ROUND_COUNT + 1]),
        final_column(c0, d1, a2, b3, words[4 * ROUND_COUNT + 2]),
        final_column(d0, a1, b2, c3, words[4 * ROUND_COUNT + 3]),
    ]
}
