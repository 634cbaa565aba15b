//! Counter mode (SP 800-38A, 6.5).
ghost use Rattle.std.specs.Prelude.{◌≡◌, ◌+◌, ◌*◌, ◌%◌, ◌^◌, ◌≤◌, length, slice_index};
ghost use Rattle.std.specs.Int.{w128, to_be_bytes};
ghost use Rattle.vault_aes.specs.CounterMode.{counter_mode, xor_keystream};

use crate::key::Key;
use crate::rounds::BLOCK_LEN;

/// XORs `bytes`, of any length, with the key stream (SP 800-38A, 6.5). The same call encrypts and
/// decrypts. `iv` is the initial counter block; the counter wraps at 2^128.
pub fn ctr_apply(key: &Key, iv: &[u8; BLOCK_LEN], bytes: &mut [u8])
    ensures { bytes.new ≡ counter_mode key.now iv.now bytes.old }
{
    let initial = u128::from_be_bytes(*iv);
    let mut high = (initial >> 64) as u64;
    let mut low = (initial % (1 << 64)) as u64;
    let whole_blocks = bytes.len() / BLOCK_LEN;
    for j in 0..whole_blocks {
        let keystream = key.block(&counter_block(high, low));
        xor_keystream(&mut bytes[BLOCK_LEN * j..BLOCK_LEN * (j + 1)], &keystream);
        (high, low) = next_counter(high, low);
    }
    if bytes.len() % BLOCK_LEN != 0 {
        let keystream = key.block(&counter_block(high, low));
        xor_keystream(&mut bytes[BLOCK_LEN * whole_blocks..], &keystream);
    }
}

/// The next counter; it wraps at 2^128.
#[inline(always)]
fn next_counter(high: u64, low: u64) -> (u64, u64)
    ensures { result.0 * 2 ^ 64 + result.1 ≡ (high * 2 ^ 64 + low + 1) % 2 ^ 128 }
{
    if low == u64::MAX {
        (high.wrapping_add(1), 0)
    } else {
        (high, low + 1)
    }
}

/// The counter's big-endian bytes. The counter comes in two words, each of which is stored whole;
/// the bytes of a single 128-bit word would be picked one by one.
#[inline(always)]
fn counter_block(high: u64, low: u64) -> [u8; BLOCK_LEN]
    ensures { result ≡ to_be_bytes w128 (high * 2 ^ 64 + low) }
{
    let mut block = [0; BLOCK_LEN];
    block[..8].copy_from_slice(&high.to_be_bytes());
    block[8..].copy_from_slice(&low.to_be_bytes());
    block
}

/// Inlined so that the length of a whole block is known, and bytes do not cost a branch each.
#[inline(always)]
fn xor_keystream(bytes: &mut [u8], keystream: &[u8; BLOCK_LEN])
    requires { length bytes.old ≤ BLOCK_LEN }
    ensures { bytes.new ≡ xor_keystream (slice_index keystream.now) bytes.old }
{
    for i in 0..bytes.len() {
        bytes[i] ^= keystream[i];
    }
}
