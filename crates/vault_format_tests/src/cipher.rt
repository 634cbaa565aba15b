//! The key schedule, counter mode and padding of the standards, and the cipher compared with one
//! that computes over the field.
use crate::field_cipher::FieldCipher;
use crate::vectors::{ZERO_KEY, counting_key};
use std::process::Abort;
use vault_aes::{Key, ctr_apply, laws, pad, unpad};

/// The key of FIPS 197, A.3, and of SP 800-38A, F.5.5.
const EXAMPLE_KEY: [u8; 32] = [
    0x60, 0x3d, 0xeb, 0x10, 0x15, 0xca, 0x71, 0xbe, 0x2b, 0x73, 0xae, 0xf0, 0x85, 0x7d, 0x77, 0x81,
    0x1f, 0x35, 0x2c, 0x07, 0x3b, 0x61, 0x08, 0xd7, 0x2d, 0x98, 0x10, 0xa3, 0x09, 0x14, 0xdf, 0xf4,
];

/// FIPS 197, A.3.
#[test]
fn expands_the_example_key(rt: HostRuntime) {
    let want = [
        0x603deb10, 0x15ca71be, 0x2b73aef0, 0x857d7781, 0x1f352c07, 0x3b6108d7, 0x2d9810a3,
        0x0914dff4, 0x9ba35411, 0x8e6925af, 0xa51a8b5f, 0x2067fcde, 0xa8b09c1a, 0x93d194cd,
        0xbe49846e, 0xb75d5b9a, 0xd59aecb8, 0x5bf3c917, 0xfee94248, 0xde8ebe96, 0xb5a9328a,
        0x2678a647, 0x98312229, 0x2f6c79b3, 0x812c81ad, 0xdadf48ba, 0x24360af2, 0xfab8b464,
        0x98c5bfc9, 0xbebd198e, 0x268c3ba7, 0x09e04214, 0x68007bac, 0xb2df3316, 0x96e939e4,
        0x6c518d80, 0xc814e204, 0x76a9fb8a, 0x5025c02d, 0x59c58239, 0xde136967, 0x6ccc5a71,
        0xfa256395, 0x9674ee15, 0x5886ca5d, 0x2e2f31d7, 0x7e0af1fa, 0x27cf73c3, 0x749c47ab,
        0x18501dda, 0xe2757e4f, 0x7401905a, 0xcafaaae3, 0xe4d59b34, 0x9adf6ace, 0xbd10190d,
        0xfe4890d1, 0xe6188d0b, 0x046df344, 0x706c631e,
    ];
    assert_eq!(rt; laws::schedule_words(&EXAMPLE_KEY), want);
}

/// SP 800-38A, F.5.5.
#[test]
fn applies_the_key_stream(rt: HostRuntime) {
    let iv = 0xf0f1f2f3f4f5f6f7f8f9fafbfcfdfeffu128.to_be_bytes();
    let plaintext = joined([
        0x6bc1bee22e409f96e93d7e117393172a,
        0xae2d8a571e03ac9c9eb76fac45af8e51,
        0x30c81c46a35ce411e5fbc1191a0a52ef,
        0xf69f2445df4f9b17ad2b417be66c3710,
    ]);
    let want = joined([
        0x601ec313775789a5b7a7f504bbf3d228,
        0xf443e3ca4d62b59aca84e990cacaf5c5,
        0x2b0930daa23de94ce87017ba2d84988d,
        0xdfc9c58db67aada613c2dd08457941a6,
    ]);
    let key = Key::new(&EXAMPLE_KEY);
    let mut whole = plaintext;
    ctr_apply(&key, &iv, &mut whole);
    assert_eq!(rt; whole, want);
    let mut prefix = plaintext;
    ctr_apply(&key, &iv, &mut prefix[..17]);
    for i in 0..64 {
        let byte = if i < 17 { want[i] } else { plaintext[i] };
        assert_eq!(rt; prefix[i], byte, "byte {i}");
    }
}

fn joined(blocks: [u128; 4]) -> [u8; 64] {
    let mut bytes = [0; 64];
    for i in 0..4 {
        bytes[16 * i..16 * i + 16].copy_from_slice(&blocks[i].to_be_bytes());
    }
    bytes
}

/// The counters 0 and 1 follow 2^128 - 1.
#[test]
fn counter_wraps_around(rt: HostRuntime) {
    let mut bytes = [0; 48];
    ctr_apply(&Key::new(&ZERO_KEY), &[0xff; 16], &mut bytes);
    let zero = 0xdc95c078a2408989ad48a21492842087u128.to_be_bytes();
    let one = 0x530f8afbc74536b9a963b4f1c4cb738bu128.to_be_bytes();
    assert_eq!(rt; bytes[16..32], *zero.as_slice());
    assert_eq!(rt; bytes[32..], *one.as_slice());
}

#[test]
fn pads_to_whole_blocks(rt: HostRuntime) {
    for (n, len, byte) in [(0, 16, 16), (15, 16, 1), (16, 32, 16)] {
        let mut work = [0xaa; 32];
        assert_eq!(rt; pad(&mut work, n), len, "at {n}");
        for i in 0..32 {
            let want = if i >= n && i < len { byte } else { 0xaa };
            assert_eq!(rt; work[i], want, "byte {i} at {n}");
        }
    }
}

#[test]
fn unpads_right_padding_only(rt: HostRuntime) {
    assert_eq!(rt; unpad(&[]), None);
    assert_eq!(rt; unpad(&[1; 15]), None);
    let mut block = [0; 16];
    assert_eq!(rt; unpad(&block), None);
    block[15] = 0x11;
    assert_eq!(rt; unpad(&block), None);
    block[13] = 2;
    block[14] = 3;
    block[15] = 3;
    assert_eq!(rt; unpad(&block), None);
    assert_eq!(rt; unpad(&[16; 16]), Some(0));
    block[13] = 3;
    assert_eq!(rt; unpad(&block), Some(13));
}

/// FIPS 197, 5.1.1: S(53) = ed; and 2 · ed = c1, 3 · ed = 2c.
#[test]
fn reads_the_tables(rt: HostRuntime) {
    assert_eq!(rt; laws::table_s(0x53), 0xed);
    assert_eq!(rt; laws::table_word(0x53), [0xc1, 0xed, 0xed, 0x2c]);
    let rotated = [
        [0x2c, 0xc1, 0xed, 0xed],
        [0xed, 0x2c, 0xc1, 0xed],
        [0xed, 0xed, 0x2c, 0xc1],
    ];
    assert_eq!(rt; laws::rotated_table_words(0x53), rotated);
    laws::one_padding();
    laws::counter_mode_undoes_itself();
}

#[test]
fn agrees_with_the_field_cipher(rt: HostRuntime) {
    for key in [counting_key(), ZERO_KEY, EXAMPLE_KEY] {
        agrees_under(&rt, &key);
    }
}

fn agrees_under(rt: &impl Abort, key: &[u8; 32]) {
    let tables = Key::new(key);
    let field = FieldCipher::new(key);
    for n in 0..1000u32 {
        let block = u128::from(n).to_be_bytes();
        assert_eq!(rt; tables.block(&block), field.block(&block), "block {n}");
    }
}
