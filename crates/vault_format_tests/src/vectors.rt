//! Blocks with known ciphertext.
use vault_aes::Key;

pub const ZERO_KEY: [u8; 32] = [0; 32];

/// The key 00 01 .. 1f of FIPS 197, C.3.
pub fn counting_key() -> [u8; 32] {
    let mut key = [0; 32];
    for i in 0..32 {
        key[i] = i as u8;
    }
    key
}

/// FIPS 197, C.3.
#[test]
fn enciphers_under_the_counting_key(rt: HostRuntime) {
    let block = 0x00112233445566778899aabbccddeeffu128.to_be_bytes();
    let want = 0x8ea2b7ca516745bfeafc49904b496089u128.to_be_bytes();
    assert_eq!(rt; Key::new(&counting_key()).block(&block), want);
}

#[test]
fn enciphers_zeros_under_the_zero_key(rt: HostRuntime) {
    let want = 0xdc95c078a2408989ad48a21492842087u128.to_be_bytes();
    assert_eq!(rt; Key::new(&ZERO_KEY).block(&[0; 16]), want);
}

#[test]
fn enciphers_one_under_the_zero_key(rt: HostRuntime) {
    let want = 0x530f8afbc74536b9a963b4f1c4cb738bu128.to_be_bytes();
    assert_eq!(rt; Key::new(&ZERO_KEY).block(&1u128.to_be_bytes()), want);
}
