//! The vectors of the standards for HMAC and PBKDF2, and the keys of a vault.
ghost use Rattle.std.specs.Prelude.{◌≤◌};

use std::alloc::{AllocError, Global};
use std::process::Abort;
use std::test::Fail;
use vault_kdf::{Derivation, Hmac, Keys, Meter, derive, hmac, pbkdf2};

/// Asserts that these bytes have these digits.
fn assert_digits(
    rt: &impl Abort,
    alloc: Global,
    bytes: &[u8],
    digits: &str,
) -> Result<(), AllocError> {
    assert_eq!(rt; hex::encode(alloc, bytes)?.as_str(), digits);
    Ok(())
}

/// Keys, messages and tags of RFC 4231, sections 4.2, 4.3 and 4.7. Then a key that fills a block,
/// and one that is a byte longer: computed by python3's `hmac`.
const TAGS: [(&[u8], &str, &str); 5] = [
    (
        &[0x0b; 20],
        "Hi There",
        "b0344c61d8db38535ca8afceaf0bf12b881dc200c9833da726e9376c2e32cff7",
    ),
    (
        b"Jefe",
        "what do ya want for nothing?",
        "5bdcc146bf60754e6a042426089575c75a003f089d2739839dec58b964ec3843",
    ),
    (
        &[0xaa; 131],
        "Test Using Larger Than Block-Size Key - Hash Key First",
        "60e431591ee0b67f0d8a26aacbf5b77f8e0bc6213728c5140546040f0ee37f54",
    ),
    (
        &[0xaa; 64],
        "Hi There",
        "ebef34e13d0a0fe04593d043bc7a865106db0604211d404c18206d862e5d7852",
    ),
    (
        &[0xaa; 65],
        "Hi There",
        "00af6c42340b99e2e1d9a1cdf1547be431fe2e9bab3215c68d013ba858891927",
    ),
];

/// Each message is given whole, and one byte at a time.
#[test]
fn hmac_of_short_and_long_keys(rt: HostRuntime) -> Result<(), Fail> {
    let alloc = rt.alloc();
    for (key, message, digits) in TAGS {
        assert_digits(&rt, alloc, &hmac(key, message.as_bytes()), digits)?;
        let mut state = Hmac::new(key);
        for byte in message.as_bytes().chunks(1) {
            state.update(byte);
        }
        assert_digits(&rt, alloc, &state.finish(), digits)?;
    }
    Ok(())
}

/// Asserts that the password and the salt `salt` give a key with these digits in this many rounds.
fn assert_key<const N: usize>(
    rt: &impl Abort,
    alloc: Global,
    password: &[u8],
    rounds: u32,
    digits: &str,
) -> Result<(), AllocError>
    requires rounds { 1 ≤ rounds }
    requires length { N ≤ 1024 }
{
    let mut out = [0; N];
    pbkdf2(password, b"salt", rounds, &mut out);
    assert_digits(rt, alloc, &out, digits)
}

/// The inputs of RFC 6070, whose keys under HMAC-SHA-256 were computed by python3's `hashlib`.
#[test]
fn pbkdf2_of_one_block(rt: HostRuntime) -> Result<(), Fail> {
    let alloc = rt.alloc();
    let key = "120fb6cffcf8b32c43e7225256c4f837a86548c92ccc35480805987cb70be17b";
    assert_key::<32>(&rt, alloc, b"password", 1, key)?;
    let key = "ae4d0c95af6b46d32d0adff928f06dd02a303f8ef3c251dfd6e2d85a95474c43";
    assert_key::<32>(&rt, alloc, b"password", 2, key)?;
    let key = "c5e478d59288c841aa530db6845c4c8d962893a001ce4e11a4963873aa98134a";
    assert_key::<32>(&rt, alloc, b"password", 4_096, key)?;
    Ok(())
}

/// RFC 7914, section 11.
#[test]
fn pbkdf2_of_two_blocks(rt: HostRuntime) -> Result<(), Fail> {
    let key = "55ac046e56e3089fec1691c22544b605f94185216dde0465e68b9d57c20dacbc\
        49ca9cccf179b645991664b39d77ef317c71b845b1e30bd509112041d3a19783";
    assert_key::<64>(&rt, rt.alloc(), b"passwd", 1, key)?;
    Ok(())
}

/// Computed by python3's `hashlib.pbkdf2_hmac("sha256", password, salt, 10000, 80)`.
#[test]
fn keys_of_a_vault(rt: HostRuntime) -> Result<(), Fail> {
    let mut meter = Meter::new();
    assert_eq!(rt; meter.count(), 0);
    let Keys { cipher, mac, iv } = derive(
        b"correct horse battery staple",
        b"a salt of a vault, of 32 bytes..",
        &mut meter,
    );
    assert_eq!(rt; meter.count(), 1);
    let alloc = rt.alloc();
    let digits = "b2cae7dd65cac57511c9683a4bb7e1428b82e9e279c939a85976894374aa950d";
    assert_digits(&rt, alloc, &cipher, digits)?;
    let digits = "5b3db692cadac4b603bbccc210a7ab196f20d049d3d6231c9c7999ba02ad1e54";
    assert_digits(&rt, alloc, &mac, digits)?;
    assert_digits(&rt, alloc, &iv, "456c13010172e53cfa00fcd9d5ca334c")?;
    derive(b"", b"", &mut meter);
    assert_eq!(rt; meter.count(), 2);
    Ok(())
}

/// The three keys are one output of PBKDF2, of 80 bytes, cut after bytes 32 and 64. The key of the
/// tag is there before the others.
#[test]
fn keys_are_cut_from_one_output(rt: HostRuntime) -> Result<(), Fail> {
    for (password, salt) in [(b"secret".as_slice(), b"salt".as_slice()), (b"", &[0; 32])] {
        let mut out = [0; 80];
        pbkdf2(password, salt, 10_000, &mut out);
        let derivation = Derivation::begin(password, salt, &mut Meter::new());
        assert_eq!(rt; derivation.mac().as_slice(), &out[32..64]);
        let Keys { cipher, mac, iv } = derivation.finish();
        let mut joined = Vec::from_slice(rt.alloc(), &cipher)?;
        joined.extend_from_slice(&mac)?;
        joined.extend_from_slice(&iv)?;
        assert_eq!(rt; out.as_slice(), joined.as_slice());
    }
    Ok(())
}
