//! Exclusive or of byte strings.
ghost use Rattle.std.specs.Prelude.{◌≡◌};
ghost use Rattle.vault_kdf.specs.Hmac.{xor};

/// Each byte is the exclusive or of the two bytes at its place.
// Out of line it uses vector instructions; inlined after a digest it goes byte by byte.
#[inline(never)]
pub(crate) fn xor<const N: usize>(a: &[u8; N], b: &[u8; N]) -> [u8; N]
    ensures { result ≡ xor a.now b.now }
{
    let mut bytes = *a;
    for (i, byte) in bytes.iter_mut().enumerate() {
        *byte ^= b[i];
    }
    bytes
}
