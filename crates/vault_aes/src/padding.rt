//! PKCS #7 padding (RFC 5652, section 6.3) for blocks of 16 bytes.
ghost use Rattle.std.specs.Prelude.{◌≡◌, ℕ, ◌≤◌, ◌↔◌, List, length, take, drop, All};
ghost use Rattle.std.specs.Prelude.{IfSome, IfNone, IsTrue};
ghost use Rattle.vault_aes.specs.Padding.{IsPadded, padded, padded_length};

use crate::rounds::BLOCK_LEN;

/// Pads the first `n` bytes of `work` in place (RFC 5652, section 6.3), and returns the padded
/// length, the next multiple of 16 above `n`, for which `work` must have room. The bytes past it
/// do not change.
pub fn pad(work: &mut [u8], n: usize) -> usize
    requires within { n ≤ length work.old }
    requires room { padded_length n ≤ length work.old }
    ensures len { result ≡ padded_length n }
    ensures padded { take result work.new ≡ padded (take n work.old) }
    ensures rest { drop result work.new ≡ drop result work.old }
{
    let count = BLOCK_LEN - n % BLOCK_LEN;
    work[n..n + count].fill(count as u8);
    n + count
}

/// The length of the plaintext without its padding (RFC 5652, section 6.3). It is `None` if the
/// length of `padded` is not a positive multiple of 16, the last byte n is not 1 to 16, or the last
/// n bytes do not all equal n. The check is not constant-time.
pub fn unpad(padded: &[u8]) -> Option<usize>
    ensures plaintext { IfSome result (λ n. IsPadded (take n padded.now) padded.now) }
    ensures none { IfNone result ((plaintext : List ℕ) → ¬ IsPadded plaintext padded.now) }
    ensures len { IfSome result (λ n. padded_length n ≡ length padded.now) }
{
    let count = *padded.last()?;
    if padded.len() % BLOCK_LEN != 0 || count == 0 || count as usize > BLOCK_LEN {
        return None;
    }
    let n = padded.len() - count as usize;
    all_are(&padded[n..], count).then_some(n)
}

fn all_are(bytes: &[u8], value: u8) -> bool
    ensures { IsTrue result ↔ All (λ byte. byte ≡ value) bytes.now }
{
    bytes.iter().all(|&byte| byte == value)
}
