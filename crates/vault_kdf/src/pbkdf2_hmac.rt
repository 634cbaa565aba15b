//! PBKDF2 (RFC 8018, section 5.2).
ghost use Rattle.std.specs.Prelude.{◌≡◌, ℕ, List, [], ◌≤◌, length, map, take};
ghost use Rattle.std.specs.Int.{div_ceil};
ghost use Rattle.std.specs.List.{concat, range_with_len};
ghost use Rattle.vault_kdf.specs.Pbkdf2.{block, pbkdf2};
ghost use Rattle.vault_kdf.specs.Hmac.{HasRead};

use crate::hmac_sha256::{DIGEST_LEN, Hmac};
use crate::xor::xor;

/// T_i, the block of this index, counted from 1 (RFC 8018, section 5.2, step 3). `keyed` has the
/// password and no message, so that the password is hashed once for all blocks and iterates.
fn block(keyed: &Hmac, salt: &[u8], rounds: u32, index: u32) -> [u8; DIGEST_LEN]
    requires { 1 ≤ rounds }
    ensures { (password : List ℕ) → HasRead keyed.now password []
        → result ≡ block password salt.now rounds index }
{
    let mut first = keyed.clone().unwrap();
    first.update(salt);
    first.update(&index.to_be_bytes());
    let mut iterate = first.finish();
    let mut sum = iterate;
    for _ in 1..rounds {
        iterate = keyed.mac_of(&iterate);
        sum = xor(&sum, &iterate);
    }
    sum
}

/// Fills `out` with the bytes of the blocks from the index `first` on. `keyed` has the password and
/// no message. `rounds` must be at least 1; `first` may be up to 1,024, as may the length of `out`.
// The only caller of `block`: in this loop, LLVM inlines what a round calls. Calling `block`
// outside a loop made a derivation 3.5% slower.
pub(crate) fn fill_from(keyed: &Hmac, salt: &[u8], rounds: u32, first: u32, out: &mut [u8])
    requires rounds { 1 ≤ rounds }
    requires first { first ≤ 1024 }
    requires length { length out.old ≤ 1024 }
    ensures { (password : List ℕ) → HasRead keyed.now password []
        → out.new ≡ take (length out.old) (concat (map (block password salt.now rounds)
        (range_with_len first (div_ceil (length out.old) 32)))) }
{
    for i in 0..out.len().div_ceil(DIGEST_LEN) {
        let start = i * DIGEST_LEN;
        let end = out.len().min(start + DIGEST_LEN);
        let bytes = block(keyed, salt, rounds, first + i as u32);
        out[start..end].copy_from_slice(&bytes[..end - start]);
    }
}

/// Fills `out` with the key that PBKDF2 with HMAC-SHA-256 derives (RFC 8018, section 5.2). `rounds`
/// must be at least 1; `out` may have up to 1,024 bytes.
pub fn pbkdf2(password: &[u8], salt: &[u8], rounds: u32, out: &mut [u8])
    requires rounds { 1 ≤ rounds }
    requires length { length out.old ≤ 1024 }
    ensures { out.new ≡ pbkdf2 password.now salt.now rounds (length out.old) }
{
    fill_from(&Hmac::new(password), salt, rounds, 1, out);
}
