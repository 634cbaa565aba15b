//! Comparing the tag of a vault.
ghost use Rattle.std.specs.Prelude.{◌≡◌, ◌↔◌, IsTrue};

use vault_text::TAG_LENGTH;

/// Whether two tags are equal. The loop compares all their bytes, and does not stop at the first
/// difference.
pub(crate) fn tags_equal(one: &[u8; TAG_LENGTH], other: &[u8; TAG_LENGTH]) -> bool
    ensures { IsTrue result ↔ (one.now ≡ other.now) }
{
    let mut differences = 0;
    for i in 0..TAG_LENGTH {
        differences |= one[i] ^ other[i];
    }
    differences == 0
}
