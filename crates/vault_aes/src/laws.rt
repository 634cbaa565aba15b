//! Laws of the definitions, each stated as the contract of a function that does nothing, and
//! functions that read the cipher's tables and the key schedule.
ghost use Rattle.std.specs.Prelude.{◌≡◌, ℕ, List, [], ◌∷◌, length, Some};
ghost use Rattle.vault_aes.specs.CounterMode.{counter_mode};
ghost use Rattle.vault_aes.specs.Field.{mul};
ghost use Rattle.vault_aes.specs.KeyExpansion.{key_schedule};
ghost use Rattle.vault_aes.specs.Padding.{IsPadded, padded, without_padding};
ghost use Rattle.vault_aes.specs.SubstitutionBox.{s_box};

use crate::key_expansion::expand_key;
use crate::tables::{sub_byte, te0, te1, te2, te3};

/// Each plaintext has exactly one padded text, different plaintexts have different ones, and
/// unpadding undoes padding.
pub fn one_padding()
    ensures exists { (plaintext : List ℕ) → IsPadded plaintext (padded plaintext) }
    ensures unique { (plaintext text : List ℕ) → IsPadded plaintext text
        → text ≡ padded plaintext }
    ensures injective { (one other text : List ℕ) → IsPadded one text → IsPadded other text
        → one ≡ other }
    ensures unpads_padded { (plaintext : List ℕ)
        → without_padding (padded plaintext) ≡ Some plaintext }
    ensures pads_unpadded { (plaintext text : List ℕ)
        → without_padding text ≡ Some plaintext → padded plaintext ≡ text }
{}

/// Applying counter mode twice gives the input back. The length does not change.
pub fn counter_mode_undoes_itself()
    ensures twice { (words iv input : List ℕ)
        → counter_mode words iv (counter_mode words iv input) ≡ input }
    ensures same_length { (words iv input : List ℕ)
        → length (counter_mode words iv input) ≡ length input }
{}

/// The entry at `x` of the first of the four tables that `Key::block` reads: the one for row 0.
pub fn table_word(x: u8) -> [u8; 4]
    ensures { result ≡ mul 2 (s_box x) ∷ s_box x ∷ s_box x ∷ mul 3 (s_box x) ∷ [] }
{
    te0(x).to_be_bytes()
}

/// The entries at `x` of the tables for rows 1, 2 and 3. Each is the entry for the row before it,
/// rotated by a byte.
pub fn rotated_table_words(x: u8) -> [[u8; 4]; 3]
    ensures { let s = s_box x in let twice = mul 2 s in let thrice = mul 3 s in
        result ≡ (thrice ∷ twice ∷ s ∷ s ∷ []) ∷ (s ∷ thrice ∷ twice ∷ s ∷ [])
        ∷ (s ∷ s ∷ thrice ∷ twice ∷ []) ∷ [] }
{
    [
        te1(x).to_be_bytes(),
        te2(x).to_be_bytes(),
        te3(x).to_be_bytes(),
    ]
}

/// The entry at `x` of the S-box, which `Key::new` and the last round of `Key::block` read.
pub fn table_s(x: u8) -> u8
    ensures { result ≡ s_box x }
{
    sub_byte(x)
}

/// The words of the key schedule, from which `Key::new` makes a key.
pub fn schedule_words(key: &[u8; 32]) -> [u32; 60]
    ensures { result ≡ key_schedule key.now }
{
    expand_key(key)
}
