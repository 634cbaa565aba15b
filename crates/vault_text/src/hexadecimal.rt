//! Hexadecimal text that comes in pieces.
ghost use Rattle.std.specs.List.{list_all};
ghost use Rattle.std.specs.Prelude.{◌≡◌, ℕ, ◌*◌, ◌/◌, ◌≤◌, List, [], None, Some, if◌then◌else◌};
ghost use Rattle.std.specs.Prelude.{true, length, map, take};
ghost use Rattle.hex.specs.Hex.{hex_digit_value, is_hex_digit};
ghost use Rattle.vault_text.specs.Hexadecimal.{Decodes, byte_count, new_decoder, unhex, unhex_on};
ghost use Rattle.vault_text.specs.Hexadecimal.{value_or_invalid};

use crate::line::LINE_DIGITS;
use std::marker::Model;

/// The number of digits in a block: half of a line, or all the digits that a line spells.
const BLOCK_DIGITS: usize = LINE_DIGITS / 2;

/// The number of bytes that a block spells.
const BLOCK_BYTES: usize = BLOCK_DIGITS / 2;

/// The largest value of a digit.
const LARGEST: u8 = 15;

/// Stands in for the value of a byte that is not a digit; it has bits that no digit has.
const INVALID: u8 = 255;

/// The value of a digit of either case.
fn digit_value(digit: u8) -> Option<u8>
    ensures { result ≡ hex_digit_value digit }
{
    let mut value = [0];
    hex::decode_to_slice([b'0', digit].as_slice(), &mut value).ok()?;
    Some(value[0])
}

/// Decodes each pair of digits to a byte, and returns whether all were digits. If not, the bytes
/// are meaningless. No loop ends early at a bad digit: that branch would be mispredicted.
// Inlined, since most callers know the length.
#[inline(always)]
fn decode_pairs(pairs: &[u8], bytes: &mut [u8]) -> bool
    requires { length pairs.now ≡ 2 * length bytes.old }
    ensures { unhex pairs.now ≡ (if result then Some bytes.new else None) }
{
    let mut is_good = true;
    let mut done = 0;
    while bytes.len() - done >= BLOCK_BYTES {
        let end = done + BLOCK_BYTES;
        is_good &= decode_block(&pairs[2 * done..2 * end], &mut bytes[done..end]);
        done = end;
    }
    is_good & decode_one_by_one(&pairs[2 * done..], &mut bytes[done..])
}

/// Decodes a block of digits. Its length is fixed, so the compiler can use vector instructions.
// Kept out of line: there is only one copy, and profiles show the cost of decoding.
#[inline(never)]
fn decode_block(digits: &[u8], bytes: &mut [u8]) -> bool
    requires digits { length digits.now ≡ BLOCK_DIGITS }
    requires bytes { length bytes.old ≡ BLOCK_BYTES }
    ensures { unhex digits.now ≡ (if result then Some bytes.new else None) }
{
    let mut values = [0; BLOCK_DIGITS];
    let is_good = digit_values(digits, &mut values);
    join_halves(&values, bytes);
    is_good
}

/// Writes the values of a block of digits, and returns whether all were digits.
fn digit_values(digits: &[u8], values: &mut [u8; BLOCK_DIGITS]) -> bool
    requires { length digits.now ≡ BLOCK_DIGITS }
    ensures values { values.new ≡ map value_or_invalid digits.now }
    ensures good { result ≡ list_all is_hex_digit digits.now }
{
    let mut seen = 0;
    for place in 0..BLOCK_DIGITS {
        let value = digit_value(digits[place]).unwrap_or(INVALID);
        seen |= value;
        values[place] = value;
    }
    seen <= LARGEST
}

/// Joins each pair of values of a block into a byte.
fn join_halves(values: &[u8; BLOCK_DIGITS], bytes: &mut [u8])
    requires { length bytes.old ≡ BLOCK_BYTES }
    ensures { (digits : List ℕ) → values.now ≡ map value_or_invalid digits
        → list_all is_hex_digit digits ≡ true → unhex digits ≡ Some bytes.new }
{
    for place in 0..BLOCK_BYTES {
        bytes[place] = values[2 * place] << 4 | values[2 * place + 1];
    }
}

/// Decodes pairs of digits that are too few for a block.
#[inline(always)]
fn decode_one_by_one(pairs: &[u8], bytes: &mut [u8]) -> bool
    requires { length pairs.now ≡ 2 * length bytes.old }
    ensures { unhex pairs.now ≡ (if result then Some bytes.new else None) }
{
    let mut is_good = true;
    for place in 0..bytes.len() {
        let high = digit_value(pairs[2 * place]);
        let low = digit_value(pairs[2 * place + 1]);
        is_good &= high.is_some() & low.is_some();
        bytes[place] = high.unwrap_or(0) << 4 | low.unwrap_or(0);
    }
    is_good
}

/// Decodes hexadecimal text that may be cut anywhere, even between the two digits of a byte.
#[derive(Drop)]
pub(crate) struct HexDecoder {
    /// The first digit of a byte whose second digit has not come yet.
    high: Option<u8>,
    /// Whether there was a byte that is not a digit.
    is_bad: bool,
}

impl Model for HexDecoder {
    ghost use Rattle.vault_text.specs.Hexadecimal.{DecoderState};

    ghost Value = { DecoderState };

    ghost view = { λ d. record { high = d.high; is_bad = d.is_bad } };
}

impl HexDecoder {
    pub(crate) fn new() -> Self
        ensures { result ≡ new_decoder }
    {
        HexDecoder {
            high: None,
            is_bad: false,
        }
    }

    /// Decodes the bytes that these digits complete into the start of `bytes`, and returns how
    /// many there are. After a bad digit the bytes are meaningless.
    #[inline(always)]
    pub(crate) fn decode(&mut self, digits: &[u8], bytes: &mut [u8]) -> usize
        requires { byte_count self.old digits.now ≤ length bytes.old }
        ensures count { result ≡ byte_count self.old digits.now }
        ensures decoded { Decodes self.old digits.now (take result bytes.new) self.new }
    {
        let Some(high) = self.high else {
            return self.decode_aligned(digits, bytes);
        };
        let Some((low, rest)) = digits.split_first() else {
            return 0;
        };
        self.high = None;
        self.is_bad |= !decode_pairs([high, *low].as_slice(), &mut bytes[..1]);
        1 + self.decode_aligned(rest, &mut bytes[1..])
    }

    /// Decodes each pair of digits to a byte. Returns false if a digit is bad, here or earlier, or
    /// if one still waits for its second; the bytes are then meaningless.
    pub(crate) fn decode_whole(&self, pairs: &[u8], bytes: &mut [u8]) -> bool
        requires { length pairs.now ≡ 2 * length bytes.old }
        ensures value { unhex_on self.now pairs.now ≡ (if result then Some bytes.new else None) }
        ensures good { result ≡ true → unhex pairs.now ≡ Some bytes.new }
        ensures decoded { result ≡ true → Decodes self.now pairs.now bytes.new self.now }
    {
        self.is_complete() && decode_pairs(pairs, bytes)
    }

    /// Decodes digits when no earlier digit waits for its second.
    #[inline(always)]
    fn decode_aligned(&mut self, digits: &[u8], bytes: &mut [u8]) -> usize
        requires aligned { self.old.high ≡ None }
        requires room { length digits.now / 2 ≤ length bytes.old }
        ensures count { result ≡ length digits.now / 2 }
        ensures decoded { Decodes self.old digits.now (take result bytes.new) self.new }
    {
        let count = digits.len() / 2;
        let (pairs, rest) = digits.split_at(2 * count);
        self.is_bad |= !decode_pairs(pairs, &mut bytes[..count]);
        self.high = rest.first().copied();
        count
    }

    /// Whether all digits were good and none waits for its second.
    pub(crate) fn is_complete(&self) -> bool
        ensures { unhex_on self.now [] ≡ (if result then Some [] else None) }
    {
        !self.is_bad && self.high.is_none()
    }
}
