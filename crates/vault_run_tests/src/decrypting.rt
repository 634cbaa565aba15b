//! Runs of `decrypt` and `view`: without secrets, with a label that is required, and on envelopes
//! that are damaged or spelled differently from how they are written.
ghost use Rattle.std.specs.Prelude.{◌<◌};

use crate::trial::{Left, Trial};
use std::alloc::{AllocError, Global};
use std::process::Abort;
use std::test::Fail;
use vault_made::{EMPTY_ENVELOPE, envelope, tagged};

const ONE: &[&[u8]] = &[b"one\n"];

const TWO: &[&[u8]] = &[b"one\n", b"two\n"];

const SALT: &[u8] = &[0; 32];

const PLAINTEXT: &[u8] = &[b'a'; 16];

const NO_SECRET_FITS: &str = "ERROR! no secret decrypts this vault\n";

#[test]
fn refuses_without_secrets(rt: HostRuntime) -> Result<(), Fail> {
    let trial = Trial::new(&["view"], &[], &[]);
    let no_vault = Left::refused("ERROR! input is not vault encrypted data\n");
    trial.assert_leaves(&rt, rt.alloc(), b"", no_vault)?;
    trial.assert_leaves(
        &rt,
        rt.alloc(),
        EMPTY_ENVELOPE,
        Left::refused(NO_SECRET_FITS),
    )
}

const A_AND_B: &[&str] = &["decrypt", "--vault-id=a@f1", "--vault-id=b@f2"];

const A_OR_B: &[&str] = &[
    "decrypt",
    "--vault-id=a@f1",
    "--vault-id=b@f2",
    "--require-id-match",
];

const DEFAULT: &[&str] = &[
    "decrypt",
    "--vault-password-file",
    "f1",
    "--require-id-match",
];

const OTHER: &[&str] = &["decrypt", "--vault-id", "x@f1", "--require-id-match"];

/// A label, a password and a plaintext.
type Parts<'a> = (&'a str, &'a [u8], &'a [u8]);

/// Asserts what decrypting a vault of these parts leaves.
fn assert_decrypting_leaves<'a>(
    rt: &impl Abort,
    alloc: Global,
    parts: Parts<'_>,
    words: &'a [&'a str],
    files: &'a [&'a [u8]],
    left: Left<'_>,
) -> Result<(), Fail> {
    let (label, password, plaintext) = parts;
    let vault = envelope(alloc, label, password, SALT, plaintext)?;
    Trial::new(words, files, &[]).assert_leaves(rt, alloc, vault.as_slice(), left)
}

/// Only secrets with the label of the vault are tried if the label is required.
#[test]
fn requires_the_label(rt: HostRuntime) -> Result<(), Fail> {
    let alloc = rt.alloc();
    let a: Parts = ("a", b"two", b"text");
    let c: Parts = ("c", b"one", b"text");
    let nothing: Parts = ("default", b"one", b"");
    let refused = Left::refused(NO_SECRET_FITS);
    assert_decrypting_leaves(&rt, alloc, a, A_OR_B, TWO, refused)?;
    assert_decrypting_leaves(&rt, alloc, c, A_OR_B, TWO, refused)?;
    assert_decrypting_leaves(&rt, alloc, c, A_AND_B, TWO, Left::success(b"text"))?;
    assert_decrypting_leaves(&rt, alloc, nothing, DEFAULT, ONE, Left::success(b""))?;
    assert_decrypting_leaves(&rt, alloc, nothing, OTHER, ONE, refused)
}

/// Asserts what decrypting these bytes with the password `one` leaves.
fn assert_leaves(rt: &impl Abort, alloc: Global, input: &[u8], left: Left<'_>) -> Result<(), Fail> {
    let trial = Trial::new(&["decrypt", "--vault-password-file", "f1"], ONE, &[]);
    trial.assert_leaves(rt, alloc, input, left)
}

/// Asserts that these digits are decrypted below this header line, if so many are on a line and
/// each line has this end.
fn assert_decrypts(
    rt: &impl Abort,
    alloc: Global,
    header: &[u8],
    digits: &[u8],
    width: usize,
    end: &[u8],
) -> Result<(), Fail>
    requires { 0 < width }
{
    let mut text = Vec::from_slice(alloc, header)?;
    text.extend_from_slice(end)?;
    for line in digits.chunks(width) {
        text.extend_from_slice(line)?;
        text.extend_from_slice(end)?;
    }
    assert_leaves(rt, alloc, text.as_slice(), Left::success(PLAINTEXT))
}

/// The vault of the plaintext: 26 bytes of header line, and a body of 388 digits.
fn vault_of_plaintext(alloc: Global) -> Result<Vec<u8>, AllocError> {
    envelope(alloc, "default", b"one", SALT, PLAINTEXT)
}

#[test]
fn takes_other_spellings(rt: HostRuntime) -> Result<(), Fail> {
    let alloc = rt.alloc();
    let header = b"$ANSIBLE_VAULT;1.1;AES256";
    let mut vault = vault_of_plaintext(alloc)?;
    assert_eq!(rt; vault.len(), 419);
    let body = vault[26..].iter().copied();
    let digits: Vec<u8> = body.filter(|byte| *byte != b'\n').collect(alloc)?;
    let upper = digits.to_ascii_uppercase(alloc)?;
    let (digits, upper) = (digits.as_slice(), upper.as_slice());
    assert_decrypts(&rt, alloc, header, digits, 80, b"\r\n")?;
    assert_decrypts(&rt, alloc, header, upper, 80, b"\n")?;
    assert_decrypts(&rt, alloc, header, digits, 1, b"\n")?;
    let spaced = b"$ANSIBLE_VAULT; 1.2 ;AES256; ;x";
    assert_decrypts(&rt, alloc, spaced, digits, 80, b"\n")?;
    vault.truncate(418);
    assert_leaves(&rt, alloc, vault.as_slice(), Left::success(PLAINTEXT))
}

/// Asserts that the vault with another byte at this place is refused with this line.
fn assert_damage_refused(
    rt: &impl Abort,
    alloc: Global,
    place: usize,
    byte: u8,
    refused: Left<'_>,
) -> Result<(), Fail> {
    let mut damaged = vault_of_plaintext(alloc)?;
    *damaged.get_mut(place).ok_or("the vault has no such place")? = byte;
    assert_leaves(rt, alloc, damaged.as_slice(), refused)
}

/// A space in the body; another last digit of the tag, which was a 7; and ciphertext with the
/// right tag, which is not a whole block.
#[test]
fn refuses_damage(rt: HostRuntime) -> Result<(), Fail> {
    let alloc = rt.alloc();
    let not_hexadecimal = Left::refused("ERROR! vault body is not hexadecimal\n");
    assert_damage_refused(&rt, alloc, 60, b' ', not_hexadecimal)?;
    assert_damage_refused(&rt, alloc, 286, b'5', Left::refused(NO_SECRET_FITS))?;
    let cut = tagged(alloc, "default", b"one", SALT, &[0; 15])?;
    let wrong_padding = Left::refused("ERROR! the padding of the decrypted data is wrong\n");
    assert_leaves(&rt, alloc, cut.as_slice(), wrong_padding)
}
