//! Inputs at the limits of length: the answers, and how many bytes are read.
ghost use Rattle.std.specs.Prelude.{◌≡◌, length};
ghost use Rattle.vault_text.specs.declared.limits.TheConstants.{CIPHERTEXT_LIMIT};

use crate::trial::{Left, Trial};
use std::alloc::{AllocError, Global};
use std::process::Abort;
use std::test::Fail;
use vault_cli::{MemSource, ReadSource};
use vault_core_tests::CountingReader;
use vault_made::{envelope, spelled};
use vault_text::{CIPHERTEXT_LIMIT, EnvelopeReader, TextFault};

const ENCRYPT: &[&str] = &["encrypt", "--vault-password-file", "one"];

const DECRYPT: &[&str] = &["decrypt", "--vault-password-file", "one"];

const REKEY: &[&str] = &["rekey", "--vault-id=one", "--new-vault-id=prod@two"];

const ONE: &[&[u8]] = &[b"one\n"];

/// The vault of this many bytes `a`, under the label `default` and the password `one`.
fn vault_of_letters(alloc: Global, length: usize) -> Result<Vec<u8>, AllocError> {
    let plaintext = vec![in alloc; b'a'; length]?;
    envelope(alloc, "default", b"one", &[7; 32], plaintext.as_slice())
}

/// There are 67,109,188 digits after the header line.
#[test]
fn take_the_longest_plaintext(rt: HostRuntime) -> Result<(), Fail> {
    let alloc = rt.alloc();
    let plaintext = vec![in alloc; b'a'; 16_777_216]?;
    let trial = Trial::new(ENCRYPT, ONE, &[0; 32]).at_the_limit();
    let ran = trial.run_from(alloc, &mut MemSource::new(plaintext.as_slice(), 4_096))?;
    let left = ran.left()?;
    let lines = left.output.iter().filter(|byte| **byte == b'\n').count();
    let found = (left, left.output.len(), lines);
    assert!(rt; found == (Left::success(left.output), 67_948_079, 1 + 838_865));
    Ok(())
}

/// Asserts that a vault of this many letters decrypts to them.
fn assert_decrypts(rt: &impl Abort, alloc: Global, length: usize) -> Result<(), Fail> {
    let plaintext = vec![in alloc; b'a'; length]?;
    let vault = vault_of_letters(alloc, length)?;
    let trial = Trial::new(DECRYPT, ONE, &[]).at_the_limit();
    trial.assert_leaves(
        rt,
        alloc,
        vault.as_slice(),
        Left::success(plaintext.as_slice()),
    )
}

/// A limit of one MiB would end before it.
#[test]
fn take_more_than_a_mib(rt: HostRuntime) -> Result<(), Fail> {
    assert_decrypts(&rt, rt.alloc(), 1_048_592)
}

/// A plaintext 15 bytes longer than `encrypt` takes fills the longest ciphertext with its padding.
#[test]
fn take_the_longest_envelope(rt: HostRuntime) -> Result<(), Fail> {
    assert_decrypts(&rt, rt.alloc(), 16_777_231)
}

/// The same vault with another password, label and salt: more than `encrypt` takes is resealed.
#[test]
fn rekey_the_longest_envelope(rt: HostRuntime) -> Result<(), Fail> {
    let alloc = rt.alloc();
    let plaintext = vec![in alloc; b'a'; 16_777_231]?;
    let vault = vault_of_letters(alloc, 16_777_231)?;
    let rekeyed = envelope(alloc, "prod", b"two", &[1; 32], plaintext.as_slice())?;
    let trial = Trial::new(REKEY, &[b"one\n", b"two\n"], &[1; 32]).at_the_limit();
    trial.assert_leaves(
        &rt,
        alloc,
        vault.as_slice(),
        Left::success(rekeyed.as_slice()),
    )
}

/// Plaintexts that are one byte too long or endless; and damaged vaults that are one byte too long,
/// which is reported before the damage, as long as they may be, and longer than a limit of one MiB
/// would allow. Each is refused after so many of its bytes.
#[test]
fn are_refused(rt: HostRuntime) -> Result<(), Fail> {
    let too_long = Left::refused("ERROR! input is longer than the limit\n");
    let damaged = Left::refused("ERROR! vault body is not hexadecimal\n");
    let bad_digit = b"$ANSIBLE_VAULT;1.1;AES256\nzz".as_slice();
    let cases = [
        (ENCRYPT, b"".as_slice(), 16_777_217, 16_777_217, too_long),
        (ENCRYPT, b"", usize::MAX, 16_777_217, too_long),
        (DECRYPT, bad_digit, 100_671_489, 100_671_489, too_long),
        (DECRYPT, bad_digit, 100_671_488, 100_671_488, damaged),
        (DECRYPT, bad_digit, 6_299_649, 6_299_649, damaged),
    ];
    for (words, prefix, length, read, left) in cases {
        let mut reader = CountingReader::with_line_feeds(prefix, length, 65_536);
        let trial = Trial::new(words, ONE, &[0; 32]).at_the_limit();
        let ran = trial.run_from(rt.alloc(), &mut ReadSource::new(&mut reader))?;
        assert_eq!(rt;
            (ran.left()?, reader.given),
            (left, read),
            "{words:?} {length}"
        );
    }
    Ok(())
}

/// An envelope with one byte of ciphertext more than it may have, without its last three bytes: the
/// last byte of the body and a line feed.
fn long_envelope(rt: &impl Abort, alloc: Global) -> Result<Vec<u8>, AllocError> {
    let ciphertext = vec![in alloc; 0u8; CIPHERTEXT_LIMIT + 1]?;
    let mut vault = spelled(alloc, "default", &[7; 32], &[0; 32], ciphertext.as_slice())?;
    assert!(rt; vault.as_slice().ends_with(b"30\n"));
    vault.truncate(vault.len() - 3);
    Ok(vault)
}

#[test]
fn no_longer_ciphertext(rt: HostRuntime) -> Result<(), Fail> {
    let alloc = rt.alloc();
    let mut vault = long_envelope(&rt, alloc)?;
    vault.extend_from_slice(b"30\n")?;
    let trial = Trial::new(DECRYPT, ONE, &[]).at_the_limit();
    let left = Left::refused("ERROR! vault ciphertext is longer than the limit\n");
    trial.assert_leaves(&rt, alloc, vault.as_slice(), left)
}

/// The fault of reading these bytes in pieces, and then this end.
fn fault_of(work: &mut [u8], input: &[u8], end: &[u8]) -> Option<TextFault>
    requires { length work.old ≡ CIPHERTEXT_LIMIT }
{
    let mut reader = EnvelopeReader::new(work);
    for piece in input.chunks(4_096) {
        reader.feed(piece);
    }
    reader.feed(end);
    reader.finish().err()
}

/// A fault of the digits or of the inner text comes before the fault of the length.
#[test]
fn no_longer_ciphertext_in_pieces(rt: HostRuntime) -> Result<(), Fail> {
    let alloc = rt.alloc();
    let vault = long_envelope(&rt, alloc)?;
    let mut work = vec![in alloc; 0u8; CIPHERTEXT_LIMIT]?;
    for (end, fault) in [
        (b"3g\n".as_slice(), TextFault::BadHex),
        (b"67\n", TextFault::BadPayload),
        (b"30\n", TextFault::CipherTooLong),
    ] {
        assert_eq!(rt; work.len(), CIPHERTEXT_LIMIT);
        let found = fault_of(work.as_mut_slice(), vault.as_slice(), end);
        assert_eq!(rt; found, Some(fault));
    }
    Ok(())
}
