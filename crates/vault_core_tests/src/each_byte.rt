//! A vault that is cut off at each of its bytes, or changed at each of them.
use std::alloc::Global;
use std::process::Abort;
use std::test::Fail;
use vault_core::{Fault, Secrets, password_of, prepare_decrypt};
use vault_kdf::Meter;
use vault_made::{EMPTY_ENVELOPE, envelope, spelled};
use vault_text::{Label, MemSource};

const SALT: &[u8; 32] = &[0; 32];

/// The length of the header line of a vault without a label, with its end.
const HEADER_LENGTH: usize = 26;

/// The length of a line of the body, with its end.
const LINE_LENGTH: usize = 81;

/// The number of digits of a body with a salt of 32 bytes and one block of ciphertext.
const DIGITS: usize = 324;

/// The positions of the two line feeds in the inner text.
const INNER_LINE_FEEDS: [usize; 2] = [64, 129];

/// The fault of decrypting these bytes with the password `one`.
fn fault_of(input: &[u8]) -> Result<Option<Fault>, Fail> {
    let mut secrets = Secrets::new();
    secrets.push(Label::default_label(), password_of(b"one\n")?)?;
    let mut work = [0; 1_024];
    let mut src = MemSource::new(input, 4_096);
    match prepare_decrypt(&mut src, &mut work, &secrets, &mut Meter::new()) {
        Ok(_) => Ok(None),
        Err(fault) => Ok(Some(fault)),
    }
}

fn vault_of_nothing(alloc: Global) -> Result<Vec<u8>, Fail> {
    Ok(envelope(alloc, "default", b"one", SALT, b"")?)
}

/// The fault of the first bytes of the vault.
fn fault_of_prefix(prefix: &[u8]) -> Option<Fault> {
    let body = prefix.iter().skip(HEADER_LENGTH);
    let digits = body.filter(|byte| **byte != b'\n').count();
    match prefix.len() {
        0..=13 => Some(Fault::NotVault),
        14..=18 => Some(Fault::BadHeader),
        19..=24 => Some(Fault::BadCipher),
        _ if digits == DIGITS => None,
        _ if digits % 2 == 1 => Some(Fault::BadHex),
        _ if digits < 260 || digits % 4 == 2 => Some(Fault::BadPayload),
        _ => Some(Fault::NoSecretFits),
    }
}

/// Asserts that decrypting these bytes, which have this number, has this fault.
fn assert_fault(
    rt: &impl Abort,
    number: usize,
    input: &[u8],
    fault: Option<Fault>,
) -> Result<(), Fail> {
    assert_eq!(rt; (number, fault_of(input)?), (number, fault));
    Ok(())
}

#[test]
fn refuses_each_prefix(rt: HostRuntime) -> Result<(), Fail> {
    let vault = vault_of_nothing(rt.alloc())?;
    assert_eq!(rt; vault.len(), 355);
    for length in 0..=vault.len() {
        let prefix = &vault[..length];
        assert_fault(&rt, length, prefix, fault_of_prefix(prefix))?;
    }
    Ok(())
}

/// The fault if the lowest bit of a digit of the body is changed, from the changed digit and the
/// other digit of its pair.
fn fault_of_digit(pair: usize, is_first: bool, changed: u8, other: u8) -> Fault {
    if INNER_LINE_FEEDS.contains(&pair) {
        return if is_first {
            Fault::BadPayload
        } else {
            Fault::BadHex
        };
    }
    let (high, low) = if is_first {
        (changed, other)
    } else {
        (other, changed)
    };
    // Each byte of the inner text is a digit, whose code contains no letters.
    let code = ((high & 15) << 4) | (low & 15);
    if code.is_ascii_hexdigit() {
        Fault::NoSecretFits
    } else {
        Fault::BadPayload
    }
}

/// The fault of the vault whose byte at this index has its lowest bit changed.
fn fault_of_changed(changed: &[u8], index: usize) -> Fault {
    match index {
        0..=13 => return Fault::NotVault,
        14 | 18 => return Fault::BadHeader,
        15..=17 => return Fault::BadVersion,
        19..=25 => return Fault::BadCipher,
        _ => {}
    }
    let in_body = index - HEADER_LENGTH;
    let digit = in_body - in_body / LINE_LENGTH;
    if in_body % LINE_LENGTH == LINE_LENGTH - 1 || digit >= DIGITS {
        return Fault::BadHex;
    }
    let is_first = digit % 2 == 0;
    let other = if is_first { index + 1 } else { index - 1 };
    let byte = |index: usize| changed.get(index).copied().unwrap_or(0);
    fault_of_digit(digit / 2, is_first, byte(index), byte(other))
}

/// Asserts that the vault is refused if the lowest bit of the byte at this index is changed.
fn assert_flipped(rt: &impl Abort, vault: &Vec<u8>, index: usize) -> Result<(), Fail> {
    let mut changed = vault.clone()?;
    assert!(rt; index < changed.len());
    changed[index] ^= 1;
    let fault = fault_of_changed(changed.as_slice(), index);
    assert_fault(rt, index, changed.as_slice(), Some(fault))
}

#[test]
fn refuses_each_flipped_bit(rt: HostRuntime) -> Result<(), Fail> {
    let vault = vault_of_nothing(rt.alloc())?;
    assert_eq!(rt; fault_of(vault.as_slice())?, None);
    for index in 0..vault.len() {
        assert_flipped(&rt, &vault, index)?;
    }
    Ok(())
}

/// The fault of a vault with a salt of this length.
fn fault_of_salt(alloc: Global, length: usize) -> Result<Option<Fault>, Fail> {
    let salt = vec![in alloc; 7; length]?;
    let vault = spelled(alloc, "default", salt.as_slice(), &[0; 32], b"")?;
    fault_of(vault.as_slice())
}

/// The fault of a vault with a third line feed, at the end of its inner text.
fn fault_of_line_feed(alloc: Global) -> Result<Option<Fault>, Fail> {
    let mut vault = Vec::from_slice(alloc, EMPTY_ENVELOPE)?;
    vault.extend_from_slice(b"0a\n")?;
    fault_of(vault.as_slice())
}

#[test]
fn takes_the_longest_salt(rt: HostRuntime) -> Result<(), Fail> {
    let alloc = rt.alloc();
    let faults = [
        fault_of_salt(alloc, 256)?,
        fault_of_salt(alloc, 257)?,
        fault_of_line_feed(alloc)?,
    ];
    let (fits, payload) = (Some(Fault::NoSecretFits), Some(Fault::BadPayload));
    assert_eq!(rt; faults, [fits, payload, payload]);
    Ok(())
}
