//! Lists of secrets, and passwords.
use std::process::Abort;
use std::test::Fail;
use vault_core::{Fault, ListFault, SecretFault, Secrets, password_of};
use vault_text::Label;

/// Asserts that the secret at this index is chosen to encrypt with, or the choice has this fault.
fn assert_choice(
    rt: &impl Abort,
    secrets: &Secrets,
    label: Option<&Label>,
    expected: Result<usize, Fault>,
) {
    let choice = secrets.encrypt_choice(label).map_err(Fault::from);
    assert_eq!(rt; choice, expected);
}

#[test]
fn lists_and_choices(rt: HostRuntime) -> Result<(), Fail> {
    let unknown = Label::new("x")?;
    let known = Label::new("b")?;
    let none = Secrets::new();
    assert_choice(&rt, &none, None, Err(Fault::NoEncryptSecret));
    let mut two = Secrets::new();
    two.push(Label::new("a")?, b"one")?;
    two.push(Label::new("b")?, b"two")?;
    assert_choice(&rt, &two, None, Err(Fault::ManyEncryptSecrets));
    assert_choice(&rt, &two, Some(&unknown), Err(Fault::UnknownEncryptId));
    assert_choice(&rt, &two, Some(&known), Ok(1));

    let mut full = Secrets::new();
    for _ in 0..16 {
        full.push(Label::default_label(), b"one")?;
    }
    let refused = full.push(Label::default_label(), b"one");
    assert_eq!(rt; (refused, full.len()), (Err(ListFault::TooManySecrets), 16));
    Ok(())
}

/// Asserts that the file gives this password, or has this fault.
fn assert_password(rt: &impl Abort, file: &[u8], expected: Result<&[u8], SecretFault>) {
    assert_eq!(rt; password_of(file), expected);
}

#[test]
fn password_files(rt: HostRuntime) {
    assert_password(&rt, b" pw \r\n", Ok(b"pw"));
    assert_password(&rt, b" \n", Err(SecretFault::SecretEmpty));
    assert_password(&rt, b"#!/bin/sh", Err(SecretFault::SecretIsScript));
    let header_line = b"$ANSIBLE_VAULT;1.1;AES256";
    assert_password(&rt, header_line, Err(SecretFault::SecretIsVault));
    assert_password(&rt, &[b'a'; 4097], Err(SecretFault::SecretTooLong));
}

#[test]
fn faults_by_number_and_text(rt: HostRuntime) {
    let fault = Fault::from(ListFault::TooManySecrets);
    let (number, text) = (14, "more than 16 secrets were given");
    assert_eq!(rt; (fault.number(), fault.text()), (number, text));
}
