//! Runs the programs of docs/library.md.
use super::decrypting::decrypt;
use super::encrypting::encrypt;
use super::in_memory::rekey;
use super::own_files::{OnePassword, decrypt_with};
use super::requesting::encrypt_variable;
use std::alloc::Global;
use std::process::Abort;
use std::test::Fail;
use vault_cli::{Fault, MemSink, Status};
use vault_made::{block, envelope};
use vault_text::Salt;

const SALT: &[u8; 32] = &[7; 32];

const PLAINTEXT: &[u8] = b"key: value\n";

/// Made by Ansible's own tool with the password "one".
const ANSIBLES_VAULT: &str = "$ANSIBLE_VAULT;1.1;AES256
39323730393565303133663735373366363566306235383530626461316362313839356332313937
3236353261666631346639343239306238366136363966340a663830613634666535333961333331
64616438306164303638353032346366663661653836623361313562663164373330316534376230
6232613936613034300a383764356631363433333663343638656463383136346665613064386361
33656635663261386163626232316230396131393064656161373261333966396337
";

const ANSIBLES_PLAINTEXT: &[u8] = b"aaaaaaaaaaaaaaaa";

#[test]
fn decrypts(rt: HostRuntime) -> Result<(), Fail> {
    let plaintext = decrypt(rt.alloc(), ANSIBLES_VAULT.as_bytes(), b"one\n")?;
    assert!(rt; plaintext.as_slice() == ANSIBLES_PLAINTEXT);
    Ok(())
}

#[test]
fn decrypts_nothing_with_another_password(rt: HostRuntime) -> Result<(), Fail> {
    let refused = decrypt(rt.alloc(), ANSIBLES_VAULT.as_bytes(), b"two\n");
    assert!(rt; matches!(refused, Err(Fault::NoSecretFits)));
    Ok(())
}

#[test]
fn encrypts(rt: HostRuntime) -> Result<(), Fail> {
    let alloc = rt.alloc();
    let salt = Salt::new(SALT).ok_or("the salt is too long")?;
    let vault = encrypt(alloc, PLAINTEXT, "dev", b"first\n", &salt)?;
    let wanted = envelope(alloc, "dev", b"first", SALT, PLAINTEXT)?;
    assert!(rt; vault.as_slice() == wanted.as_slice());
    Ok(())
}

/// Asserts how the request for a variable of this value ends, and what it writes.
fn assert_variable(
    rt: &impl Abort,
    alloc: Global,
    value: &str,
    wanted: Status,
    output: &[u8],
    message: &[u8],
) -> Result<(), Fail> {
    let mut out = MemSink::new(alloc, 4_096);
    let mut err = MemSink::new(alloc, 4_096);
    let status = encrypt_variable(alloc, "key", value, b"first\n", SALT, &mut out, &mut err)?;
    assert_eq!(rt;
        (status, out.bytes(), err.bytes()),
        (wanted, output, message)
    );
    Ok(())
}

#[test]
fn encrypts_a_variable(rt: HostRuntime) -> Result<(), Fail> {
    let alloc = rt.alloc();
    let vault = envelope(alloc, "dev", b"first", SALT, b"value")?;
    let block = block(alloc, "key", vault.as_slice())?;
    assert_variable(&rt, alloc, "value", Status::Success, block.as_slice(), b"")
}

#[test]
fn says_why_there_is_no_variable(rt: HostRuntime) -> Result<(), Fail> {
    let message = b"ERROR! the string to encrypt is empty\n";
    assert_variable(&rt, rt.alloc(), "", Status::Refused, b"", message)
}

/// Asserts which vault Ansible's vault becomes under the password "two" if a file contains the old
/// password, and what is reported about it.
fn assert_rekeyed(
    rt: &impl Abort,
    alloc: Global,
    old: &[u8],
    wanted: Option<&[u8]>,
    message: &[u8],
) -> Result<(), Fail> {
    let mut err = MemSink::new(alloc, 4_096);
    let rekeyed = rekey(
        alloc,
        ANSIBLES_VAULT.as_bytes(),
        old,
        b"two\n",
        SALT,
        &mut err,
    )?;
    assert_eq!(rt; (rekeyed.as_deref(), err.bytes()), (wanted, message));
    Ok(())
}

#[test]
fn rekeys(rt: HostRuntime) -> Result<(), Fail> {
    let alloc = rt.alloc();
    let vault = envelope(alloc, "default", b"two", SALT, ANSIBLES_PLAINTEXT)?;
    assert_rekeyed(&rt, alloc, b"one\n", Some(vault.as_slice()), b"")
}

#[test]
fn rekeys_nothing_with_another_password(rt: HostRuntime) -> Result<(), Fail> {
    let message = b"ERROR! no secret decrypts this vault\n";
    assert_rekeyed(&rt, rt.alloc(), b"wrong\n", None, message)
}

#[test]
fn finds_the_password_at_every_path(rt: HostRuntime) -> Result<(), Fail> {
    let alloc = rt.alloc();
    let mut files = OnePassword::new(alloc, b"one\n");
    let mut err = MemSink::new(alloc, 4_096);
    let status = decrypt_with(alloc, &mut files, ANSIBLES_VAULT.as_bytes(), &mut err)?;
    let wanted = (Status::Success, ANSIBLES_PLAINTEXT, b"".as_slice());
    assert_eq!(rt; (status, files.output(), err.bytes()), wanted);
    Ok(())
}
