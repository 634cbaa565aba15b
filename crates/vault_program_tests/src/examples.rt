//! The examples of the crates' first pages, line for line.
use std::test::Fail;
use vault_aes::{Key, ctr_apply};
use vault_cli::{Status, run};
use vault_core::{Form, Secrets, password_of, prepare_encrypt};
use vault_fault::Fault;
use vault_files::{Access, FileOutput, MemFile, MemFiles};
use vault_kdf::{Hmac, Meter, derive, hmac};
use vault_request::{CommandName, parse, settle};
use vault_text::{Label, MemSink, MemSource, Salt, Sink, TAG_LENGTH, put_all, write_envelope};

#[test]
fn of_vault_aes(rt: HostRuntime) {
    let key = Key::new(&[7; 32]);
    let mut bytes = *b"of any length";
    ctr_apply(&key, &[0; 16], &mut bytes);
    assert_ne!(rt; bytes, *b"of any length");
    ctr_apply(&key, &[0; 16], &mut bytes);
    assert_eq!(rt; bytes, *b"of any length");
}

#[test]
fn of_vault_kdf(rt: HostRuntime) {
    let mut meter = Meter::new();
    let keys = derive(b"password", b"salt", &mut meter);
    assert_eq!(rt; meter.count(), 1);
    let mut tag = Hmac::new(&keys.mac);
    tag.update(b"cipher");
    tag.update(b"text");
    assert_eq!(rt; tag.finish(), hmac(&keys.mac, b"ciphertext"));
}

#[test]
fn of_vault_text(rt: HostRuntime) -> Result<(), Fail> {
    let alloc = rt.alloc();
    let salt = Salt::new(&[7; 32]).ok_or("the salt is too long")?;
    let mut sink = MemSink::new(alloc, 4_096);
    sink.begin()?;
    write_envelope(
        &mut sink,
        &Label::default_label(),
        &salt,
        &[0; TAG_LENGTH],
        b"ciphertext",
    )?;
    sink.finish()?;
    assert!(rt; sink.bytes().starts_with(b"$ANSIBLE_VAULT;1.1;AES256\n"));
    Ok(())
}

#[test]
fn of_vault_fault(rt: HostRuntime) {
    assert_eq!(rt; Fault::NoSecretFits.number(), 20);
    assert_eq!(rt; Fault::NoSecretFits.text(), "no secret decrypts this vault");
}

#[test]
fn of_vault_core(rt: HostRuntime) -> Result<(), Fail> {
    let alloc = rt.alloc();
    let mut secrets = Secrets::new();
    secrets.push(Label::new("dev")?, password_of(b"secret\n")?)?;
    let choice = secrets.encrypt_choice(None)?;
    let salt = Salt::new(b"a salt of its own").unwrap();
    let mut work = [0; 64];
    let mut src = MemSource::new(b"plaintext", 4_096);
    let mut sink = MemSink::new(alloc, 4_096);
    let mut meter = Meter::new();
    let form = Form::Envelope;
    prepare_encrypt(
        &mut src, &mut work, &secrets, choice, form, &salt, &mut meter,
    )?
    .write_to(&mut sink)?;
    assert!(rt; sink.bytes().starts_with(b"$ANSIBLE_VAULT;1.2;AES256;dev\n"));
    Ok(())
}

#[test]
fn of_vault_files(rt: HostRuntime) -> Result<(), Fail> {
    let alloc = rt.alloc();
    let entries = [MemFile::whole("one", b"first\n")];
    let mut files = MemFiles::new(alloc, &entries);
    let mut output = FileOutput::new(&mut files, "two", Access::OwnerOnly);
    output.begin()?;
    put_all(&mut output, b"second\n")?;
    output.finish()?;
    assert!(rt; files.content("one") == Some(b"first\n".as_slice()));
    assert!(rt; files.content("two") == Some(b"second\n".as_slice()));
    Ok(())
}

#[test]
fn of_vault_request(rt: HostRuntime) -> Result<(), Fail> {
    let alloc = rt.alloc();
    let mut words = Vec::new(alloc);
    for word in [
        "ansible-vault",
        "view",
        "--vault-id=dev@dev.password",
        "vault.yml",
    ] {
        words.push(String::from_str(alloc, word)?)?;
    }
    let matches = parse(alloc, words.as_slice())?;
    let request = settle(alloc, &matches)?;
    assert_eq!(rt; request.command(), CommandName::View);
    assert_eq!(rt; request.input(), Some("vault.yml"));
    Ok(())
}

#[test]
fn of_vault_cli(rt: HostRuntime) -> Result<(), Fail> {
    let alloc = rt.alloc();
    let mut words = Vec::new(alloc);
    for word in [
        "ansible-vault",
        "encrypt_string",
        "--vault-id=one",
        "--salt=abc",
        "text",
    ] {
        words.push(String::from_str(alloc, word)?)?;
    }
    let matches = parse(alloc, words.as_slice())?;
    let request = settle(alloc, &matches)?;
    let mut secret_files = Vec::new(alloc);
    secret_files.push(Vec::from_slice(alloc, b"password\n")?)?;
    assert_eq!(rt; secret_files.len(), request.files());
    let (secret_files, mut work) = (secret_files.as_slice(), [0; 64]);
    let mut src = MemSource::new(b"", 4_096);
    let mut out = MemSink::new(alloc, 4_096);
    let mut err = MemSink::new(alloc, 4_096);
    let status = run(
        &request,
        secret_files,
        b"",
        &mut work,
        &mut src,
        &mut out,
        &mut err,
    );
    assert_eq!(rt; status, Status::Success);
    assert!(rt; out.bytes().starts_with(b"!vault |\n"));
    Ok(())
}
