//! The label of an envelope as a hint and as binding: which secrets are tried, and how many times
//! keys are derived for that.
use std::alloc::Global;
use std::test::Fail;
use vault_core::{Fault, LabelRule, Secrets, password_of, prepare_decrypt};
use vault_kdf::Meter;
use vault_made::envelope;
use vault_text::{Label, MemSink, MemSource};

/// Labels, and the contents of the password files.
type Files<'a> = &'a [(&'a str, &'a [u8])];

const A_AND_B: Files<'static> = &[("a", b"one\n"), ("b", b"two\n")];

/// HMAC fills a short key with zero bytes, so the two passwords give the same keys.
const ZERO_BYTE: Files<'static> = &[("a", b"abc"), ("b", b"abc\0")];

const NONE_FITS: Result<usize, Fault> = Err(Fault::NoSecretFits);

/// The position of the secret that opens the vault, counted from 1 in the tried order, or the
/// fault; and how many times keys were derived. Fails if the plaintext is not `text`.
fn decrypted(
    alloc: Global,
    vault: &[u8],
    files: Files<'_>,
    rule: LabelRule,
) -> Result<(Result<usize, Fault>, u64), Fail> {
    let mut secrets = Secrets::new();
    for (label, file) in files {
        secrets.push(Label::new(label)?, password_of(file)?)?;
    }
    secrets.set_rule(rule);
    let mut work = [0; 1_024];
    let mut src = MemSource::new(vault, 4_096);
    let mut meter = Meter::new();
    let ready = match prepare_decrypt(&mut src, &mut work, &secrets, &mut meter) {
        Ok(ready) => ready,
        Err(fault) => return Ok((Err(fault), meter.count())),
    };
    let tried = ready.tried();
    let mut sink = MemSink::new(alloc, 4_096);
    ready.write_to(&mut sink)?;
    if sink.bytes() != b"text".as_slice() {
        return Err(Fail::from("another plaintext"));
    }
    Ok((Ok(tried), meter.count()))
}

#[test]
fn decide_which_secrets_are_tried(rt: HostRuntime) -> Result<(), Fail> {
    let (hint, required) = (LabelRule::Hint, LabelRule::Required);
    let cases: [(&str, &[u8], Files, LabelRule, Result<usize, Fault>, u64); 12] = [
        ("b", b"two", A_AND_B, hint, Ok(1), 1),
        ("a", b"two", A_AND_B, hint, Ok(2), 2),
        ("a", b"two", A_AND_B, required, NONE_FITS, 1),
        ("b", b"two", A_AND_B, required, Ok(1), 1),
        ("c", b"one", A_AND_B, hint, Ok(1), 1),
        ("c", b"one", A_AND_B, required, NONE_FITS, 0),
        (
            "default",
            b"one",
            &[("default", b"one\n")],
            required,
            Ok(1),
            1,
        ),
        (
            "default",
            b"one",
            &[("x", b"one\n")],
            required,
            NONE_FITS,
            0,
        ),
        // Labels are case-sensitive.
        ("A", b"one", &[("a", b"one\n")], hint, Ok(1), 1),
        ("A", b"one", &[("a", b"one\n")], required, NONE_FITS, 0),
        ("a", b"abc", ZERO_BYTE, hint, Ok(1), 1),
        ("a", b"abc\0", ZERO_BYTE, hint, Ok(1), 1),
    ];
    let alloc = rt.alloc();
    for (label, password, files, rule, answer, derived) in cases {
        let vault = envelope(alloc, label, password, &[7; 32], b"text")?;
        let found = decrypted(alloc, vault.as_slice(), files, rule)?;
        assert_eq!(rt; found, (answer, derived), "{label}");
    }
    Ok(())
}
