//! Runs of `rekey`.
use crate::trial::{Left, Trial};
use std::test::Fail;
use vault_made::envelope;

/// The start of a vault with the label `prod` and a salt that begins with 20 bytes 01.
const REKEYED: &[u8] = b"$ANSIBLE_VAULT;1.2;AES256;prod\n\
    30313031303130313031303130313031303130313031303130313031303130313031303130313031\n";

const REKEY: &[&str] = &[
    "rekey",
    "--vault-password-file",
    "f1",
    "--new-vault-id",
    "prod@f2",
];

const REKEY_REQUIRED: &[&str] = &[
    "rekey",
    "--vault-password-file",
    "f1",
    "--new-vault-id",
    "prod@f2",
    "--require-id-match",
];

/// The old secret has the label of the vault, so it is tried even if the label is required.
#[test]
fn rekeys(rt: HostRuntime) -> Result<(), Fail> {
    let alloc = rt.alloc();
    let vault = envelope(alloc, "default", b"one", &[0; 32], b"")?;
    let rekeyed = envelope(alloc, "prod", b"two", &[1; 32], b"")?;
    assert!(rt; rekeyed.as_slice().starts_with(REKEYED));
    for words in [REKEY, REKEY_REQUIRED] {
        let trial = Trial::new(words, &[b"one\n", b"two\n"], &[1; 32]);
        let left = Left::success(rekeyed.as_slice());
        trial.assert_leaves(&rt, alloc, vault.as_slice(), left)?;
    }
    Ok(())
}

/// Only the new secret decrypts the new vault. The new secret of another `rekey` is not tried.
#[test]
fn opens_only_with_the_new_secret(rt: HostRuntime) -> Result<(), Fail> {
    let vault = envelope(rt.alloc(), "prod", b"two", &[1; 32], b"")?;
    let nothing = Left::success(b"");
    let refused = Left::refused("ERROR! no secret decrypts this vault\n");
    let cases: [(&[&str], &[&[u8]], Left); 5] = [
        (&["decrypt", "--vault-id", "f2"], &[b"two\n"], nothing),
        (&["decrypt", "--vault-id", "f1"], &[b"one\n"], refused),
        (&["rekey", "--new-vault-id", "x@f2"], &[b"two\n"], refused),
        (
            &["decrypt", "--vault-id=prod@f2", "--require-id-match"],
            &[b"two\n"],
            nothing,
        ),
        (
            &["decrypt", "--vault-id=f2", "--require-id-match"],
            &[b"two\n"],
            refused,
        ),
    ];
    for (words, files, left) in cases {
        let trial = Trial::new(words, files, &[1; 32]);
        trial.assert_leaves(&rt, rt.alloc(), vault.as_slice(), left)?;
    }
    Ok(())
}
