//! Runs of `encrypt` and `encrypt_string`.
use crate::trial::{Left, Trial};
use std::alloc::{AllocError, Global};
use std::process::Abort;
use std::test::Fail;
use vault_made::{EMPTY_ENVELOPE, block, envelope};
use vault_text::{FailingSource, MemSource};

const ONE: &[&[u8]] = &[b"one\n"];

const ZEROS: &[u8] = &[0; 32];

const ENCRYPT: &[&str] = &["encrypt", "--vault-password-file", "f1"];

const LONGEST_SALT: &str = "aaaaaaaaaaaaaaaaaaaaaaaaaaaaaaaaaaaaaaaaaaaaaaaaaaaaaaaaaaaaaaaa";

/// A run that encrypts, and the layout of its envelope.
struct Case<'a> {
    words: &'a [&'a str],
    /// The salt that was drawn.
    salt: &'a [u8],
    plain: &'a [u8],
    length: usize,
    /// The length of each line, and of the rest after the last line feed.
    lines: &'a [usize],
    /// The start of the envelope.
    prefix: &'a [u8],
}

/// Nothing, plaintexts around a whole block, a label, and salts that are texts.
const CASES: [Case<'static>; 7] = [
    Case {
        words: ENCRYPT,
        salt: ZEROS,
        plain: b"",
        length: 355,
        lines: &[25, 80, 80, 80, 80, 4, 0],
        prefix: b"$ANSIBLE_VAULT;1.1;AES256\n\
            30303030303030303030303030303030303030303030303030303030303030303030303030303030\n\
            3030303030303030303030303030303030303030303030300a",
    },
    Case {
        words: ENCRYPT,
        salt: ZEROS,
        plain: &[b'a'; 15],
        length: 355,
        lines: &[25, 80, 80, 80, 80, 4, 0],
        prefix: b"$ANSIBLE_VAULT;1.1;AES256\n3030",
    },
    Case {
        words: ENCRYPT,
        salt: ZEROS,
        plain: &[b'a'; 16],
        length: 419,
        lines: &[25, 80, 80, 80, 80, 68, 0],
        prefix: b"$ANSIBLE_VAULT;1.1;AES256\n3030",
    },
    Case {
        words: &["encrypt", "--vault-id", "dev@f1"],
        salt: ZEROS,
        plain: &[b'a'; 15],
        length: 359,
        lines: &[29, 80, 80, 80, 80, 4, 0],
        prefix: b"$ANSIBLE_VAULT;1.2;AES256;dev\n3030",
    },
    Case {
        words: &["encrypt", "--vault-password-file", "f1", "--salt", "abc"],
        salt: b"",
        plain: &[b'a'; 48],
        length: 431,
        lines: &[25, 80, 80, 80, 80, 80, 0],
        prefix: b"$ANSIBLE_VAULT;1.1;AES256\n3631363236330a",
    },
    Case {
        words: &["encrypt", "--vault-password-file", "f1", "--salt", "a"],
        salt: b"",
        plain: b"",
        length: 229,
        lines: &[25, 80, 80, 40, 0],
        prefix: b"$ANSIBLE_VAULT;1.1;AES256\n36310a",
    },
    Case {
        words: &[
            "encrypt",
            "--vault-password-file",
            "f1",
            "--salt",
            LONGEST_SALT,
        ],
        salt: b"",
        plain: b"",
        length: 484,
        lines: &[25, 80, 80, 80, 80, 80, 52, 0],
        prefix: b"$ANSIBLE_VAULT;1.1;AES256\n36313631",
    },
];

fn line_lengths(alloc: Global, text: &[u8]) -> Result<Vec<usize>, AllocError> {
    text.split(|byte| *byte == b'\n')
        .map(|line| line.len())
        .collect(alloc)
}

/// Asserts the layout of the envelope, and that it decrypts to the plaintext.
fn assert_encrypts(rt: &impl Abort, alloc: Global, case: &Case<'_>) -> Result<(), Fail> {
    let trial = Trial::new(case.words, ONE, case.salt);
    let ran = trial.run_from(alloc, &mut MemSource::new(case.plain, 4_096))?;
    let left = ran.left()?;
    let vault = left.output;
    assert_eq!(rt; (left, vault.len()), (Left::success(vault), case.length));
    assert_eq!(rt; line_lengths(alloc, vault)?.as_slice(), case.lines);
    assert!(rt; vault.starts_with(case.prefix));
    let decrypt = Trial::new(&["decrypt", "--vault-password-file", "f1"], ONE, b"");
    decrypt.assert_leaves(rt, alloc, vault, Left::success(case.plain))
}

#[test]
fn encrypts(rt: HostRuntime) -> Result<(), Fail> {
    for case in &CASES {
        assert_encrypts(&rt, rt.alloc(), case)?;
    }
    Ok(())
}

#[test]
fn refuses_to_encrypt(rt: HostRuntime) -> Result<(), Fail> {
    let alloc = rt.alloc();
    let line = Left::refused("ERROR! the plaintext is already vault encrypted data\n");
    Trial::new(ENCRYPT, ONE, ZEROS).assert_leaves(&rt, alloc, EMPTY_ENVELOPE, line)?;
    let line = Left::refused("ERROR! the salt has fewer than 32 bytes\n");
    Trial::new(ENCRYPT, ONE, &[0; 31]).assert_leaves(&rt, alloc, b"", line)?;
    let words = ["encrypt_string", "--vault-id", "f1", ""];
    let line = Left::refused("ERROR! the string to encrypt is empty\n");
    Trial::new(&words, ONE, ZEROS).assert_leaves(&rt, alloc, b"text", line)
}

/// Asserts that encrypting a STRING gives a block of this length, this first line, and six indented
/// lines after it. The source is not asked.
fn assert_block<'a>(
    rt: &impl Abort,
    alloc: Global,
    words: &'a [&'a str],
    block: &[u8],
    length: usize,
    first: &[u8],
) -> Result<(), Fail> {
    let ran = Trial::new(words, ONE, ZEROS).run_from(alloc, &mut FailingSource::new(b"", 1, 0))?;
    assert_eq!(rt; ran.left()?, Left::success(block));
    let mut lines = block.split(|byte| *byte == b'\n');
    let first_line = lines.next();
    let indented = lines.filter(|line| line.starts_with(b"          ")).count();
    assert_eq!(rt;
        (block.len(), first_line, indented),
        (length, Some(first), 6)
    );
    Ok(())
}

#[test]
fn writes_a_block(rt: HostRuntime) -> Result<(), Fail> {
    let alloc = rt.alloc();
    let vault = envelope(alloc, "default", b"one", ZEROS, b"secret")?;
    let named = block(alloc, "k", vault.as_slice())?;
    let words = ["encrypt_string", "--vault-id=f1", "--name", "k", "secret"];
    assert_block(&rt, alloc, &words, named.as_slice(), 427, b"k: !vault |")?;
    let unnamed = block(alloc, "", vault.as_slice())?;
    let words = ["encrypt_string", "--vault-id=f1", "secret"];
    assert_block(&rt, alloc, &words, unnamed.as_slice(), 424, b"!vault |")
}
