//! Runs of the program over files of the system.
use std::test::Fail;
use vault_cli::{Status, drive};
use vault_core_tests::{CountingReader, line_of};
use vault_made::envelope;

const PLAINTEXT: &[u8] = b"key: value\n";

/// A file on every Linux system, which contains "Linux" and a line end.
const PASSWORD_FILE: &str = "/proc/sys/kernel/ostype";

/// The words, whether the vault on standard input is read, and the status, output and message.
type Case<'a> = (&'a [&'a str], bool, Status, &'a [u8], &'a [u8]);

const CASES: [Case<'static>; 7] = [
    (
        &["view", "--vault-id", PASSWORD_FILE],
        true,
        Status::Success,
        PLAINTEXT,
        b"",
    ),
    (
        &[
            "decrypt",
            "--vault-id",
            PASSWORD_FILE,
            "--output",
            "/dev/null",
        ],
        true,
        Status::Success,
        b"",
        b"",
    ),
    (
        &[
            "decrypt",
            "--vault-id",
            PASSWORD_FILE,
            "--output",
            "/dev/full",
        ],
        true,
        Status::DeviceFailed,
        b"",
        b"ERROR! the output cannot be written\n",
    ),
    (
        &["view", "--vault-id", "/dev/zero"],
        false,
        Status::Refused,
        b"",
        b"ERROR! a password file is longer than 4096 bytes\n",
    ),
    (
        &["view", "--vault-id", "/"],
        false,
        Status::DeviceFailed,
        b"",
        b"ERROR! a password file cannot be read\n",
    ),
    (
        &["view", "--vault-password-file", ""],
        false,
        Status::DeviceFailed,
        b"",
        b"ERROR! a password file cannot be opened\n",
    ),
    (
        &["view", "/dev/null"],
        false,
        Status::Refused,
        b"",
        b"ERROR! input is not vault encrypted data\n",
    ),
];

#[test]
fn ends_with_the_answer(rt: HostRuntime) -> Result<(), Fail> {
    let alloc = rt.alloc();
    let vault = envelope(alloc, "default", b"Linux", &[7; 32], PLAINTEXT)?;
    let vault = vault.as_slice();
    for (words, is_read, status, output, message) in CASES {
        let line = line_of(alloc, words)?;
        let mut stdin = CountingReader::new(vault, 4_096);
        let (mut out, mut err) = (Vec::new(alloc), Vec::new(alloc));
        let ended = drive(&rt, alloc, line.as_slice(), &mut stdin, &mut out, &mut err);
        let left = (ended, out.as_slice(), err.as_slice(), stdin.given);
        let read = if is_read { vault.len() } else { 0 };
        assert_eq!(rt; left, (status, output, message, read), "{words:?}");
    }
    Ok(())
}
