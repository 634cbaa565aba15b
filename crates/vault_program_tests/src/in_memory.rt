//! Whole runs over files in memory, and the files at their paths afterwards.
use std::alloc::Global;
use std::process::Abort;
use std::test::Fail;
use vault_cli::{MemFile, MemFiles, MemSink, MemSource, Status, drive_in_memory};
use vault_core_tests::line_of;
use vault_files::PATH_LIMIT;
use vault_made::envelope;

const PLAINTEXT: &[u8] = b"key: value\n";

const SALT: &[u8] = &[7; 32];

/// How a run ends, and whether it prints anything.
#[derive(Clone, Copy)]
struct End<'a> {
    status: Status,
    message: &'a str,
    prints: bool,
}

/// Runs the program on these words after its name, over these files and this input. Asserts how the
/// run ends, and what is at these paths afterwards.
fn assert_leaves<'a>(
    rt: &impl Abort,
    alloc: Global,
    entries: &'a [MemFile<'a>],
    words: &[&str],
    input: &[u8],
    end: End<'_>,
    wanted: &[(&str, Option<&[u8]>)],
) -> Result<(), Fail> {
    let line = line_of(alloc, words)?;
    let mut files = MemFiles::new(alloc, entries);
    let mut src = MemSource::new(input, 4_096);
    let mut out = MemSink::new(alloc, 4_096);
    let mut err = MemSink::new(alloc, 4_096);
    let line = line.as_slice();
    let status = drive_in_memory(&mut files, alloc, line, &mut src, &mut out, &mut err);
    let left = (status, err.bytes(), !out.bytes().is_empty());
    assert_eq!(rt; left, (end.status, end.message.as_bytes(), end.prints));
    assert_has(rt, &files, wanted);
    Ok(())
}

/// Asserts that each of these paths has a file with the bytes beside it, or none.
fn assert_has(rt: &impl Abort, files: &MemFiles, wanted: &[(&str, Option<&[u8]>)]) {
    for &(path, bytes) in wanted {
        assert!(rt; files.content(path) == bytes, "{path}");
    }
}

const SUCCESS: End<'static> = End {
    status: Status::Success,
    message: "",
    prints: false,
};

/// An envelope under the password "first".
fn vault_of_first(alloc: Global) -> Result<Vec<u8>, Fail> {
    Ok(envelope(alloc, "default", b"first", SALT, PLAINTEXT)?)
}

#[test]
fn writes_to_the_path_of_the_output(rt: HostRuntime) -> Result<(), Fail> {
    let alloc = rt.alloc();
    let vault = vault_of_first(alloc)?;
    let entries = [
        MemFile::whole("one", b"first\n"),
        MemFile::whole("kept", b"text"),
    ];
    let words = [
        "decrypt",
        "--vault-password-file",
        "one",
        "--output",
        "plain",
    ];
    let wanted: [(&str, Option<&[u8]>); 3] = [
        ("plain", Some(PLAINTEXT)),
        ("one", Some(b"first\n")),
        ("kept", Some(b"text")),
    ];
    assert_leaves(
        &rt,
        alloc,
        &entries,
        &words,
        vault.as_slice(),
        SUCCESS,
        &wanted,
    )
}

#[test]
fn rekeys_a_file_in_its_place(rt: HostRuntime) -> Result<(), Fail> {
    let alloc = rt.alloc();
    let vault = vault_of_first(alloc)?;
    let rekeyed = envelope(alloc, "default", b"second", SALT, PLAINTEXT)?;
    let entries = [
        MemFile::whole("one", b"first\n"),
        MemFile::whole("two", b"second\n"),
        MemFile::whole("salt", SALT),
        MemFile::whole("secrets.yml", vault.as_slice()),
    ];
    let words = [
        "rekey",
        "--vault-password-file",
        "one",
        "--new-vault-password-file",
        "two",
        "--salt-file",
        "salt",
        "--output",
        "secrets.yml",
        "secrets.yml",
    ];
    let wanted = [
        ("secrets.yml", Some(rekeyed.as_slice())),
        ("salt", Some(SALT)),
    ];
    assert_leaves(&rt, alloc, &entries, &words, b"", SUCCESS, &wanted)
}

#[test]
fn creates_no_file_on_a_refusal(rt: HostRuntime) -> Result<(), Fail> {
    let alloc = rt.alloc();
    let vault = vault_of_first(alloc)?;
    let entries = [MemFile::whole("two", b"second\n")];
    let words = ["decrypt", "--vault-id", "two", "--output", "plain"];
    let refused = End {
        status: Status::Refused,
        message: "ERROR! no secret decrypts this vault\n",
        prints: false,
    };
    let wanted: [(&str, Option<&[u8]>); 2] = [("plain", None), ("two", Some(b"second\n"))];
    assert_leaves(
        &rt,
        alloc,
        &entries,
        &words,
        vault.as_slice(),
        refused,
        &wanted,
    )
}

/// A file cannot be created at a path that is too long.
#[test]
fn fails_where_no_file_can_be_created(rt: HostRuntime) -> Result<(), Fail> {
    let alloc = rt.alloc();
    let vault = vault_of_first(alloc)?;
    let entries = [MemFile::whole("one", b"first\n")];
    let mut path = String::new(alloc);
    for _ in 0..=PATH_LIMIT {
        path.push('x')?;
    }
    let words = [
        "decrypt",
        "--vault-password-file",
        "one",
        "--output",
        path.as_str(),
    ];
    let failed = End {
        status: Status::DeviceFailed,
        message: "ERROR! the output cannot be written\n",
        prints: false,
    };
    let wanted: [(&str, Option<&[u8]>); 1] = [(path.as_str(), None)];
    assert_leaves(
        &rt,
        alloc,
        &entries,
        &words,
        vault.as_slice(),
        failed,
        &wanted,
    )
}

#[test]
fn helps_without_a_file(rt: HostRuntime) -> Result<(), Fail> {
    let entries = [MemFile::whole("one", b"first\n")];
    let words = ["rekey", "--help", "--output", "one"];
    let helped = End {
        prints: true,
        ..SUCCESS
    };
    let wanted: [(&str, Option<&[u8]>); 1] = [("one", Some(b"first\n"))];
    assert_leaves(&rt, rt.alloc(), &entries, &words, b"", helped, &wanted)
}
