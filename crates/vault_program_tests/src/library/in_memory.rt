//! The program over files in memory.
ghost use Rattle.std.specs.Prelude.{◌≡◌};

use std::alloc::{AllocError, Global};
use vault_cli::{MemFile, MemFiles, MemSink, MemSource, Status, drive_in_memory};
use vault_text::Stage;

/// Runs `ansible-vault rekey` over files in memory, and returns the vault under the new password.
/// If there is none, the line on `err` says why.
pub fn rekey(
    alloc: Global,
    vault: &[u8],
    old: &[u8],
    new: &[u8],
    salt: &[u8],
    err: &mut MemSink,
) -> Result<Option<Vec<u8>>, AllocError>
    requires { err.old.stage ≡ Stage.Unbegun }
{
    let words = command_line(alloc)?;
    let entries = [
        MemFile::whole("old", old),
        MemFile::whole("new", new),
        MemFile::whole("salt", salt),
        MemFile::whole("vault", vault),
    ];
    let mut files = MemFiles::new(alloc, &entries);
    let mut src = MemSource::new(b"", 4_096);
    let mut out = MemSink::new(alloc, 4_096);
    let status = drive_in_memory(&mut files, alloc, words.as_slice(), &mut src, &mut out, err);
    match (status, files.content("vault")) {
        (Status::Success, Some(rekeyed)) => Ok(Some(Vec::from_slice(alloc, rekeyed)?)),
        _ => Ok(None),
    }
}

/// The words of the command line.
fn command_line(alloc: Global) -> Result<Vec<String>, AllocError> {
    let mut words = Vec::new(alloc);
    for word in [
        "ansible-vault",
        "rekey",
        "--vault-password-file=old",
        "--new-vault-password-file=new",
        "--salt-file=salt",
        "--output=vault",
        "vault",
    ] {
        words.push(String::from_str(alloc, word)?)?;
    }
    Ok(words)
}
