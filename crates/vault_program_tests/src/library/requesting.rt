//! Runs a request: `encrypt_string`, with files and output in memory.
ghost use Rattle.std.specs.Prelude.{◌≡◌, IfOk, vec_len};

use anyhow::Result;
use std::alloc::Global;
use vault_cli::{MemSink, MemSource, Status, parse, report, run, settle};
use vault_text::{PADDING_LIMIT, PLAINTEXT_LIMIT, Stage};

/// Writes the YAML block of a variable to `out`, or the line that says why there is none to `err`.
/// `salt` has 32 bytes that no other text was encrypted with.
pub fn encrypt_variable(
    alloc: Global,
    name: &str,
    value: &str,
    password_file: &[u8],
    salt: &[u8],
    out: &mut MemSink,
    err: &mut MemSink,
) -> Result<Status>
    requires out_unbegun { out.old.stage ≡ Stage.Unbegun }
    requires err_unbegun { err.old.stage ≡ Stage.Unbegun }
{
    let mut words = Vec::new(alloc);
    for word in [
        "ansible-vault",
        "encrypt_string",
        "--vault-id=dev@password",
        "--name",
        name,
    ] {
        words.push(String::from_str(alloc, word)?)?;
    }
    words.push(String::from_str(alloc, "--")?)?;
    words.push(String::from_str(alloc, value)?)?;
    let matches = parse(alloc, words.as_slice())?;
    let request = match settle(alloc, &matches) {
        Ok(request) => request,
        Err(fault) => return Ok(report(fault, err)),
    };

    let password_files = copies(alloc, password_file, request.files())?;
    let mut work = vec![in alloc; 0; value.len().min(PLAINTEXT_LIMIT) + PADDING_LIMIT]?;
    let mut src = MemSource::new(b"", 4_096);
    Ok(run(
        &request,
        password_files.as_slice(),
        salt,
        work.as_mut_slice(),
        &mut src,
        out,
        err,
    ))
}

/// The contents of this many password files, which are all the same here.
fn copies(alloc: Global, file: &[u8], count: usize) -> Result<Vec<Vec<u8>>>
    ensures { IfOk result (λ copies. vec_len copies ≡ count) }
{
    let mut copies = Vec::new(alloc);
    while copies.len() < count {
        copies.push(Vec::from_slice(alloc, file)?)?;
    }
    Ok(copies)
}
