//! The first bytes of files.
ghost use Rattle.std.specs.Prelude.{[], ◌∷◌};
ghost use Rattle.vault_files.specs.System.{Opens};

use std::process::Abort;
use vault_files::{FileFault, System, read_prefix};

/// Asserts that what was found at the path is as expected.
fn assert_found(
    rt: &impl Abort,
    path: &str,
    found: Result<&[u8], FileFault>,
    expected: Result<&[u8], FileFault>,
) {
    assert_eq!(rt; (path, found), (path, expected));
}

/// Asserts that reading as much of the file as the buffer takes gives these bytes, or this fault.
pub fn assert_reads<D: System>(
    rt: &impl Abort,
    files: &mut D,
    path: &str,
    buffer: &mut [u8],
    expected: Result<&[u8], FileFault>,
)
    ensures { Opens D.executes files.old (path.now ∷ []) files.new }
{
    match read_prefix(files, path, buffer).and_then(|prefix| prefix.length) {
        Ok(length) => assert_found(rt, path, Ok(&buffer[..length]), expected),
        Err(fault) => assert_found(rt, path, Err(fault), expected),
    }
}
