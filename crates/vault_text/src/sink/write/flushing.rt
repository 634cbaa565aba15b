//! Flushes of a writer.
ghost use Rattle.std.specs.Io.KnownBytes.{Keeps};

use std::io;
use std::io::Write;

/// Shows that a writer was flushed: only `flush` can make it.
#[derive(Drop)]
pub struct SuccessfulFlush(());

/// Flushes a writer. Trusted: no clause excludes a body that does not flush, or that hides an
/// error.
pub fn flush<W: Write>(writer: &mut W) -> io::Result<SuccessfulFlush>
    ensures { Keeps (W.contents writer.old) (W.contents writer.new) }
{
    writer.flush()?;
    Ok(SuccessfulFlush(()))
}
