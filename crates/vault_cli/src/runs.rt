//! The whole run of a request.
ghost use Rattle.std.specs.Prelude.{◌≡◌, ◌≢◌, [], length, map};
ghost use Rattle.vault_text.specs.Failures.{IsSaturated};
ghost use Rattle.vault_text.specs.Limits.{IsWorkLength, limit_of};
ghost use Rattle.vault_request.specs.Request.{files_of};
ghost use Rattle.vault_cli.specs.Call.{sink, source};
ghost use Rattle.vault_cli.specs.runs.Writes.{Writes};
ghost use Rattle.vault_cli.specs.runs.Run.{RunsRequest};

mod report_line;
mod secret_list;
mod status;
mod task;

pub use report_line::report;
pub use status::Status;
use task::{Task, task_of};
use vault_core::{Fault, Ready};
use vault_request::Request;
use vault_text::{MemSource, Sink, Source, Stage, TextMemory};

/// Runs a request over the contents of its password files, in order, and a salt for commands that
/// encrypt and have no salt text. The input is read, decrypted and encrypted in `work`, of 16 to
/// `CIPHERTEXT_LIMIT` bytes, so the limit of the plaintext is 16 bytes less; after a refusal the
/// contents of `work` are unspecified. `out` is begun only if the whole output is known to be
/// right. On success `err` is not called, and a failure of `err` changes nothing else.
pub fn run<'r, S: Source, K: Sink, E: Sink>(
    request: &'r Request,
    secret_files: &'r [Vec<u8>],
    salt: &'r [u8],
    work: &mut [u8],
    src: &mut S,
    out: &mut K,
    err: &mut E,
) -> Status
    requires files { length secret_files.now ≡ length (files_of request.now) }
    requires work { IsWorkLength (length work.old) }
    requires out_unbegun { K.stage out.old ≡ Stage.Unbegun }
    requires err_unbegun { E.stage err.old ≡ Stage.Unbegun }
    ensures { let contents = map (λ file. file.items) secret_files.now in
        RunsRequest (limit_of (length work.old)) request.now contents salt.now
        (source S.Source src.old src.new) (sink K.Sink out.old out.new)
        (sink E.Sink err.old err.new) result }
{
    let memory = TextMemory::borrowed(work);
    run_in(request, secret_files, salt, memory, src, out, err)
}

/// Runs a request in memory that has no text yet.
pub(crate) fn run_in<'r, S: Source, K: Sink, E: Sink>(
    request: &'r Request,
    secret_files: &'r [Vec<u8>],
    salt: &'r [u8],
    memory: TextMemory<'r>,
    src: &mut S,
    out: &mut K,
    err: &mut E,
) -> Status
    requires files { length secret_files.now ≡ length (files_of request.now) }
    requires empty { memory.bytes ≡ [] }
    requires room { IsWorkLength memory.limit }
    requires out_unbegun { K.stage out.old ≡ Stage.Unbegun }
    requires err_unbegun { E.stage err.old ≡ Stage.Unbegun }
    ensures { let contents = map (λ file. file.items) secret_files.now in
        RunsRequest (limit_of memory.entry.limit) request.now contents salt.now
        (source S.Source src.old src.new) (sink K.Sink out.old out.new)
        (sink E.Sink err.old err.new) result }
{
    let task = match task_of(request, secret_files, salt) {
        Ok(task) => task,
        Err(fault) => return report(fault, err),
    };
    let ready = match request.string() {
        Some(string) => task.prepare(&mut MemSource::new(string.as_bytes(), usize::MAX), memory),
        None => task.prepare(src, memory),
    };
    write_or_report(ready, out, err)
}

/// Writes the output if it is ready, or reports why it is not, or why it cannot be written.
fn write_or_report<K: Sink, E: Sink>(
    ready: Result<Ready<'_>, Fault>,
    out: &mut K,
    err: &mut E,
) -> Status
    requires out_unbegun { K.stage out.old ≡ Stage.Unbegun }
    requires err_unbegun { E.stage err.old ≡ Stage.Unbegun }
    ensures writes { Writes (sink K.Sink out.old out.new) (sink E.Sink err.old err.new) result
        ready.entry }
    ensures full { IsSaturated (K.failures out.old) → result ≢ Status.Success }
{
    match ready {
        Ok(ready) => match ready.write_to(out) {
            Ok(()) => Status::Success,
            Err(fault) => report(Fault::from(fault), err),
        },
        Err(fault) => report(fault, err),
    }
}
