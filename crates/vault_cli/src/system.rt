//! The program over the files of the system.
ghost use Rattle.std.specs.Prelude.{◌≡◌, [], map};
ghost use Rattle.std.specs.String.{string_bytes};
ghost use Rattle.clap.specs.Words.{fault_of};
ghost use Rattle.vault_text.specs.Recorded.{Recorded};
ghost use Rattle.vault_text.specs.Sink.{SinkState, new_sink};
ghost use Rattle.vault_text.specs.Source.{SourceState, new_source};
ghost use Rattle.vault_files.specs.HostCall.{HostCalls};
ghost use Rattle.vault_request.specs.CommandLine.{vault_app};
ghost use Rattle.vault_request.specs.Settled.{requested_by};
ghost use Rattle.vault_cli.specs.Call.{sink, source, system};
ghost use Rattle.vault_cli.specs.Drive.{Ends};

use crate::program::drive_over;
use crate::runs::Status;
use std::alloc::Global;
use std::fs::Files;
use std::io::{Read, Write};
use vault_files::{HostFiles, System};
use vault_text::{ReadSource, Sink, Source, Stage, WriteSink};

/// Runs the whole program, like `drive_over`, over the files of the system. `host` records each
/// call of the standard library on them, so these calls are the ones that `drive_over` makes. A
/// `ReadSource` and a `WriteSink` record the bytes that they give and take, whatever their reader
/// or writer.
pub fn drive_host<'a, F: Files, S: Source, K: Sink, E: Sink>(
    host: &mut HostFiles<'a, F>,
    alloc: Global,
    words: &[String],
    src: &mut S,
    out: &mut K,
    err: &mut E,
) -> Status
    requires out_unbegun { K.stage out.old ≡ Stage.Unbegun }
    requires err_unbegun { E.stage err.old ≡ Stage.Unbegun }
    ensures { let texts = map string_bytes words.now in
        Ends (system ⟦<HostFiles<'a, F> as System>⟧ host.old host.new)
        (source S.Source src.old src.new) (sink K.Sink out.old out.new)
        (sink E.Sink err.old err.new) result (fault_of vault_app texts) (requested_by texts) }
{
    drive_over(host, alloc, words, src, out, err)
}

/// Runs the whole program, like `drive_host`, over any reader and two writers. The call consumes
/// these, so its clause cannot name what they and the record are afterwards: it says that there are
/// some with which `drive_host` may return this status.
pub fn drive<'a, F: Files, R: Read + Drop, O: Write + Drop, E: Write + Drop>(
    rt: &'a F,
    alloc: Global,
    words: &[String],
    stdin: R,
    stdout: O,
    stderr: E,
) -> Status
    ensures { let texts = map string_bytes words.now in
        (host : HostCalls) × (src : Recorded SourceState) × (out err : Recorded SinkState)
        × Ends (system ⟦<HostFiles<'a, F> as System>⟧ [] host)
        (source ⟦<ReadSource<R> as Source>⟧ (new_source (R.remaining stdin)) src)
        (sink ⟦<WriteSink<O> as Sink>⟧ (new_sink (O.contents stdout)) out)
        (sink ⟦<WriteSink<E> as Sink>⟧ (new_sink (E.contents stderr)) err) result
        (fault_of vault_app texts) (requested_by texts) }
{
    let mut host = HostFiles::new(rt);
    let mut src = ReadSource::new(stdin);
    let mut out = WriteSink::new(stdout);
    let mut err = WriteSink::new(stderr);
    drive_host(&mut host, alloc, words, &mut src, &mut out, &mut err)
}
