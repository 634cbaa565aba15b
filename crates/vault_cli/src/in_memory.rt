//! The program over files in memory.
ghost use Rattle.std.specs.Prelude.{◌≡◌, None, false, map};
ghost use Rattle.std.specs.String.{string_bytes};
ghost use Rattle.clap.specs.Words.{fault_of};
ghost use Rattle.vault_request.specs.CommandLine.{vault_app};
ghost use Rattle.vault_request.specs.Settled.{requested_by};
ghost use Rattle.vault_cli.specs.Call.{sink, source, system};
ghost use Rattle.vault_cli.specs.InMemory.{EndsInMemory};

use crate::program::drive_over;
use crate::runs::Status;
use std::alloc::Global;
use vault_files::{MemFiles, System};
use vault_text::{MemSink, MemSource, Sink, Source, Stage};

/// Runs the whole program, like `drive_over`, over files, an input and sinks in memory. It finds
/// the files at the paths of its arguments, so that arguments, files and input determine its
/// answer. `MemFiles::content` and `MemSink::bytes` return the contents afterwards, and
/// `MemFiles::log` the paths that were opened, if `keep_log` has begun a log.
pub fn drive_in_memory<'f, 's>(
    files: &mut MemFiles<'f>,
    alloc: Global,
    words: &[String],
    src: &mut MemSource<'s>,
    out: &mut MemSink,
    err: &mut MemSink,
) -> Status
    requires none_created { files.old.created ≡ None }
    requires src_not_ended { src.old.ended ≡ false }
    requires out_unbegun { out.old.stage ≡ Stage.Unbegun }
    requires err_unbegun { err.old.stage ≡ Stage.Unbegun }
    ensures { let texts = map string_bytes words.now in
        EndsInMemory (system ⟦<MemFiles<'f> as System>⟧ files.old files.new)
        (source ⟦<MemSource<'s> as Source>⟧ src.old src.new)
        (sink ⟦<MemSink as Sink>⟧ out.old out.new) (sink ⟦<MemSink as Sink>⟧ err.old err.new)
        result (fault_of vault_app texts) (requested_by texts) }
{
    drive_over(files, alloc, words, src, out, err)
}
