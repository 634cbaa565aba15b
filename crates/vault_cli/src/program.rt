//! What the program does with its arguments, its files and its standard streams.
ghost use Rattle.std.specs.Prelude.{◌≡◌, ◌≤◌, [], Ok, Some, length, map};
ghost use Rattle.std.specs.Prelude.{vec_capacity, vec_len};
ghost use Rattle.std.specs.String.{string_bytes};
ghost use Rattle.clap.specs.Words.{fault_of};
ghost use Rattle.vault_text.specs.declared.limits.TheConstants.{CIPHERTEXT_LIMIT, PLAINTEXT_LIMIT};
ghost use Rattle.vault_request.specs.CommandLine.{vault_app};
ghost use Rattle.vault_request.specs.Request.{files_of};
ghost use Rattle.vault_request.specs.Settled.{requested_by};
ghost use Rattle.vault_cli.specs.Access.{output_access};
ghost use Rattle.vault_cli.specs.Call.{sink, source, system};
ghost use Rattle.vault_cli.specs.Drive.{Ends, to_path};
ghost use Rattle.vault_cli.specs.runs.Answer.{input_needed, run_answer};
ghost use Rattle.vault_cli.specs.runs.Run.{RunEnds, RunsRequest};

use crate::explaining::explain;
use crate::loading::load;
use crate::output_access::output_access;
use crate::reserving::{RunMemory, reserve};
use crate::runs::{Status, report, run_in};
use std::alloc::Global;
use vault_core::Fault;
use vault_files::{FileOutput, System};
use vault_request::{Request, parse, settle};
use vault_text::{CIPHERTEXT_LIMIT, Sink, Source, Stage, TextMemory};

/// Runs the whole program: parses the words, the first of which is the program's name, settles the
/// request, reads its password files and its salt file, opens its input file, and runs it. The
/// input is a file or `src`, the output a file or `out`. Help and the version go to `out`, and
/// every message to `err`.
pub fn drive_over<D: System, S: Source, K: Sink, E: Sink>(
    sys: &mut D,
    alloc: Global,
    words: &[String],
    src: &mut S,
    out: &mut K,
    err: &mut E,
) -> Status
    requires out_unbegun { K.stage out.old ≡ Stage.Unbegun }
    requires err_unbegun { E.stage err.old ≡ Stage.Unbegun }
    ensures { let texts = map string_bytes words.now in
        Ends (system D.System sys.old sys.new) (source S.Source src.old src.new)
        (sink K.Sink out.old out.new) (sink E.Sink err.old err.new) result
        (fault_of vault_app texts) (requested_by texts) }
{
    match parse(alloc, words) {
        Ok(matches) => match settle(alloc, &matches) {
            Ok(request) => drive_request(sys, alloc, &request, src, out, err),
            Err(fault) => report(fault, err),
        },
        Err(error) => explain(alloc, words, &error, out, err),
    }
}

/// Runs a request over its files, its input and its output, in memory that is reserved before any
/// file is opened.
fn drive_request<D: System, S: Source, K: Sink, E: Sink>(
    sys: &mut D,
    alloc: Global,
    request: &Request,
    src: &mut S,
    out: &mut K,
    err: &mut E,
) -> Status
    requires out_unbegun { K.stage out.old ≡ Stage.Unbegun }
    requires err_unbegun { E.stage err.old ≡ Stage.Unbegun }
    ensures { Ends (system D.System sys.old sys.new) (source S.Source src.old src.new)
        (sink K.Sink out.old out.new) (sink E.Sink err.old err.new) result []
        (Some (Ok request.now)) }
{
    let mut memory = match reserve(alloc, request) {
        Ok(memory) => memory,
        Err(error) => return report(Fault::from(error), err),
    };
    match load(sys, request, &mut memory.secret_files, &mut memory.salt) {
        Ok(Some(mut reader)) => run_to_output(sys, request, memory, &mut reader, out, err),
        Ok(None) => run_to_output(sys, request, memory, src, out, err),
        Err(fault) => report(fault, err),
    }
}

/// Runs a request. Its output goes to its path, if it names one.
fn run_to_output<D: System, S: Source, K: Sink, E: Sink>(
    sys: &mut D,
    request: &Request,
    memory: RunMemory,
    src: &mut S,
    out: &mut K,
    err: &mut E,
) -> Status
    requires text { CIPHERTEXT_LIMIT ≤ vec_capacity memory.text }
    requires count { vec_len memory.secret_files ≡ length (files_of request.now) }
    requires out_unbegun { K.stage out.old ≡ Stage.Unbegun }
    requires err_unbegun { E.stage err.old ≡ Stage.Unbegun }
    ensures { let request = request.now in
        let contents = map (λ file. file.items) memory.secret_files.items in
        let salt = memory.salt.items in
        RunEnds (source S.Source src.old src.new)
        (to_path (system D.System sys.old sys.new) (sink K.Sink out.old out.new)
        request.output (output_access request.command)) (sink E.Sink err.old err.new) result
        (input_needed PLAINTEXT_LIMIT request contents salt) (run_answer request contents salt) }
{
    match request.output() {
        Some(path) => {
            let mut file = FileOutput::new(sys, path, output_access(request.command()));
            let status = run_reserved(request, memory, src, &mut file, err);
            // Gives back the system, with the output as it was left.
            let _system = file.into_system();
            status
        }
        None => run_reserved(request, memory, src, out, err),
    }
}

/// Runs a request in the reserved memory.
fn run_reserved<S: Source, K: Sink, E: Sink>(
    request: &Request,
    memory: RunMemory,
    src: &mut S,
    out: &mut K,
    err: &mut E,
) -> Status
    requires text { CIPHERTEXT_LIMIT ≤ vec_capacity memory.text }
    requires count { vec_len memory.secret_files ≡ length (files_of request.now) }
    requires out_unbegun { K.stage out.old ≡ Stage.Unbegun }
    requires err_unbegun { E.stage err.old ≡ Stage.Unbegun }
    ensures { let contents = map (λ file. file.items) memory.secret_files.items in
        RunsRequest PLAINTEXT_LIMIT request.now contents memory.salt.items
        (source S.Source src.old src.new) (sink K.Sink out.old out.new)
        (sink E.Sink err.old err.new) result }
{
    let RunMemory {
        mut text,
        secret_files,
        salt,
    } = memory;
    let text = TextMemory::reserved(&mut text, CIPHERTEXT_LIMIT);
    let (secret_files, salt) = (secret_files.as_slice(), salt.as_slice());
    run_in(request, secret_files, salt, text, src, out, err)
}
