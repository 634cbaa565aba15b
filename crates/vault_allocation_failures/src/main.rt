//! One run of a command line over memory, for a test that refuses each allocation in turn. The
//! arguments `drive WORD..` run it by `drive_in_memory`, and `run WORD..` by `run`. The password
//! files are `one` and `two`; standard input, of at most 4,096 bytes, is the input. Prints the
//! status, how many bytes the output, the message and the file `kept` have, whether the call was
//! made, and these bytes.
#![tactic(auto)]

ghost use Rattle.std.specs.Prelude.{◌≡◌, IfOk, length, vec_len};
ghost use Rattle.vault_request.specs.Request.{files_of};

use std::alloc::{AllocError, Global};
use std::io::{ErrorKind, Write};
use std::{env, io};
use vault_cli::{
    Fault, MemFile, MemFiles, MemSink, MemSource, ReadSource, Request, Status, drive_in_memory,
    parse, report, run, settle,
};
use vault_text::{Stage, fill_up};

const INPUT_LIMIT: usize = 4_096;

fn usage() -> io::Error {
    io::Error::new(
        ErrorKind::InvalidInput,
        "usage: vault_allocation_failures drive|run WORD..",
    )
}

/// The contents of the password files of a request.
fn contents_of(
    alloc: Global,
    files: &MemFiles<'_>,
    request: &Request,
) -> Result<Vec<Vec<u8>>, AllocError> {
    let mut contents = Vec::new(alloc);
    for i in 0..request.files() {
        let content = files.content(request.path(i)).unwrap_or(&[]);
        contents.push(Vec::from_slice(alloc, content)?)?;
    }
    Ok(contents)
}

/// The request of correct words, the contents of its password files, and a slice to work in; if
/// there is no slice, the answer is out of memory.
fn load(
    alloc: Global,
    files: &MemFiles<'_>,
    words: &[String],
) -> Result<(Request, Vec<Vec<u8>>, Vec<u8>), Fault>
    ensures files { IfOk result (λ found. vec_len found.1 ≡ length (files_of found.0)) }
    ensures work { IfOk result (λ found. vec_len found.2 ≡ INPUT_LIMIT) }
{
    let Ok(matches) = parse(alloc, words) else {
        return Err(Fault::Memory);
    };
    let request = settle(alloc, &matches)?;
    let contents = contents_of(alloc, files, &request)?;
    let work = Vec::from_slice(alloc, &[0; INPUT_LIMIT])?;
    if contents.len() != request.files() {
        return Err(Fault::Memory);
    }
    Ok((request, contents, work))
}

/// Runs the request of these words, with a salt of zeros. Returns the status, and whether `run` was
/// called.
fn run_words(
    alloc: Global,
    files: &MemFiles<'_>,
    words: &[String],
    src: &mut MemSource<'_>,
    out: &mut MemSink,
    err: &mut MemSink,
) -> (Status, bool)
    requires out_unbegun { out.old.stage ≡ Stage.Unbegun }
    requires err_unbegun { err.old.stage ≡ Stage.Unbegun }
{
    match load(alloc, files, words) {
        Ok((request, contents, mut work)) => {
            let contents = contents.as_slice();
            let work = work.as_mut_slice();
            let status = run(&request, contents, &[0; 32], work, src, out, err);
            (status, true)
        }
        Err(fault) => (report(fault, err), false),
    }
}

/// Prints what a run left: its status, output, message and the file `kept`, and whether its call
/// was made.
fn print(
    rt: &HostRuntime,
    status: Status,
    called: bool,
    output: &[u8],
    message: &[u8],
    kept: &[u8],
) -> io::Result<()> {
    let (output_length, message_length) = (output.len(), message.len());
    println!(rt;
        "{} {output_length} {message_length} {} {}",
        status.code(),
        kept.len(),
        u8::from(called)
    )?;
    let mut stdout = rt.stdout();
    stdout.write_all(output)?;
    stdout.write_all(message)?;
    stdout.write_all(kept)?;
    stdout.flush()
}

/// Runs the words, the first of which names the call, over this input.
fn answer(rt: &HostRuntime, words: &[String], input: &[u8]) -> io::Result<()> {
    let alloc = rt.alloc();
    let entries = [
        MemFile::whole("one", b"one\n"),
        MemFile::whole("two", b"two\n"),
        MemFile::whole("salt", &[0; 32]),
        MemFile::whole("kept", b"kept\n"),
    ];
    let mut files = MemFiles::new(alloc, &entries);
    let mut src = MemSource::new(input, INPUT_LIMIT);
    // One byte per call, so that the sinks of a short run grow often.
    let mut out = MemSink::new(alloc, 1);
    let mut err = MemSink::new(alloc, 1);
    let (status, called) = match words {
        [call, ..] if call.as_str() == "drive" => {
            let status = drive_in_memory(&mut files, alloc, words, &mut src, &mut out, &mut err);
            (status, true)
        }
        _ => run_words(alloc, &files, words, &mut src, &mut out, &mut err),
    };
    let kept = files.content("kept").unwrap_or(&[]);
    print(rt, status, called, out.bytes(), err.bytes(), kept)
}

/// The arguments. They are pushed one by one, since `collect` goes on if it cannot reserve room
/// for all of them.
fn arguments(rt: &HostRuntime) -> io::Result<Vec<String>> {
    let mut arguments = Vec::new(rt.alloc());
    for argument in env::args(rt)? {
        arguments.push(argument)?;
    }
    Ok(arguments)
}

fn main(rt: HostRuntime) -> io::Result<()> {
    let words = arguments(&rt)?;
    let [_, words @ ..] = words.as_slice() else {
        return Err(usage());
    };
    let mut input = [0; INPUT_LIMIT];
    match fill_up(&mut ReadSource::new(rt.stdin()), &mut input) {
        Ok(n) => answer(&rt, words, &input[..n]),
        Err(_) => Err(usage()),
    }
}
