//! `ansible-vault`: `drive` over the arguments, the files of the system and the standard streams.
#![tactic(auto)]

use std::env::Env;
use std::fs::Files;
use std::os::fd::{AsFd, BorrowedFd};
use std::process::ExitCode;
use std::{env, fs, io};
use vault_cli::{Fault, Role, WriteSink, drive, reject_words, report};

/// The arguments. They are pushed one by one, since `collect` goes on if it cannot reserve room
/// for all of them.
fn words(rt: &(impl Env + AllocGlobal)) -> io::Result<Vec<String>> {
    let mut words = Vec::new(rt.alloc());
    for word in env::args(rt)? {
        words.push(word)?;
    }
    Ok(words)
}

/// A directory, which can be neither read nor written.
fn open_directory<F: Files>(files: &F) -> io::Result<F::File> {
    fs::open(files, "/")
        .or_else(|_| fs::open(files, "/proc"))
        .or_else(|_| fs::open(files, "/dev"))
        .or_else(|_| fs::open(files, "."))
}

/// Opens a directory in place of a stream, if that is closed: an open takes the lowest free
/// descriptor.
fn occupy<F: Files>(
    files: &F,
    stream: BorrowedFd<'_>,
    fault: Fault,
) -> Result<Option<F::File>, Fault> {
    if stream.try_clone_to_owned().is_ok() {
        return Ok(None);
    }
    match open_directory(files) {
        Ok(directory) => Ok(Some(directory)),
        Err(_) => Err(fault),
    }
}

/// Occupies descriptors 0 to 2 if they are closed, so that no file opened later is mistaken for a
/// standard stream.
fn occupy_closed_descriptors<F: Files>(
    files: &F,
    stdin: BorrowedFd<'_>,
    stdout: BorrowedFd<'_>,
    stderr: BorrowedFd<'_>,
) -> Result<[Option<F::File>; 3], Fault> {
    Ok([
        occupy(files, stdin, Fault::Read(Role::Input))?,
        occupy(files, stdout, Fault::Write)?,
        occupy(files, stderr, Fault::Write)?,
    ])
}

fn main(rt: HostRuntime) -> ExitCode {
    let (stdin, stdout, stderr) = (rt.stdin(), rt.stdout(), rt.stderr());
    let directories = occupy_closed_descriptors(&rt, stdin.as_fd(), stdout.as_fd(), stderr.as_fd());
    let status = match (&directories, words(&rt)) {
        (Err(fault), _) => report(*fault, &mut WriteSink::new(stderr)),
        (Ok(_), Err(error)) => reject_words(&error, &mut WriteSink::new(stderr)),
        (Ok(_), Ok(words)) => drive(&rt, rt.alloc(), words.as_slice(), stdin, stdout, stderr),
    };
    ExitCode::from(status.code())
}
