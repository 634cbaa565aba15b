//! Runs of one request, and what they leave.
ghost use Rattle.std.specs.Prelude.{◌≡◌, IfOk, vec_len};

use std::alloc::{AllocError, Global};
use std::process::Abort;
use std::test::Fail;
use vault_cli::{MemSink, MemSource, Status, parse, run, settle};
use vault_core_tests::line_of;
use vault_text::{CIPHERTEXT_LIMIT, PADDING_LIMIT, Sink, Source, Stage};

/// A request, and what it is run on besides its input.
#[derive(Clone, Copy)]
pub struct Trial<'a> {
    pub words: &'a [&'a str],
    /// The contents of its password files.
    secret_files: &'a [&'a [u8]],
    salt: &'a [u8],
    work_length: usize,
}

impl<'a> Trial<'a> {
    /// The request of the words after the program's name, in memory for 64 KiB of plaintext.
    pub const fn new(words: &'a [&'a str], secret_files: &'a [&'a [u8]], salt: &'a [u8]) -> Self {
        Trial {
            words,
            secret_files,
            salt,
            work_length: 65_536 + PADDING_LIMIT,
        }
    }

    /// The same request, in as much memory as the limits need.
    pub fn at_the_limit(self) -> Self {
        Trial {
            work_length: CIPHERTEXT_LIMIT,
            ..self
        }
    }

    /// Runs the request between a source and two sinks.
    pub fn run_between<S: Source, K: Sink, E: Sink>(
        &self,
        alloc: Global,
        src: &mut S,
        out: &mut K,
        err: &mut E,
    ) -> Result<Status, Fail>
        requires out_unbegun { K.stage out.old ≡ Stage.Unbegun }
        requires err_unbegun { E.stage err.old ≡ Stage.Unbegun }
    {
        let line = line_of(alloc, self.words)?;
        let matches = parse(alloc, line.as_slice())?;
        let request = settle(alloc, &matches)?;
        let contents = self.contents(alloc)?;
        if contents.len() != request.files() {
            return Err(Fail::from("the request has another number of password files"));
        }
        if self.work_length < PADDING_LIMIT || self.work_length > CIPHERTEXT_LIMIT {
            return Err(Fail::from("the memory is outside the limits"));
        }
        let mut work = zeros(alloc, self.work_length)?;
        let (contents, work) = (contents.as_slice(), work.as_mut_slice());
        Ok(run(&request, contents, self.salt, work, src, out, err))
    }

    fn contents(&self, alloc: Global) -> Result<Vec<Vec<u8>>, Fail> {
        let mut contents = Vec::new(alloc);
        for file in self.secret_files {
            contents.push(Vec::from_slice(alloc, file)?)?;
        }
        Ok(contents)
    }

    /// Runs the request on the bytes that the source gives.
    pub fn run_from<S: Source>(&self, alloc: Global, src: &mut S) -> Result<Ran, Fail> {
        let mut out = MemSink::new(alloc, 4_096);
        let mut err = MemSink::new(alloc, 4_096);
        let status = self.run_between(alloc, src, &mut out, &mut err)?;
        Ok(Ran { status, out, err })
    }

    /// Runs the request on these bytes, and asserts what that leaves.
    pub fn assert_leaves(
        &self,
        rt: &impl Abort,
        alloc: Global,
        input: &[u8],
        expected: Left<'_>,
    ) -> Result<(), Fail> {
        let ran = self.run_from(alloc, &mut MemSource::new(input, 4_096))?;
        assert_eq!(rt; ran.left()?, expected, "{:?}", self.words);
        Ok(())
    }
}

fn zeros(alloc: Global, length: usize) -> Result<Vec<u8>, AllocError>
    ensures { IfOk result (λ work. vec_len work ≡ length) }
{
    vec![in alloc; 0u8; length]
}

/// A run that ended: its status and its sinks.
#[derive(Drop)]
pub struct Ran {
    status: Status,
    out: MemSink,
    err: MemSink,
}

impl Ran {
    /// All that the run left; fails if its message is not UTF-8.
    pub fn left(&self) -> Result<Left<'_>, Fail> {
        Ok(Left {
            status: self.status,
            begun: self.out.begun(),
            output: self.out.bytes(),
            message: str::from_utf8(self.err.bytes())?,
        })
    }
}

/// What a run leaves, so that one comparison covers all of it.
#[derive(Clone, Copy, Debug, PartialEq, Eq)]
pub struct Left<'a> {
    pub status: Status,
    /// Whether the output was begun.
    pub begun: bool,
    pub output: &'a [u8],
    pub message: &'a str,
}

impl<'a> Left<'a> {
    /// The whole output, and no message.
    pub const fn success(output: &'a [u8]) -> Self {
        Left {
            status: Status::Success,
            begun: true,
            output,
            message: "",
        }
    }

    /// Only a message.
    pub const fn failure(status: Status, message: &'a str) -> Self {
        Left {
            status,
            begun: false,
            output: b"",
            message,
        }
    }

    /// The message of a run that was refused.
    pub const fn refused(message: &'a str) -> Self {
        Left::failure(Status::Refused, message)
    }
}
