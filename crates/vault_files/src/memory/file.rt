//! A file in memory, and its reader.
ghost use Rattle.std.specs.Prelude.{◌≡◌};
ghost use Rattle.vault_files.specs.File.FileState.{Broken, Whole};
ghost use Rattle.vault_files.specs.Memory.{IsReaderOf};

use std::marker::Model;
use vault_text::{FailureCount, Source, SourceFailed};

/// A file in memory, under its path.
#[derive(Drop)]
pub struct MemFile<'a> {
    pub(super) path: &'a str,
    pub(super) bytes: &'a [u8],
    breaks: bool,
}

impl<'a> Model for MemFile<'a> {
    ghost use Rattle.std.specs.Prelude.{if◌then◌else◌};
    ghost use Rattle.vault_files.specs.File.FileState.{Broken, Whole};
    ghost use Rattle.vault_files.specs.Memory.{Entry};

    ghost Value = { Entry };

    ghost view = { λ f. record {
      path = f.path.now;
      file = if f.breaks then Broken f.bytes.now else Whole f.bytes.now;
    } };
}

impl<'a> MemFile<'a> {
    /// A file with these bytes.
    pub fn whole(path: &'a str, bytes: &'a [u8]) -> Self
        ensures { result ≡ record { path = path.now; file = Whole bytes.now } }
    {
        MemFile {
            path,
            bytes,
            breaks: false,
        }
    }

    /// A file that cannot be read past these bytes.
    pub fn broken(path: &'a str, bytes: &'a [u8]) -> Self
        ensures { result ≡ record { path = path.now; file = Broken bytes.now } }
    {
        MemFile {
            path,
            bytes,
            breaks: true,
        }
    }

    /// A reader of the whole file.
    pub(super) fn reader(&self) -> MemFileReader<'a>
        ensures { IsReaderOf self.now.file result }
    {
        MemFileReader {
            left: self.bytes,
            breaks: self.breaks,
            ended: false,
            failures: FailureCount::new(),
        }
    }
}

/// A reader of a file in memory. After the last byte of a file that breaks, each call fails.
#[derive(Drop)]
pub struct MemFileReader<'a> {
    left: &'a [u8],
    breaks: bool,
    ended: bool,
    failures: FailureCount,
}

impl<'a> Model for MemFileReader<'a> {
    ghost use Rattle.vault_files.specs.Memory.{ReaderState};

    ghost Value = { ReaderState };

    ghost view = { λ r. record {
      left = r.left.now;
      breaks = r.breaks;
      ended = r.ended;
      failures = r.failures;
    } };
}

impl<'a> Source for MemFileReader<'a> {
    ghost use Rattle.vault_files.specs.Memory.{Reads};
    ghost use Rattle.vault_files.specs.MemoryProofs.{Reads-none, Reads-more};

    ghost gives = { Reads };

    ghost ended = { λ r. r.ended };

    ghost failures = { λ r. r.failures };

    ghost gives_none = { Reads-none };

    ghost gives_more = { Reads-more };

    ghost nothing_after_end = { λ s t xs g. g.nothing_after_end };

    ghost failures_monotone = { λ s t xs g. g.failures_monotone };

    fn fill(&mut self, buf: &mut [u8]) -> Result<usize, SourceFailed> {
        if self.failures.is_saturated() {
            return Err(SourceFailed);
        }
        if self.ended {
            return Ok(0);
        }
        if self.left.is_empty() && self.breaks {
            return self.failures.fail(SourceFailed);
        }
        let n = buf.len().min(self.left.len());
        let (prefix, rest) = self.left.split_at(n);
        buf[..n].copy_from_slice(prefix);
        self.left = rest;
        self.ended = n == 0;
        Ok(n)
    }
}
