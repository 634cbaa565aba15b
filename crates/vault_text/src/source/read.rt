//! A source over `std::io::Read`.
ghost use Rattle.std.specs.Prelude.{◌≡◌, ◌<◌, ◌≤◌, ◌↔◌, IsTrue, IsErr, IfOk, OnErr, length};
ghost use Rattle.vault_text.specs.Failures.{CountsFailure, IsSaturated};
ghost use Rattle.vault_text.specs.Source.{given, new_source};

use super::{Source, SourceFailed};
use crate::byte_log::ByteLog;
use crate::failure_count::FailureCount;
use std::io::Read;
use std::marker::Model;

/// A source over a reader. Every error of the reader is a failure, even an interruption. After its
/// first `Ok(0)` the reader is not called again.
#[derive(Drop)]
pub struct ReadSource<R: Read> {
    reader: R,
    ended: bool,
    failures: FailureCount,
    /// What the reader gave.
    log: ByteLog,
}

impl<R: Read> Model for ReadSource<R> {
    ghost use Rattle.vault_text.specs.Recorded.{Recorded};
    ghost use Rattle.vault_text.specs.Source.{SourceState};

    ghost Value = { Recorded SourceState };

    ghost view = { λ s. record {
      device = record {
        left = R.remaining s.reader;
        ended = s.ended;
        failures = s.failures;
      };
      bytes = s.log.bytes;
    } };
}

impl<R: Read> ReadSource<R> {
    /// Gives the bytes that `reader` gives from its current position on.
    pub fn new(reader: R) -> Self
        ensures { result ≡ new_source (R.remaining reader) }
    {
        ReadSource {
            reader,
            ended: false,
            failures: FailureCount::new(),
            log: ByteLog::new(),
        }
    }
}

impl<R: Read> Source for ReadSource<R> {
    ghost use Rattle.vault_text.specs.Recorded.{Records};
    ghost use Rattle.vault_text.specs.RecordedProofs.{Records-none, Records-more};
    ghost use Rattle.vault_text.specs.Source.{Gives};
    ghost use Rattle.vault_text.specs.SourceProofs.{Gives-none, Gives-more};

    ghost gives = { Records Gives };

    ghost ended = { λ s. s.device.ended };

    ghost failures = { λ s. s.device.failures };

    ghost gives_none = { Records-none Gives-none };

    ghost gives_more = { Records-more Gives-more };

    ghost nothing_after_end = { λ s t xs g. g.moves.nothing_after_end };

    ghost failures_monotone = { λ s t xs g. g.moves.failures_monotone };

    fn fill(&mut self, buf: &mut [u8]) -> Result<usize, SourceFailed>
        requires { 0 < length buf.old }
        ensures gives { Records Gives self.old (given result buf.new) self.new }
        ensures bound { IfOk result (λ n. n ≤ length buf.new) }
        ensures end { IfOk result (λ n. (n ≡ 0) ↔ IsTrue self.new.device.ended) }
        ensures failed { CountsFailure self.old.device.failures self.new.device.failures result }
        ensures full { IsSaturated self.old.device.failures → IsErr result }
        ensures after_end { IsTrue self.old.device.ended
            → OnErr result (IsSaturated self.old.device.failures) }
    {
        if self.failures.is_saturated() {
            return Err(SourceFailed);
        }
        if self.ended {
            return Ok(0);
        }
        match self.reader.read(buf) {
            Ok(n) => {
                self.ended = n == 0;
                self.log = self.log.with(&buf[..n]);
                Ok(n)
            }
            Err(_) => self.failures.fail(SourceFailed),
        }
    }
}
