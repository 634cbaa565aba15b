//! A sink over `std::io::Write`.
ghost use Rattle.std.specs.Prelude.{◌≡◌, [], IsErr, OnOk, OnErr};
ghost use Rattle.vault_text.specs.Failures.{CountsFailure, IsSaturated};
ghost use Rattle.vault_text.specs.Sink.{new_sink};

mod flushing;

use super::{Sink, SinkFailed, Stage};
use crate::byte_log::ByteLog;
use crate::failure_count::FailureCount;
use flushing::{SuccessfulFlush, flush};
use std::io::Write;
use std::marker::Model;

/// The state of the sink.
#[derive(Drop)]
pub enum State {
    Unbegun,
    Begun,
    Finished(SuccessfulFlush),
}

/// A sink over a writer. Every error of the writer is a failure, and so is a write that takes
/// nothing. `finish` flushes the writer.
#[derive(Drop)]
pub struct WriteSink<W: Write> {
    writer: W,
    state: State,
    failures: FailureCount,
    /// What the writer took.
    log: ByteLog,
}

impl<W: Write> Model for WriteSink<W> {
    ghost use Rattle.vault_text.specs.Recorded.{Recorded};
    ghost use Rattle.vault_text.specs.Sink.{SinkState, stage_of};

    ghost Value = { Recorded SinkState };

    ghost view = { λ s. record {
      device = record {
        held = W.contents s.writer;
        stage = stage_of s.state;
        failures = s.failures;
      };
      bytes = s.log.bytes;
    } };
}

impl<W: Write> WriteSink<W> {
    /// Appends to the contents of `writer`. Opening the sink does not call the writer.
    pub fn new(writer: W) -> Self
        ensures { result ≡ new_sink (W.contents writer) }
    {
        WriteSink {
            writer,
            state: State::Unbegun,
            failures: FailureCount::new(),
            log: ByteLog::new(),
        }
    }

    /// The writer, with its contents so far.
    pub fn into_inner(self) -> W
        ensures { W.contents result ≡ self.device.held }
    {
        let WriteSink { writer, .. } = self;
        writer
    }
}

impl<W: Write> Sink for WriteSink<W> {
    ghost use Rattle.vault_text.specs.Recorded.{Records};
    ghost use Rattle.vault_text.specs.RecordedProofs.{Records-none, Records-more};
    ghost use Rattle.vault_text.specs.Sink.{Takes};
    ghost use Rattle.vault_text.specs.SinkProofs.{Takes-none, Takes-more};

    ghost takes = { Records Takes };

    ghost stage = { λ s. s.device.stage };

    ghost failures = { λ s. s.device.failures };

    ghost takes_none = { Records-none Takes-none };

    ghost takes_more = { Records-more Takes-more };

    ghost failures_monotone = { λ s t xs g. g.moves.failures_monotone };

    fn begin(&mut self) -> Result<(), SinkFailed>
        requires { self.old.device.stage ≡ Stage.Unbegun }
        ensures takes { Records Takes self.old [] self.new }
        ensures begun { OnOk result (self.new.device.stage ≡ Stage.Begun) }
        ensures unbegun { OnErr result (self.new.device.stage ≡ Stage.Unbegun) }
        ensures failed { CountsFailure self.old.device.failures self.new.device.failures result }
        ensures full { IsSaturated self.old.device.failures → IsErr result }
        ensures only_full { OnErr result (IsSaturated self.old.device.failures) }
    {
        if self.failures.is_saturated() {
            return Err(SinkFailed);
        }
        self.state = State::Begun;
        Ok(())
    }

    fn put(&mut self, bytes: &[u8]) -> Result<usize, SinkFailed> {
        if self.failures.is_saturated() {
            return Err(SinkFailed);
        }
        match self.writer.write(bytes) {
            Ok(n) if n > 0 => {
                self.log = self.log.with(&bytes[..n]);
                Ok(n)
            }
            _ => self.failures.fail(SinkFailed),
        }
    }

    fn finish(&mut self) -> Result<(), SinkFailed> {
        if self.failures.is_saturated() {
            return Err(SinkFailed);
        }
        match flush(&mut self.writer) {
            Ok(flushed) => {
                self.state = State::Finished(flushed);
                Ok(())
            }
            Err(_) => self.failures.fail(SinkFailed),
        }
    }
}
