//! A sink in memory.
ghost use Rattle.std.specs.Prelude.{◌≡◌, ◌+◌, ◌<◌, ◌≤◌, ◌⊎◌, [], IsErr, IfOk, OnOk, OnErr};
ghost use Rattle.std.specs.Prelude.{length, min};
ghost use Rattle.vault_text.specs.Failures.{CountsFailure, IsSaturated};
ghost use Rattle.vault_text.specs.Sink.{taken, has_begun};

use super::{Sink, SinkFailed, Stage};
use crate::failure_count::FailureCount;
use std::alloc::Global;
use std::marker::Model;

/// A sink that keeps the bytes it takes in memory. A failed allocation counts as a failure, and
/// takes nothing.
#[derive(Drop)]
pub struct MemSink {
    bytes: Vec<u8>,
    step: usize,
    stage: Stage,
    failures: FailureCount,
}

impl Model for MemSink {
    ghost use Rattle.std.specs.Prelude.{◌≤◌, vec_capacity};
    ghost use Rattle.vault_text.specs.Sink.{MemSinkState};

    ghost Value = { MemSinkState };

    ghost view = { λ s. record {
      held = s.bytes.items;
      room = vec_capacity s.bytes;
      stage = s.stage;
      failures = s.failures;
      step = s.step;
    } };

    ghost invariant = { λ s. 1 ≤ s.step };
}

impl MemSink {
    /// Takes at most `step` bytes per call.
    pub fn new(alloc: Global, step: usize) -> Self
        requires { 1 ≤ step }
        ensures { result ≡ record {
          held = [];
          room = 0;
          stage = Stage.Unbegun;
          failures = 0;
          step = step;
        } }
    {
        MemSink {
            bytes: Vec::new(alloc),
            step,
            stage: Stage::Unbegun,
            failures: FailureCount::new(),
        }
    }

    /// The bytes taken so far.
    pub fn bytes(&self) -> &[u8]
        ensures { result.now ≡ self.now.held }
    {
        self.bytes.as_slice()
    }

    /// Whether `begin` has returned `Ok`.
    pub fn begun(&self) -> bool
        ensures { result ≡ has_begun self.now.stage }
    {
        !matches!(self.stage, Stage::Unbegun)
    }
}

impl Sink for MemSink {
    ghost use Rattle.vault_text.specs.Sink.{MemoryTakes};
    ghost use Rattle.vault_text.specs.SinkProofs.{MemoryTakes-none, MemoryTakes-more};

    ghost takes = { MemoryTakes };

    ghost stage = { λ s. s.stage };

    ghost failures = { λ s. s.failures };

    ghost takes_none = { MemoryTakes-none };

    ghost takes_more = { MemoryTakes-more };

    ghost failures_monotone = { λ s t xs g. g.0.failures_monotone };

    fn begin(&mut self) -> Result<(), SinkFailed>
        requires { self.old.stage ≡ Stage.Unbegun }
        ensures takes { MemoryTakes self.old [] self.new }
        ensures begun { OnOk result (self.new.stage ≡ Stage.Begun) }
        ensures unbegun { OnErr result (self.new.stage ≡ Stage.Unbegun) }
        ensures failed { CountsFailure self.old.failures self.new.failures result }
        ensures full { IsSaturated self.old.failures → IsErr result }
        ensures only_full { OnErr result (IsSaturated self.old.failures) }
    {
        if self.failures.is_saturated() {
            return Err(SinkFailed);
        }
        self.stage = Stage::Begun;
        Ok(())
    }

    fn put(&mut self, bytes: &[u8]) -> Result<usize, SinkFailed>
        requires begun { self.old.stage ≡ Stage.Begun }
        requires some { 0 < length bytes.now }
        ensures takes { MemoryTakes self.old (taken result bytes.now) self.new }
        ensures count { IfOk result (λ n. n ≡ min (length bytes.now) self.old.step) }
        ensures progress { IfOk result (λ n. 1 ≤ n) }
        ensures bound { IfOk result (λ n. n ≤ length bytes.now) }
        ensures stage { self.new.stage ≡ self.old.stage }
        ensures failed { CountsFailure self.old.failures self.new.failures result }
        ensures full { IsSaturated self.old.failures → IsErr result }
        ensures only_full { OnErr result (IsSaturated self.old.failures
            ⊎ (self.old.room < length self.old.held + min (length bytes.now) self.old.step)) }
    {
        if self.failures.is_saturated() {
            return Err(SinkFailed);
        }
        let n = bytes.len().min(self.step);
        if self.bytes.extend_from_slice(&bytes[..n]).is_err() {
            return self.failures.fail(SinkFailed);
        }
        Ok(n)
    }

    fn finish(&mut self) -> Result<(), SinkFailed>
        requires { self.old.stage ≡ Stage.Begun }
        ensures takes { MemoryTakes self.old [] self.new }
        ensures finished { OnOk result (self.new.stage ≡ Stage.Finished) }
        ensures unfinished { OnErr result (self.new.stage ≡ Stage.Begun) }
        ensures failed { CountsFailure self.old.failures self.new.failures result }
        ensures full { IsSaturated self.old.failures → IsErr result }
        ensures only_full { OnErr result (IsSaturated self.old.failures) }
    {
        if self.failures.is_saturated() {
            return Err(SinkFailed);
        }
        self.stage = Stage::Finished;
        Ok(())
    }
}
