//! A sink for tests that fails after some calls.
ghost use Rattle.std.specs.Prelude.{◌≡◌, ◌+◌, ◌-◌, ◌<◌, ◌≤◌, ◌⊎◌, ◌↔◌, [], IsErr, IfOk, OnOk};
ghost use Rattle.std.specs.Prelude.{OnErr, length, min};
ghost use Rattle.vault_text.specs.Failures.{CountsFailure, IsSaturated};
ghost use Rattle.vault_text.specs.Sink.{Takes, failing_state_of, has_begun, taken};

use super::{MemSink, Sink, SinkFailed, Stage};
use crate::failure_count::FailureCount;
use std::alloc::Global;
use std::marker::Model;

/// A sink that keeps the bytes it takes in memory, and fails at every call after a given number of
/// calls. A failed allocation also counts as a failure, and takes nothing.
#[derive(Drop)]
pub struct FailingSink {
    memory: MemSink,
    calls: usize,
    failures: FailureCount,
}

impl Model for FailingSink {
    ghost use Rattle.std.specs.Prelude.{◌≤◌};
    ghost use Rattle.vault_text.specs.Failures.{FailingState};
    ghost use Rattle.vault_text.specs.Sink.{MemSinkState};

    ghost Value = { FailingState MemSinkState };

    ghost view = { λ s. record { memory = s.memory; calls = s.calls; failures = s.failures } };

    ghost invariant = { λ s. s.memory.failures ≤ s.failures };
}

impl FailingSink {
    /// Takes at most `step` bytes per call, and fails after `calls` calls. `begin`, `put` and
    /// `finish` each count as one.
    pub fn new(alloc: Global, step: usize, calls: usize) -> Self
        requires { 1 ≤ step }
        ensures { result ≡ record {
          memory = record {
            held = [];
            room = 0;
            stage = Stage.Unbegun;
            failures = 0;
            step = step;
          };
          calls = calls;
          failures = 0;
        } }
    {
        FailingSink {
            memory: MemSink::new(alloc, step),
            calls,
            failures: FailureCount::new(),
        }
    }

    /// The bytes taken so far.
    pub fn bytes(&self) -> &[u8]
        ensures { result.now ≡ self.now.memory.held }
    {
        self.memory.bytes()
    }

    /// Whether `begin` has returned `Ok`.
    pub fn begun(&self) -> bool
        ensures { result ≡ has_begun self.now.memory.stage }
    {
        self.memory.begun()
    }

    /// Uses up one call; fails if none was left, or if the count of failures is saturated.
    fn use_call(&mut self) -> Result<(), SinkFailed>
        ensures takes { Takes (failing_state_of self.old) [] (failing_state_of self.new) }
        ensures memory { self.new.memory ≡ self.old.memory }
        ensures calls { self.new.calls ≡ self.old.calls - 1 }
        ensures out_of_calls { IsErr result
            ↔ ((self.old.calls ≡ 0) ⊎ IsSaturated self.old.failures) }
        ensures failed { CountsFailure self.old.failures self.new.failures result }
    {
        let calls = self.calls;
        self.calls = calls.saturating_sub(1);
        if calls == 0 || self.failures.is_saturated() {
            return self.failures.fail(SinkFailed);
        }
        Ok(())
    }
}

impl Sink for FailingSink {
    ghost use Rattle.vault_text.specs.Sink.{FailingTakes};
    ghost use Rattle.vault_text.specs.SinkProofs.{FailingTakes-none, FailingTakes-more};

    ghost takes = { FailingTakes };

    ghost stage = { λ s. s.memory.stage };

    ghost failures = { λ s. s.failures };

    ghost takes_none = { FailingTakes-none };

    ghost takes_more = { FailingTakes-more };

    ghost failures_monotone = { λ s t xs g. g.0.failures_monotone };

    fn begin(&mut self) -> Result<(), SinkFailed>
        requires { self.old.memory.stage ≡ Stage.Unbegun }
        ensures takes { FailingTakes self.old [] self.new }
        ensures begun { OnOk result (self.new.memory.stage ≡ Stage.Begun) }
        ensures unbegun { OnErr result (self.new.memory.stage ≡ Stage.Unbegun) }
        ensures calls { self.new.calls ≡ self.old.calls - 1 }
        ensures out_of_calls { IsErr result
            ↔ ((self.old.calls ≡ 0) ⊎ IsSaturated self.old.failures) }
        ensures failed { CountsFailure self.old.failures self.new.failures result }
        ensures full { IsSaturated self.old.failures → IsErr result }
    {
        self.use_call()?;
        self.memory.begin()
    }

    fn put(&mut self, bytes: &[u8]) -> Result<usize, SinkFailed>
        requires begun { self.old.memory.stage ≡ Stage.Begun }
        requires some { 0 < length bytes.now }
        ensures takes { FailingTakes self.old (taken result bytes.now) self.new }
        ensures count { IfOk result (λ n. n ≡ min (length bytes.now) self.old.memory.step) }
        ensures progress { IfOk result (λ n. 1 ≤ n) }
        ensures bound { IfOk result (λ n. n ≤ length bytes.now) }
        ensures stage { self.new.memory.stage ≡ self.old.memory.stage }
        ensures calls { self.new.calls ≡ self.old.calls - 1 }
        ensures out_of_calls { self.old.calls ≡ 0 → IsErr result }
        ensures failed { CountsFailure self.old.failures self.new.failures result }
        ensures full { IsSaturated self.old.failures → IsErr result }
        ensures only_full { OnErr result
            (((self.old.calls ≡ 0) ⊎ IsSaturated self.old.failures)
            ⊎ (self.old.memory.room
            < length self.old.memory.held + min (length bytes.now) self.old.memory.step)) }
    {
        self.use_call()?;
        match self.memory.put(bytes) {
            Ok(n) => Ok(n),
            Err(error) => self.failures.fail(error),
        }
    }

    fn finish(&mut self) -> Result<(), SinkFailed>
        requires { self.old.memory.stage ≡ Stage.Begun }
        ensures takes { FailingTakes self.old [] self.new }
        ensures finished { OnOk result (self.new.memory.stage ≡ Stage.Finished) }
        ensures unfinished { OnErr result (self.new.memory.stage ≡ Stage.Begun) }
        ensures calls { self.new.calls ≡ self.old.calls - 1 }
        ensures out_of_calls { IsErr result
            ↔ ((self.old.calls ≡ 0) ⊎ IsSaturated self.old.failures) }
        ensures failed { CountsFailure self.old.failures self.new.failures result }
        ensures full { IsSaturated self.old.failures → IsErr result }
    {
        self.use_call()?;
        self.memory.finish()
    }
}
