//! A source for tests that fails after some calls.
ghost use Rattle.std.specs.Prelude.{◌≡◌, ◌-◌, ◌<◌, ◌≤◌, ◌↔◌, IsTrue, IsErr, IfOk, false};
ghost use Rattle.std.specs.Prelude.{length, min};
ghost use Rattle.vault_text.specs.Failures.{CountsFailure, IsSaturated};
ghost use Rattle.vault_text.specs.Source.{given};

use super::{MemSource, Source, SourceFailed};
use crate::failure_count::FailureCount;
use std::marker::Model;

/// A source over bytes in memory that fails at every call after a given number of calls.
#[derive(Drop)]
pub struct FailingSource<'a> {
    memory: MemSource<'a>,
    calls: usize,
    failures: FailureCount,
}

impl<'a> Model for FailingSource<'a> {
    ghost use Rattle.std.specs.Prelude.{◌≡◌, ◌<◌};
    ghost use Rattle.vault_text.specs.Failures.{FailingState};
    ghost use Rattle.vault_text.specs.Source.{MemSourceState};

    ghost Value = { FailingState MemSourceState };

    ghost view = { λ s. record { memory = s.memory; calls = s.calls; failures = s.failures } };

    ghost invariant = { λ s. 0 < s.failures → s.calls ≡ 0 };
}

impl<'a> FailingSource<'a> {
    /// Gives at most `step` bytes per call, and fails after `calls` calls.
    pub fn new(bytes: &'a [u8], step: usize, calls: usize) -> Self
        requires { 1 ≤ step }
        ensures { result ≡ record {
          memory = record { left = bytes.now; ended = false; step = step };
          calls = calls;
          failures = 0;
        } }
    {
        FailingSource {
            memory: MemSource::new(bytes, step),
            calls,
            failures: FailureCount::new(),
        }
    }
}

impl<'a> Source for FailingSource<'a> {
    ghost use Rattle.vault_text.specs.Source.{FailingGives};
    ghost use Rattle.vault_text.specs.SourceProofs.{FailingGives-none, FailingGives-more};

    ghost gives = { FailingGives };

    ghost ended = { λ s. s.memory.ended };

    ghost failures = { λ s. s.failures };

    ghost gives_none = { FailingGives-none };

    ghost gives_more = { FailingGives-more };

    ghost nothing_after_end = { λ s t xs g. g.0.nothing_after_end };

    ghost failures_monotone = { λ s t xs g. g.0.failures_monotone };

    fn fill(&mut self, buf: &mut [u8]) -> Result<usize, SourceFailed>
        requires { 0 < length buf.old }
        ensures gives { FailingGives self.old (given result buf.new) self.new }
        ensures calls { self.new.calls ≡ self.old.calls - 1 }
        ensures out_of_calls { IsErr result ↔ (self.old.calls ≡ 0) }
        ensures count { let memory = self.old.memory in IfOk result
            (λ n. n ≡ min (min (length buf.new) memory.step) (length memory.left)) }
        ensures bound { IfOk result (λ n. n ≤ length buf.new) }
        ensures end { IfOk result (λ n. (n ≡ 0) ↔ IsTrue self.new.memory.ended) }
        ensures failed { CountsFailure self.old.failures self.new.failures result }
        ensures full { IsSaturated self.old.failures → IsErr result }
    {
        if self.calls == 0 {
            return self.failures.fail(SourceFailed);
        }
        self.calls -= 1;
        self.memory.fill(buf)
    }
}
