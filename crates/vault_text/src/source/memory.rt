//! A source in memory.
ghost use Rattle.std.specs.Prelude.{◌≡◌, ◌<◌, ◌≤◌, ◌↔◌, IsTrue, IsErr, IfOk, false};
ghost use Rattle.std.specs.Prelude.{length, min};
ghost use Rattle.vault_text.specs.Failures.{CountsFailure, IsSaturated};
ghost use Rattle.vault_text.specs.Source.{given};

use super::{Source, SourceFailed};
use std::marker::Model;

/// A source over bytes in memory. It never fails.
#[derive(Drop)]
pub struct MemSource<'a> {
    left: &'a [u8],
    ended: bool,
    step: usize,
}

impl<'a> Model for MemSource<'a> {
    ghost use Rattle.std.specs.Prelude.{◌≡◌, ◌≤◌, [], IsTrue};
    ghost use Rattle.vault_text.specs.Source.{MemSourceState};

    ghost Value = { MemSourceState };

    ghost view = { λ s. record { left = s.left.now; ended = s.ended; step = s.step } };

    ghost invariant = { λ s. (1 ≤ s.step) × (IsTrue s.ended → s.left.now ≡ []) };
}

impl<'a> MemSource<'a> {
    /// Gives at most `step` bytes per call.
    pub fn new(bytes: &'a [u8], step: usize) -> Self
        requires { 1 ≤ step }
        ensures { result ≡ record { left = bytes.now; ended = false; step = step } }
    {
        MemSource {
            left: bytes,
            ended: false,
            step,
        }
    }
}

impl<'a> Source for MemSource<'a> {
    ghost use Rattle.vault_text.specs.Source.{MemoryGives};
    ghost use Rattle.vault_text.specs.SourceProofs.{MemoryGives-none, MemoryGives-more};

    ghost gives = { MemoryGives };

    ghost ended = { λ s. s.ended };

    ghost failures = { λ _. 0 };

    ghost gives_none = { MemoryGives-none };

    ghost gives_more = { MemoryGives-more };

    ghost nothing_after_end = { λ s t xs g. g.0.nothing_after_end };

    ghost failures_monotone = { λ s t xs g. g.0.failures_monotone };

    fn fill(&mut self, buf: &mut [u8]) -> Result<usize, SourceFailed>
        requires { 0 < length buf.old }
        ensures gives { MemoryGives self.old (given result buf.new) self.new }
        ensures count { result
            ≡ Ok (min (min (length buf.new) self.old.step) (length self.old.left)) }
        ensures bound { IfOk result (λ n. n ≤ length buf.new) }
        ensures end { IfOk result (λ n. (n ≡ 0) ↔ IsTrue self.new.ended) }
        ensures failed { CountsFailure 0 0 result }
        ensures full { IsSaturated 0 → IsErr result }
    {
        let n = buf.len().min(self.step).min(self.left.len());
        let (prefix, rest) = self.left.split_at(n);
        buf[..n].copy_from_slice(prefix);
        self.left = rest;
        self.ended = n == 0;
        Ok(n)
    }
}
