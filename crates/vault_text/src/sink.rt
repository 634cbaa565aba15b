//! Where output goes.
ghost use Rattle.std.specs.Prelude.{◌≡◌, ℕ, ◌<◌, ◌≤◌, ◌++◌, List, [], IsErr, IfOk};
ghost use Rattle.std.specs.Prelude.{OnOk, OnErr, length, take};
ghost use Rattle.vault_text.specs.Failures.{CountsFailure, IsSaturated};
ghost use Rattle.vault_text.specs.Sink.{taken};

mod failing;
mod memory;
mod write;

pub use failing::FailingSink;
pub use memory::MemSink;
use thiserror::Error;
pub use write::WriteSink;

/// A sink could not be opened, written or flushed.
#[derive(Clone, Copy, Debug, PartialEq, Eq, Error)]
#[error("the sink cannot be written")]
pub struct SinkFailed;

/// The stage of a sink's use.
#[derive(Clone, Copy, Debug, PartialEq, Eq)]
pub enum Stage {
    /// `begin` has not returned `Ok` yet: the sink takes no bytes.
    Unbegun,
    /// The sink takes bytes.
    Begun,
    /// `finish` has returned `Ok`: all bytes taken have been flushed.
    Finished,
}

/// A destination for bytes, opened before the first and flushed after the last.
pub trait Sink {
    ghost use Rattle.vault_text.specs.declared.sink.Stage.{Stage};

    // The bytes taken between two states.
    ghost takes: { Self → List ℕ → Self → Type 0 };

    ghost stage: { Self → Stage };

    // The number of failed calls, saturating at `u64::MAX`.
    ghost failures: { Self → ℕ };

    /// Opens the sink.
    fn begin(&mut self) -> Result<(), SinkFailed>
        requires { stage self.old ≡ Stage.Unbegun }
        ensures takes { takes self.old [] self.new }
        ensures begun { OnOk result (stage self.new ≡ Stage.Begun) }
        ensures unbegun { OnErr result (stage self.new ≡ Stage.Unbegun) }
        ensures failed { CountsFailure (failures self.old) (failures self.new) result }
        ensures full { IsSaturated (failures self.old) → IsErr result };

    /// Takes a prefix of `bytes` and returns its length, at least 1. A failed call takes none.
    fn put(&mut self, bytes: &[u8]) -> Result<usize, SinkFailed>
        requires begun { stage self.old ≡ Stage.Begun }
        requires some { 0 < length bytes.now }
        ensures takes { takes self.old (taken result bytes.now) self.new }
        ensures progress { IfOk result (λ n. 1 ≤ n) }
        ensures bound { IfOk result (λ n. n ≤ length bytes.now) }
        ensures stage { stage self.new ≡ stage self.old }
        ensures failed { CountsFailure (failures self.old) (failures self.new) result }
        ensures full { IsSaturated (failures self.old) → IsErr result };

    /// Flushes the bytes taken.
    fn finish(&mut self) -> Result<(), SinkFailed>
        requires { stage self.old ≡ Stage.Begun }
        ensures takes { takes self.old [] self.new }
        ensures finished { OnOk result (stage self.new ≡ Stage.Finished) }
        ensures unfinished { OnErr result (stage self.new ≡ Stage.Begun) }
        ensures failed { CountsFailure (failures self.old) (failures self.new) result }
        ensures full { IsSaturated (failures self.old) → IsErr result };

    ghost takes_none: { (s : Self) → takes s [] s };

    ghost takes_more: { (s t u : Self) (xs ys : List ℕ)
        → takes s xs t → takes t ys u → takes s (xs ++ ys) u };

    ghost failures_monotone: { (s t : Self) (xs : List ℕ)
        → takes s xs t → failures s ≤ failures t };
}

/// Puts all of `bytes` into the sink. After a failure it has taken a prefix of them.
pub fn put_all<K: Sink>(sink: &mut K, bytes: &[u8]) -> Result<(), SinkFailed>
    requires { K.stage sink.old ≡ Stage.Begun }
    ensures takes { OnOk result (K.takes sink.old bytes.now sink.new) }
    ensures prefix { (n : ℕ) × K.takes sink.old (take n bytes.now) sink.new }
    ensures stage { K.stage sink.new ≡ Stage.Begun }
    ensures failed { CountsFailure (K.failures sink.old) (K.failures sink.new) result }
    ensures full { IsSaturated (K.failures sink.old) → 0 < length bytes.now → IsErr result }
{
    let mut done = 0;
    while done < bytes.len() {
        done += sink.put(&bytes[done..])?;
    }
    Ok(())
}
