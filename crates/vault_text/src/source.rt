//! Where input comes from.
ghost use Rattle.std.specs.Prelude.{◌≡◌, ℕ, ◌<◌, ◌≤◌, ◌↔◌, ◌++◌, List, [], Bool};
ghost use Rattle.std.specs.Prelude.{IsTrue, IsErr, IfOk, OnErr, Ok, length, take};
ghost use Rattle.vault_text.specs.Failures.{CountsFailure, IsSaturated};
ghost use Rattle.vault_text.specs.Source.{given};

mod failing;
mod memory;
mod read;

pub use failing::FailingSource;
pub use memory::MemSource;
pub use read::ReadSource;
use thiserror::Error;

/// A source could not be read.
#[derive(Clone, Copy, Debug, PartialEq, Eq, Error)]
#[error("the source cannot be read")]
pub struct SourceFailed;

/// A stream of bytes that ends, fails, or goes on forever.
pub trait Source {
    // The bytes given between two states.
    ghost gives: { Self → List ℕ → Self → Type 0 };

    // Whether the end was reported.
    ghost ended: { Self → Bool };

    // The number of failed calls, saturating at `u64::MAX`.
    ghost failures: { Self → ℕ };

    /// Puts the next bytes at the start of `buf` and returns how many there are. 0 means the end,
    /// after which each call returns 0 or fails. A failed call gives no bytes.
    fn fill(&mut self, buf: &mut [u8]) -> Result<usize, SourceFailed>
        requires { 0 < length buf.old }
        ensures gives { gives self.old (given result buf.new) self.new }
        ensures bound { IfOk result (λ n. n ≤ length buf.new) }
        ensures end { IfOk result (λ n. (n ≡ 0) ↔ IsTrue (ended self.new)) }
        ensures failed { CountsFailure (failures self.old) (failures self.new) result }
        ensures full { IsSaturated (failures self.old) → IsErr result };

    ghost gives_none: { (s : Self) → gives s [] s };

    ghost gives_more: { (s t u : Self) (xs ys : List ℕ)
        → gives s xs t → gives t ys u → gives s (xs ++ ys) u };

    ghost nothing_after_end: { (s t : Self) (xs : List ℕ)
        → gives s xs t → IsTrue (ended s) → (xs ≡ []) × IsTrue (ended t) };

    ghost failures_monotone: { (s t : Self) (xs : List ℕ)
        → gives s xs t → failures s ≤ failures t };
}

/// Reads until the end or until `buf` is full, and returns how many bytes it read. It does not call
/// the source for an empty `buf`. After a failure the contents of `buf` are unspecified.
pub fn fill_up<S: Source>(source: &mut S, buf: &mut [u8]) -> Result<usize, SourceFailed>
    ensures empty { length buf.old ≡ 0 → (result ≡ Ok 0) × (source.new ≡ source.old) }
    ensures gives { IfOk result (λ n. S.gives source.old (take n buf.new) source.new) }
    ensures some { (xs : List ℕ) × (length xs ≤ length buf.new)
        × OnErr result (length xs < length buf.new) × S.gives source.old xs source.new }
    ensures bound { IfOk result (λ n. n ≤ length buf.new) }
    ensures short { IfOk result (λ n. n < length buf.new → IsTrue (S.ended source.new)) }
    ensures failed { CountsFailure (S.failures source.old) (S.failures source.new) result }
    ensures full { IsSaturated (S.failures source.old) → 0 < length buf.old → IsErr result }
{
    let mut filled = 0;
    while filled < buf.len() {
        let n = source.fill(&mut buf[filled..])?;
        if n == 0 {
            break;
        }
        filled += n;
    }
    Ok(filled)
}
