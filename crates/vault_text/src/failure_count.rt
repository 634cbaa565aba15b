//! Counting the failures of a source or a sink.
ghost use Rattle.std.specs.Prelude.{◌≡◌, ◌≤◌, ◌↔◌, IsTrue, Err};
ghost use Rattle.vault_text.specs.Failures.{HasRisen, IsSaturated, u64_max};

use std::marker::Model;

/// The number of failed calls of a source or a sink, saturating at `u64::MAX`.
#[derive(Drop)]
pub struct FailureCount {
    count: u64,
}

impl Model for FailureCount {
    ghost use Rattle.std.specs.Prelude.{ℕ};

    ghost Value = { ℕ };

    ghost view = { λ c. c.count };
}

impl FailureCount {
    /// The count of a source or a sink that has not been called.
    pub fn new() -> Self
        ensures { result ≡ 0 }
    {
        FailureCount { count: 0 }
    }

    /// Counts a failed call, and returns the call's error.
    pub fn fail<T, E>(&mut self, error: E) -> Result<T, E>
        ensures error { result ≡ Err error }
        ensures risen { HasRisen self.old self.new }
        ensures monotone { self.old ≤ self.new }
    {
        self.count = self.count.saturating_add(1);
        Err(error)
    }

    /// Whether it is saturated. Each call must then fail, since a failure could not be counted.
    pub fn is_saturated(&self) -> bool
        ensures saturated { IsTrue result ↔ IsSaturated self.now }
        ensures bound { self.now ≤ u64_max }
    {
        self.count == u64::MAX
    }
}
