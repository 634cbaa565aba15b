//! Counting the derivations of keys.
ghost use Rattle.std.specs.Prelude.{◌≡◌, ℕ, ◌+◌, ◌<◌, ◌^◌};

use std::marker::Model;

/// A count of derivations, which [`Derivation::begin`](crate::Derivation::begin) increments.
#[derive(Debug, Drop)]
pub struct Meter {
    derivations: u64,
}

impl Model for Meter {
    ghost Value = { ℕ };

    ghost view = { λ m. m.derivations };
}

impl Meter {
    /// A count of 0.
    pub fn new() -> Meter
        ensures { result ≡ 0 }
    {
        Meter { derivations: 0 }
    }

    /// The number of derivations counted.
    pub fn count(&self) -> u64
        ensures { result ≡ self.now }
    {
        self.derivations
    }

    pub(crate) fn add_one(&mut self)
        requires { self.old + 1 < 2 ^ 64 }
        ensures { self.new ≡ self.old + 1 }
    {
        self.derivations += 1;
    }
}
