//! A law of the limits, stated as the contract of a function that does nothing.
ghost use Rattle.std.specs.Prelude.{◌≡◌};
ghost use Rattle.vault_fault.specs.declared.limits.TheConstants.{SECRET_COUNT_LIMIT};

/// The most secrets that a list may have.
pub fn limits()
    ensures secrets { SECRET_COUNT_LIMIT ≡ 16 }
{}
