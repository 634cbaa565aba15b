//! A law of the limit, stated as the contract of a function that does nothing.
ghost use Rattle.std.specs.Prelude.{◌≡◌};
ghost use Rattle.vault_files.specs.declared.limits.TheConstants.{PATH_LIMIT};

/// The length of the longest path, in bytes.
pub fn limits()
    ensures path { PATH_LIMIT ≡ 4095 }
{}
