//! Laws of the definitions that the contracts of this crate cite, each stated as the contract of a
//! function that does nothing.
ghost use Rattle.std.specs.Prelude.{◌≡◌, ◌+◌, ◌*◌};
ghost use Rattle.vault_text.specs.Laws.{LargerLimits, ShortInputs, WrittenReadsBack};
ghost use Rattle.vault_text.specs.declared.limits.TheConstants.{CIPHERTEXT_LIMIT, ENVELOPE_LIMIT};
ghost use Rattle.vault_text.specs.declared.limits.TheConstants.{HEADER_LIMIT, LABEL_LIMIT};
ghost use Rattle.vault_text.specs.declared.limits.TheConstants.{PADDING_LIMIT, PLAINTEXT_LIMIT};
ghost use Rattle.vault_text.specs.declared.limits.TheConstants.{SALT_LIMIT, TAG_LENGTH};

/// The limits and lengths that the definitions name, in bytes.
pub fn limits()
    ensures plaintext { PLAINTEXT_LIMIT ≡ 16777216 }
    ensures padding { PADDING_LIMIT ≡ 16 }
    ensures ciphertext { CIPHERTEXT_LIMIT ≡ PLAINTEXT_LIMIT + 16 }
    ensures envelope { ENVELOPE_LIMIT ≡ 6 * PLAINTEXT_LIMIT + 8192 }
    ensures header { HEADER_LIMIT ≡ 256 }
    ensures salt { SALT_LIMIT ≡ 256 }
    ensures label { LABEL_LIMIT ≡ 128 }
    ensures tag { TAG_LENGTH ≡ 32 }
{}

/// Reading a written envelope gives what it was written from.
pub fn written_reads_back()
    ensures { WrittenReadsBack }
{}

/// An input that can be read under a limit reads the same under a larger one.
pub fn larger_limits()
    ensures { LargerLimits }
{}

/// An input of at most four times a limit reads the same under it and under every larger one,
/// since an envelope spells each byte of its ciphertext with four digits.
pub fn short_inputs()
    ensures { ShortInputs }
{}
