//! Laws of the definitions, each stated as the contract of a function that does nothing.
ghost use Rattle.std.specs.Prelude.{◌≡◌};
ghost use Rattle.vault_core.specs.Laws.{EncryptedDecrypts, RekeyedDecrypts, SealedUnseals};
ghost use Rattle.vault_core.specs.Laws.{SealedReadsBack, ShortInputs};
ghost use Rattle.vault_core.specs.declared.limits.TheConstants.{PASSWORD_FILE_LIMIT};

/// The length of the longest password file, in bytes.
pub fn limits()
    ensures password_file { PASSWORD_FILE_LIMIT ≡ 4096 }
{}

/// Unsealing a sealed plaintext gives it back.
#[tactic(auto, using(crate::proofs::theorems::SealedUnseals::sealed_unseals))]
pub fn sealed_unseals()
    ensures { SealedUnseals }
{}

/// Reading the envelope of a sealed plaintext gives what was sealed.
#[tactic(auto, using(crate::proofs::theorems::SealedReadsBack::sealed_reads_back))]
pub fn sealed_reads_back()
    ensures { SealedReadsBack }
{}

/// Decrypting an encrypted input gives it back.
#[tactic(auto, using(crate::proofs::theorems::RoundTrips::encrypted_decrypts))]
pub fn encrypted_decrypts()
    ensures { EncryptedDecrypts }
{}

/// Decrypting a rekeyed vault gives the same plaintext as before.
#[tactic(auto, using(crate::proofs::theorems::RoundTrips::rekeyed_decrypts))]
pub fn rekeyed_decrypts()
    ensures { RekeyedDecrypts }
{}

/// For a plaintext within a limit, or an envelope of at most four times as many bytes, each call
/// gives the same answer under that limit and under every larger one.
pub fn short_inputs()
    ensures { ShortInputs }
{}
