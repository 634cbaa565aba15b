//! Laws of the answers and of the program, each stated as the contract of a function that does
//! nothing, or only names the laws that it rests on.
ghost use Rattle.std.specs.Prelude.{◌≡◌};
ghost use Rattle.vault_cli.specs.Laws.{EncryptThenDecrypt, AnswersAreDecided};
ghost use Rattle.vault_cli.specs.Laws.{RekeyKeepsThePlaintext, ShortTexts};
ghost use Rattle.vault_cli.specs.ProgramLaws.{ProgramEncryptsThenDecrypts, ProgramIsRun};
ghost use Rattle.vault_cli.specs.ProgramLaws.{ProgramKeepsThePlaintext, WrittenIsRead};
ghost use Rattle.vault_cli.specs.declared.limits.TheConstants.{SEALING_SALT_LENGTH};

use vault_request::laws::settled_requests;

/// The length of the salt at the start of a salt file, in bytes.
pub fn limits()
    ensures salt { SEALING_SALT_LENGTH ≡ 32 }
{}

/// The answer of a run is a success or a refusal. Any other status of `run` comes from its source
/// or its output; any other status of `drive_over` from these, its files or its memory.
pub fn answers_are_decided()
    ensures { AnswersAreDecided }
{}

/// Decrypting an encrypted input gives it back.
pub fn encrypt_then_decrypt()
    ensures { EncryptThenDecrypt }
{
    vault_core::laws::encrypted_decrypts();
}

/// Decrypting a rekeyed vault gives the same plaintext as before.
pub fn rekey_keeps_the_plaintext()
    ensures { RekeyKeepsThePlaintext }
{
    vault_core::laws::rekeyed_decrypts();
}

/// A text that fits wherever a plaintext up to a limit does gets the same answer under that limit
/// and under every larger one.
pub fn short_texts()
    ensures { ShortTexts }
{
    vault_core::laws::short_inputs();
}

/// If its files can be read, the program gives the answer of the run.
pub fn program_is_run()
    ensures { ProgramIsRun }
{}

/// What one run wrote to a path, another run reads there.
pub fn written_is_read()
    ensures { WrittenIsRead }
{}

/// Decrypting what the program encrypted gives the input back, from file to file.
pub fn program_encrypts_then_decrypts()
    ensures { ProgramEncryptsThenDecrypts }
{
    settled_requests();
    encrypt_then_decrypt();
}

/// Decrypting what the program rekeyed gives the same plaintext as before, from file to file.
pub fn program_keeps_the_plaintext()
    ensures { ProgramKeepsThePlaintext }
{
    settled_requests();
    rekey_keeps_the_plaintext();
}
