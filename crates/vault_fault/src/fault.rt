//! The faults of a run, with their numbers and texts.
ghost use Rattle.std.specs.Prelude.{◌≡◌, ◌≤◌, length};
ghost use Rattle.vault_fault.specs.Fault.{number_of, of_text, text_of};
ghost use Rattle.vault_fault.specs.declared.fault.Fault.TheVariants.{BadLabel as LabelFault};
ghost use Rattle.vault_fault.specs.declared.fault.Fault.TheVariants.{Memory, Read};
ghost use Rattle.vault_fault.specs.declared.fault.Fault.TheVariants.{Write};
ghost use Rattle.vault_fault.specs.declared.fault.Role.TheVariants.{Input};
ghost use Rattle.vault_fault.specs.declared.limits.TheConstants.{FAULT_TEXT_LIMIT};

use std::alloc::{AllocError, AllocFailed};
use thiserror::Error;
use vault_text::{BadLabel, SinkFailed, SourceFailed, TextFault};

/// What a file is opened for.
#[derive(Clone, Copy, Debug, PartialEq, Eq)]
pub enum Role {
    /// The plaintext or the envelope.
    Input,
    /// A password.
    Secret,
    /// The salt that a plaintext is sealed with.
    Salt,
}

/// Why a run has no output, numbered from 1 in this order.
#[derive(Clone, Copy, Debug, PartialEq, Eq, Error)]
#[error("{}", self.text())]
pub enum Fault {
    /// The input is longer than the command accepts.
    TooLong,
    /// The input does not begin with `$ANSIBLE_VAULT`.
    NotVault,
    /// The header line is longer than the limit.
    HeaderTooLong,
    /// The header line is not ASCII, has fewer than three fields, or its fourth is not a label.
    BadHeader,
    /// The version in the header line is neither 1.1 nor 1.2.
    BadVersion,
    /// The cipher in the header line is not AES256.
    BadCipher,
    /// The body has a byte that is not a digit, or an odd number of digits.
    BadHex,
    /// A part of the inner text is missing or not hexadecimal, the salt is longer than the
    /// limit, or the tag is not 32 bytes long.
    BadPayload,
    /// The ciphertext is longer than the ciphertext of the longest plaintext.
    CipherTooLong,
    /// A password file is longer than the limit.
    SecretTooLong,
    /// A password file begins with `#!`.
    SecretIsScript,
    /// A password file begins like a vault.
    SecretIsVault,
    /// A password file contains nothing but whitespace.
    SecretEmpty,
    /// There are more secrets than the limit, not counting the new one of `rekey`.
    TooManySecrets,
    /// There is no secret to encrypt with.
    NoEncryptSecret,
    /// There are several secrets to encrypt with, and no label was chosen.
    ManyEncryptSecrets,
    /// No secret has the label that was chosen for encryption.
    UnknownEncryptId,
    /// A block was asked for, and there is nothing to encrypt.
    EmptyString,
    /// The plaintext begins like a vault.
    AlreadyVault,
    /// None of the secrets that were tried matches the tag.
    NoSecretFits,
    /// A secret matches the tag, but the padding under it is invalid.
    BadPadding,
    /// A label is empty, is longer than the limit, or has a character that is not allowed there.
    BadLabel,
    /// The name of a variable contains a control byte.
    BadName,
    /// `--name` was given without a STRING, or `--stdin-name` with one.
    NameMismatch,
    /// The source of a vault id is `prompt`.
    PromptSource,
    /// `rekey` was given no new secret, or two.
    NeedNewSecret,
    /// A FILE was given without `--output`.
    OutputNeeded,
    /// Reading a file or standard input failed.
    Read(Role),
    /// The output could not be opened, written or flushed.
    Write,
    /// The salt has fewer than 32 bytes.
    SaltShort,
    /// A file could not be opened.
    CannotOpen(Role),
    /// Memory for a list, a path or a text could not be allocated.
    Memory,
    /// Both `--salt` and `--salt-file` were given.
    SaltChoice,
    /// The text of `--salt` is empty, or longer than the limit.
    BadSalt,
}

impl Fault {
    /// The fault's place in the table of faults, from 1 to 34.
    pub fn number(self) -> u8
        ensures { result ≡ number_of self }
    {
        match self {
            Fault::TooLong => 1,
            Fault::NotVault => 2,
            Fault::HeaderTooLong => 3,
            Fault::BadHeader => 4,
            Fault::BadVersion => 5,
            Fault::BadCipher => 6,
            Fault::BadHex => 7,
            Fault::BadPayload => 8,
            Fault::CipherTooLong => 9,
            Fault::SecretTooLong => 10,
            Fault::SecretIsScript => 11,
            Fault::SecretIsVault => 12,
            Fault::SecretEmpty => 13,
            Fault::TooManySecrets => 14,
            Fault::NoEncryptSecret => 15,
            Fault::ManyEncryptSecrets => 16,
            Fault::UnknownEncryptId => 17,
            Fault::EmptyString => 18,
            Fault::AlreadyVault => 19,
            Fault::NoSecretFits => 20,
            Fault::BadPadding => 21,
            Fault::BadLabel => 22,
            Fault::BadName => 23,
            Fault::NameMismatch => 24,
            Fault::PromptSource => 25,
            Fault::NeedNewSecret => 26,
            Fault::OutputNeeded => 27,
            Fault::Read(_) => 28,
            Fault::Write => 29,
            Fault::SaltShort => 30,
            Fault::CannotOpen(_) => 31,
            Fault::Memory => 32,
            Fault::SaltChoice => 33,
            Fault::BadSalt => 34,
        }
    }

    /// The text that follows `ERROR! ` on the fault's line.
    pub fn text(self) -> &'static str
        ensures text { result.now ≡ text_of self }
        ensures limit { length result.now ≤ FAULT_TEXT_LIMIT }
    {
        match self {
            Fault::TooLong => "input is longer than the limit",
            Fault::NotVault => "input is not vault encrypted data",
            Fault::HeaderTooLong => "vault header line is longer than 256 bytes",
            Fault::BadHeader => "vault header line is malformed",
            Fault::BadVersion => "vault format version is not supported",
            Fault::BadCipher => "vault cipher is not supported",
            Fault::BadHex => "vault body is not hexadecimal",
            Fault::BadPayload => "vault payload is malformed",
            Fault::CipherTooLong => "vault ciphertext is longer than the limit",
            Fault::SecretTooLong => "a password file is longer than 4096 bytes",
            Fault::SecretIsScript => "a password file is a script",
            Fault::SecretIsVault => "a password file is itself a vault",
            Fault::SecretEmpty => "a password is empty",
            Fault::TooManySecrets => "more than 16 secrets were given",
            Fault::NoEncryptSecret => "no secret was given to encrypt with",
            Fault::ManyEncryptSecrets =>
                "several secrets were given; choose one with --encrypt-vault-id",
            Fault::UnknownEncryptId => "no secret has the label of --encrypt-vault-id",
            Fault::EmptyString => "the string to encrypt is empty",
            Fault::AlreadyVault => "the plaintext is already vault encrypted data",
            Fault::NoSecretFits => "no secret decrypts this vault",
            Fault::BadPadding => "the padding of the decrypted data is wrong",
            Fault::BadLabel => "a vault id label is not allowed",
            Fault::BadName => "a variable name holds a control byte",
            Fault::NameMismatch => "the name option does not fit where the string comes from",
            Fault::PromptSource => "asking for a password is not supported",
            Fault::NeedNewSecret => "exactly one new secret is needed",
            Fault::OutputNeeded => "--output is needed with an input file",
            Fault::Read(Role::Input) => "the input cannot be read",
            Fault::Read(Role::Secret) => "a password file cannot be read",
            Fault::Read(Role::Salt) => "the salt file cannot be read",
            Fault::Write => "the output cannot be written",
            Fault::SaltShort => "the salt has fewer than 32 bytes",
            Fault::CannotOpen(Role::Input) => "the input file cannot be opened",
            Fault::CannotOpen(Role::Secret) => "a password file cannot be opened",
            Fault::CannotOpen(Role::Salt) => "the salt file cannot be opened",
            Fault::Memory => "out of memory",
            Fault::SaltChoice => "--salt and --salt-file exclude each other",
            Fault::BadSalt => "a salt text must have 1 to 64 bytes",
        }
    }
}

impl From<TextFault> for Fault {
    ghost from_gives = { λ fault of. of ≡ of_text fault };

    fn from(fault: TextFault) -> Self {
        match fault {
            TextFault::TooLong => Fault::TooLong,
            TextFault::NotVault => Fault::NotVault,
            TextFault::HeaderTooLong => Fault::HeaderTooLong,
            TextFault::BadHeader => Fault::BadHeader,
            TextFault::BadVersion => Fault::BadVersion,
            TextFault::BadCipher => Fault::BadCipher,
            TextFault::BadHex => Fault::BadHex,
            TextFault::BadPayload => Fault::BadPayload,
            TextFault::CipherTooLong => Fault::CipherTooLong,
        }
    }
}

impl From<BadLabel> for Fault {
    ghost from_gives = { λ _ of. of ≡ LabelFault };

    fn from(_: BadLabel) -> Self {
        Fault::BadLabel
    }
}

/// The source is the run's input.
impl From<SourceFailed> for Fault {
    ghost from_gives = { λ _ of. of ≡ Read Input };

    fn from(_: SourceFailed) -> Self {
        Fault::Read(Role::Input)
    }
}

impl From<SinkFailed> for Fault {
    ghost from_gives = { λ _ of. of ≡ Write };

    fn from(_: SinkFailed) -> Self {
        Fault::Write
    }
}

impl From<AllocError> for Fault {
    ghost from_gives = { λ _ of. of ≡ Memory };

    fn from(_: AllocError) -> Self {
        Fault::Memory
    }
}

impl<T: Drop> From<AllocFailed<T>> for Fault {
    ghost from_gives = { λ _ of. of ≡ Memory };

    fn from(_: AllocFailed<T>) -> Self {
        Fault::Memory
    }
}
