//! The commands.
ghost use Rattle.std.specs.Prelude.{◌≡◌};
ghost use Rattle.vault_request.specs.CommandName.{encrypts, has_output, command_of, rekeys, seals};
ghost use Rattle.vault_request.specs.CommandName.{takes_string};

/// A command of the program.
#[derive(Clone, Copy, Debug, PartialEq, Eq)]
pub enum CommandName {
    /// Plaintext to an envelope.
    Encrypt,
    /// An envelope to plaintext.
    Decrypt,
    /// An envelope to plaintext on standard output.
    View,
    /// An envelope to one under another secret.
    Rekey,
    /// A STRING, or standard input, to a YAML block.
    EncryptString,
}

impl CommandName {
    /// The command with this name.
    pub(crate) fn named(name: &str) -> Option<Self>
        ensures { result ≡ command_of name.now }
    {
        match name {
            "encrypt" => Some(CommandName::Encrypt),
            "decrypt" => Some(CommandName::Decrypt),
            "view" => Some(CommandName::View),
            "rekey" => Some(CommandName::Rekey),
            "encrypt_string" => Some(CommandName::EncryptString),
            _ => None,
        }
    }

    /// Whether plaintext is encrypted. The other commands decrypt an envelope.
    pub(crate) fn encrypts(self) -> bool
        ensures { result ≡ encrypts self }
    {
        matches!(self, CommandName::Encrypt | CommandName::EncryptString)
    }

    /// Whether a salt is used.
    pub(crate) fn seals(self) -> bool
        ensures { result ≡ seals self }
    {
        self.encrypts() || self.rekeys()
    }

    /// Whether an envelope is sealed again under a new secret.
    pub(crate) fn rekeys(self) -> bool
        ensures { result ≡ rekeys self }
    {
        matches!(self, CommandName::Rekey)
    }

    /// Whether the text to encrypt may be an argument. The other commands take a FILE.
    pub(crate) fn takes_string(self) -> bool
        ensures { result ≡ takes_string self }
    {
        matches!(self, CommandName::EncryptString)
    }

    /// Whether the output may be a file.
    pub(crate) fn has_output(self) -> bool
        ensures { result ≡ has_output self }
    {
        !matches!(self, CommandName::View)
    }
}
