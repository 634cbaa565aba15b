//! The table of options: the name of each, the name of its value, and its help text.

/// The entry of an option, or of a positional argument, in the table.
#[derive(Clone, Copy)]
pub struct OptionEntry {
    /// The name, without the leading dashes.
    pub name: &'static str,
    /// The name of the value in the help; empty for a flag, or if the option's name is enough.
    pub value_name: &'static str,
    /// The help text.
    pub help: &'static str,
}

pub const VAULT_ID: OptionEntry = OptionEntry {
    name: "vault-id",
    value_name: "[LABEL@]SOURCE",
    help: "A password file, with its label (default: `default`); may be repeated",
};

pub const VAULT_PASSWORD_FILE: OptionEntry = OptionEntry {
    name: "vault-password-file",
    value_name: "PATH",
    help: "A password file, with the label `default`; may be repeated",
};

pub const ENCRYPT_VAULT_ID: OptionEntry = OptionEntry {
    name: "encrypt-vault-id",
    value_name: "LABEL",
    help: "The label of the password to encrypt with; required if there are several passwords",
};

pub const REQUIRE_ID_MATCH: OptionEntry = OptionEntry {
    name: "require-id-match",
    value_name: "",
    help: "Try only passwords that have the vault's label; by default, they are tried first, and \
        then the others",
};

pub const NEW_VAULT_ID: OptionEntry = OptionEntry {
    name: "new-vault-id",
    value_name: "[LABEL@]SOURCE",
    help: "The file of the new password, with its label (default: `default`); give this or \
        --new-vault-password-file",
};

pub const NEW_VAULT_PASSWORD_FILE: OptionEntry = OptionEntry {
    name: "new-vault-password-file",
    value_name: "PATH",
    help: "The file of the new password, with the label `default`; give this or \
        --new-vault-id",
};

pub const SALT_FILE: OptionEntry = OptionEntry {
    name: "salt-file",
    value_name: "PATH",
    help: "Take the first 32 bytes of this file as the salt (default: /dev/urandom)",
};

pub const SALT: OptionEntry = OptionEntry {
    name: "salt",
    value_name: "TEXT",
    help: "Take this text, 1 to 64 bytes, as the salt. Never use one salt twice with the same \
        password: that repeats the key stream",
};

pub const NAME: OptionEntry = OptionEntry {
    name: "name",
    value_name: "NAME",
    help: "The name of the variable, if STRING is given (default: none)",
};

pub const STDIN_NAME: OptionEntry = OptionEntry {
    name: "stdin-name",
    value_name: "NAME",
    help: "The name of the variable, if standard input is read (default: none)",
};

pub const OUTPUT: OptionEntry = OptionEntry {
    name: "output",
    value_name: "PATH",
    help: "The file to write, or - for standard output (default: -); required if FILE is given",
};

/// `--output` of `encrypt_string`, which has no FILE.
pub const STRING_OUTPUT: OptionEntry = OptionEntry {
    name: "output",
    value_name: "PATH",
    help: "The file to write, or - for standard output (default: -)",
};

pub const FILE: OptionEntry = OptionEntry {
    name: "FILE",
    value_name: "",
    help: "The file to read, or - for standard input (default: -)",
};

pub const STRING: OptionEntry = OptionEntry {
    name: "STRING",
    value_name: "",
    help: "The text to encrypt, or - for standard input (default: -)",
};
