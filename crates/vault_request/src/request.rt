//! The request that a command line makes.
ghost use Rattle.std.specs.Prelude.{◌≡◌, ◌+◌, ◌<◌, ◌≤◌, Some, IfSome, is_some, length, slice_get};
ghost use Rattle.std.specs.Option.{option_copied, option_map};
ghost use Rattle.vault_fault.specs.declared.limits.TheConstants.{SECRET_COUNT_LIMIT};
ghost use Rattle.vault_request.specs.CommandName.{rekeys, seals};
ghost use Rattle.vault_request.specs.Request.{IsSaltText, files_of};

use crate::command_name::CommandName;
use std::marker::Model;
use vault_fault::LabelRule;
use vault_text::Label;

/// A password file, and the label of its secret.
#[derive(Drop)]
pub(crate) struct SecretFile {
    pub label: Label,
    pub path: String,
}

impl Model for SecretFile {
    ghost use Rattle.std.specs.String.{string_bytes};
    ghost use Rattle.vault_request.specs.Request.{SecretFile};

    ghost Value = { SecretFile };

    ghost view = { λ f. record { label = f.label; path = string_bytes f.path } };
}

/// A request that was settled from a command line. It has at most as many password files as the
/// limit of secrets allows, and one more if the command is `rekey`.
#[derive(Drop)]
pub struct Request {
    pub(crate) command: CommandName,
    pub(crate) secrets: Vec<SecretFile>,
    pub(crate) new_secret: Option<SecretFile>,
    pub(crate) choice: Option<Label>,
    pub(crate) name: Option<String>,
    pub(crate) string: Option<String>,
    pub(crate) salt_text: Option<String>,
    pub(crate) salt_path: Option<String>,
    pub(crate) rule: LabelRule,
    pub(crate) input: Option<String>,
    pub(crate) output: Option<String>,
}

impl Model for Request {
    ghost use Rattle.std.specs.Option.{option_map};
    ghost use Rattle.std.specs.String.{string_bytes};
    ghost use Rattle.vault_request.specs.Request.{IsSettled, Request};

    ghost Value = { Request };

    ghost view = { λ r. record {
      command = r.command;
      secrets = r.secrets.items;
      new_secret = r.new_secret;
      choice = r.choice;
      name = option_map string_bytes r.name;
      string = option_map string_bytes r.string;
      salt_text = option_map string_bytes r.salt_text;
      salt_path = option_map string_bytes r.salt_path;
      rule = r.rule;
      input = option_map string_bytes r.input;
      output = option_map string_bytes r.output;
    } };

    ghost invariant = { λ r. IsSettled r.command r.secrets.items r.new_secret
        (option_map string_bytes r.salt_text) };
}

impl Request {
    /// The command to carry out.
    pub fn command(&self) -> CommandName
        ensures { result ≡ self.now.command }
    {
        self.command
    }

    /// The number of password files, including the new one of `rekey`.
    pub fn files(&self) -> usize
        ensures count { result ≡ length (files_of self.now) }
        ensures limit { result ≤ SECRET_COUNT_LIMIT + 1 }
    {
        self.secrets.len() + self.new_secret.iter().count()
    }

    /// The number of password files, without the new one of `rekey`.
    pub fn secret_count(&self) -> usize
        ensures count { result ≡ length self.now.secrets }
        ensures limit { result ≤ SECRET_COUNT_LIMIT }
    {
        self.secrets.len()
    }

    /// The path of a password file, counted from 0. The new one of `rekey` is last.
    pub fn path(&self, i: usize) -> &str
        requires { i < length (files_of self.now) }
        ensures { option_map (λ file. file.path) (slice_get (files_of self.now) i)
            ≡ Some result.now }
    {
        self.file(i).path.as_str()
    }

    /// The label of the secret in a password file, counted from 0.
    pub fn label(&self, i: usize) -> &Label
        requires { i < length (files_of self.now) }
        ensures { option_map (λ file. file.label) (slice_get (files_of self.now) i)
            ≡ Some result.now }
    {
        &self.file(i).label
    }

    fn file(&self, i: usize) -> &SecretFile
        requires { i < length (files_of self.now) }
        ensures { slice_get (files_of self.now) i ≡ Some result.now }
    {
        match self.secrets.get(i) {
            Some(file) => file,
            None => self.new_secret.as_ref().unwrap(),
        }
    }

    /// The label of the secret that `rekey` seals with; `None` for every other command.
    pub fn new_label(&self) -> Option<&Label>
        ensures label { option_copied result
            ≡ option_map (λ file. file.label) self.now.new_secret }
        ensures rekey { is_some result ≡ rekeys self.now.command }
    {
        match &self.new_secret {
            Some(file) => Some(&file.label),
            None => None,
        }
    }

    /// The label of the secret to encrypt with, if one was chosen.
    pub fn choice(&self) -> Option<&Label>
        ensures { option_copied result ≡ self.now.choice }
    {
        self.choice.as_ref()
    }

    /// The name of the variable that `encrypt_string` writes, if one was given.
    pub fn name(&self) -> Option<&str>
        ensures { option_copied result ≡ self.now.name }
    {
        self.name.as_deref()
    }

    /// The STRING of `encrypt_string`; if it is given, no input is read.
    pub fn string(&self) -> Option<&str>
        ensures { option_copied result ≡ self.now.string }
    {
        self.string.as_deref()
    }

    /// The text of `--salt`, if it was given: neither empty nor longer than the limit.
    pub fn salt_text(&self) -> Option<&str>
        ensures text { option_copied result ≡ self.now.salt_text }
        ensures length { IfSome result (λ text. IsSaltText text.now) }
    {
        self.salt_text.as_deref()
    }

    /// The path of the salt file; `None` if no salt is used, or if there is a salt text.
    pub fn salt_path(&self) -> Option<&str>
        ensures { option_copied result ≡ self.now.salt_path }
    {
        self.salt_path.as_deref()
    }

    /// Whether a salt is used.
    pub fn seals(&self) -> bool
        ensures { result ≡ seals self.now.command }
    {
        self.command.seals()
    }

    /// Whether the label of an envelope is a hint or binding.
    pub fn rule(&self) -> LabelRule
        ensures { result ≡ self.now.rule }
    {
        self.rule
    }

    /// The path of the input; `None` if it is standard input or a STRING.
    pub fn input(&self) -> Option<&str>
        ensures { option_copied result ≡ self.now.input }
    {
        self.input.as_deref()
    }

    /// The path of the output; `None` if it is standard output.
    pub fn output(&self) -> Option<&str>
        ensures { option_copied result ≡ self.now.output }
    {
        self.output.as_deref()
    }
}
