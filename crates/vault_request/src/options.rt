//! The values under the options of a command.
ghost use Rattle.std.specs.Prelude.{◌≡◌, map};
ghost use Rattle.std.specs.Option.{option_copied};
ghost use Rattle.clap.specs.Words.{first_of, found_of, rows_of};
ghost use Rattle.vault_request.specs.Options.{is_given, options_of, rule_of, value_if};

use crate::command_name::CommandName;
use crate::dash::unless_dash;
use crate::option_table as table;
use clap::ArgMatches;
use std::marker::Model;
use vault_fault::LabelRule;

/// The values that a command was given under its options.
#[derive(Drop)]
pub(crate) struct Options<'m, 'a> {
    pub command: CommandName,
    pub vault_ids: &'m [&'a str],
    pub password_files: &'m [&'a str],
    pub encrypt_vault_id: Option<&'a str>,
    pub new_vault_id: Option<&'a str>,
    pub new_password_file: Option<&'a str>,
    pub name: Option<&'a str>,
    pub stdin_name: Option<&'a str>,
    pub string: Option<&'a str>,
    pub salt_file: Option<&'a str>,
    pub salt_text: Option<&'a str>,
    pub rule: LabelRule,
    pub file: Option<&'a str>,
    pub output: Option<&'a str>,
}

impl<'m, 'a> Model for Options<'m, 'a> {
    ghost use Rattle.std.specs.Prelude.{map};
    ghost use Rattle.std.specs.Option.{option_copied};
    ghost use Rattle.vault_request.specs.Options.{Options};

    ghost Value = { Options };

    ghost view = { λ o. record {
      command = o.command;
      vault_ids = map (λ id. id.now) o.vault_ids.now;
      password_files = map (λ path. path.now) o.password_files.now;
      encrypt_vault_id = option_copied o.encrypt_vault_id;
      new_vault_id = option_copied o.new_vault_id;
      new_password_file = option_copied o.new_password_file;
      name = option_copied o.name;
      stdin_name = option_copied o.stdin_name;
      string = option_copied o.string;
      salt_file = option_copied o.salt_file;
      salt_text = option_copied o.salt_text;
      rule = o.rule;
      file = option_copied o.file;
      output = option_copied o.output;
    } };
}

impl<'m, 'a> Options<'m, 'a> {
    /// The options of a command: the values of its repeated options, and the rest from the matches.
    pub(crate) fn of(
        command: CommandName,
        given: &ArgMatches<'a>,
        vault_ids: &'m [&'a str],
        password_files: &'m [&'a str],
    ) -> Self
        ensures { result ≡ record (options_of command (rows_of (found_of given.now))) {
          vault_ids = map (λ id. id.now) vault_ids.now;
          password_files = map (λ path. path.now) password_files.now;
        } }
    {
        let rekeys = command.rekeys();
        let takes_string = command.takes_string();
        Options {
            command,
            vault_ids,
            password_files,
            encrypt_vault_id: value_if(command.encrypts(), given, table::ENCRYPT_VAULT_ID.name),
            new_vault_id: value_if(rekeys, given, table::NEW_VAULT_ID.name),
            new_password_file: value_if(rekeys, given, table::NEW_VAULT_PASSWORD_FILE.name),
            name: value_if(takes_string, given, table::NAME.name),
            stdin_name: value_if(takes_string, given, table::STDIN_NAME.name),
            string: unless_dash(value_if(takes_string, given, table::STRING.name)),
            salt_file: value_if(command.seals(), given, table::SALT_FILE.name),
            salt_text: value_if(command.seals(), given, table::SALT.name),
            rule: rule_of(command, given),
            file: unless_dash(value_if(!takes_string, given, table::FILE.name)),
            output: value_if(command.has_output(), given, table::OUTPUT.name),
        }
    }
}

fn value<'a>(given: &ArgMatches<'a>, option: &str) -> Option<&'a str>
    ensures { option_copied result ≡ first_of option.now (rows_of (found_of given.now)) }
{
    given.get_str(option)
}

/// The value under an option, if the command has it.
fn value_if<'a>(has: bool, given: &ArgMatches<'a>, option: &str) -> Option<&'a str>
    ensures { option_copied result
        ≡ value_if has option.now (rows_of (found_of given.now)) }
{
    if has { value(given, option) } else { None }
}

/// Whether a flag was given; the parser then gives `true` as its value.
fn is_given(given: &ArgMatches<'_>, flag: &str) -> bool
    ensures { result ≡ is_given flag.now (rows_of (found_of given.now)) }
{
    match value(given, flag) {
        Some(value) => value == "true",
        None => false,
    }
}

fn rule_of(command: CommandName, given: &ArgMatches<'_>) -> LabelRule
    ensures { result ≡ rule_of command (rows_of (found_of given.now)) }
{
    if !command.encrypts() && is_given(given, table::REQUIRE_ID_MATCH.name) {
        LabelRule::Required
    } else {
        LabelRule::Hint
    }
}
