//! The description of the command line, and the parsing of arguments.
ghost use Rattle.std.specs.Prelude.{◌≡◌, ◌++◌, [], IfErr, IfOk, codes, is_some, map, true};
ghost use Rattle.std.specs.String.{string_bytes};
ghost use Rattle.clap.specs.Words.{FailsBy, app_of, fault_of, subcommand_of, subcommand_rows_of};
ghost use Rattle.vault_fault.specs.declared.fault.Fault.TheVariants.{Memory};
ghost use Rattle.vault_request.specs.Built.{IsCommand};
ghost use Rattle.vault_request.specs.CommandLine.{app_with, decrypt, encrypt};
ghost use Rattle.vault_request.specs.CommandLine.{encrypt_string, name_rules};
ghost use Rattle.vault_request.specs.CommandLine.{new_secret_rules, rekey, salt_rules};
ghost use Rattle.vault_request.specs.CommandLine.{secret_rules, top_shape, vault_app, view};
ghost use Rattle.vault_request.specs.Settled.{requested};

use crate::arguments::{self, flag, option, positional, repeated};
use crate::option_table as table;
use clap::{ArgMatches, Command, Error};
use std::alloc::{AllocError, Global};
use vault_fault::Fault;

const VERSION: &str = "0.8.0";

/// What ends the parser's help: the program's manual page, and its companions.
const SEE_ALSO: &str = "See also: ansible-vault(1), \
    ansible-vault-with, -edit, -rotate, -check, -hook, -merge, -textconv";

/// The command line's description, to be parsed by `clap`.
#[tactic(auto, unfolding(crate::specs::CommandLine::vault_app))]
pub fn command<'a>(alloc: Global) -> Result<Command<'a>, Fault>
    ensures shape { IfOk result (λ command. app_of command ≡ vault_app) }
    ensures refused { IfErr result (λ fault. fault ≡ Memory) }
{
    let command = top(alloc)?
        .subcommand(encrypt(alloc)?)?
        .subcommand(decrypt(alloc)?)?
        .subcommand(view(alloc)?)?
        .subcommand(rekey(alloc)?)?
        .subcommand(encrypt_string(alloc)?)?;
    Ok(command)
}

/// Parses the arguments, the first of which is the program's name. The command and the values of
/// its options are as the parser's definition gives them for this command line. An error is of a
/// kind that it gives, or says that memory ran out. Arguments that parse name a command.
pub fn parse<'a>(alloc: Global, words: &'a [String]) -> Result<ArgMatches<'a>, Error>
    ensures matches { IfOk result (λ matches.
        subcommand_rows_of matches ≡ subcommand_of vault_app (map string_bytes words.now)) }
    ensures kinds { FailsBy (fault_of vault_app (map string_bytes words.now)) result }
    ensures requested { IfOk result
        (λ matches. is_some (requested (subcommand_rows_of matches)) ≡ true) }
{
    let Ok(command) = command(alloc) else {
        return Err(Error::from(AllocError));
    };
    command.try_get_matches_from(words)
}

/// The program itself, without its commands.
fn top<'a>(alloc: Global) -> Result<Command<'a>, AllocError>
    ensures { IfOk result (λ command. IsCommand command (record { top = top_shape; subs = [] })) }
{
    let about = "Encrypts and decrypts Ansible Vault files";
    let command = Command::new(alloc, "ansible-vault")
        .about(about)
        .after_help(SEE_ALSO)
        .version(VERSION)
        .subcommand_required(true)
        .disable_help_subcommand(true);
    command.bin_name("ansible-vault")
}

fn encrypt<'a>(alloc: Global) -> Result<Command<'a>, AllocError>
    ensures { IfOk result (λ command. IsCommand command encrypt) }
{
    let about = "Encrypts a file";
    with_salt(alloc, "encrypt", about)?
        .arg(option(alloc, table::ENCRYPT_VAULT_ID))?
        .arg(option(alloc, table::OUTPUT))?
        .arg(positional(alloc, table::FILE))
}

fn decrypt<'a>(alloc: Global) -> Result<Command<'a>, AllocError>
    ensures { IfOk result (λ command. IsCommand command decrypt) }
{
    let about = "Decrypts a vault";
    with_secrets(alloc, "decrypt", about)?
        .arg(flag(alloc, table::REQUIRE_ID_MATCH))?
        .arg(option(alloc, table::OUTPUT))?
        .arg(positional(alloc, table::FILE))
}

fn view<'a>(alloc: Global) -> Result<Command<'a>, AllocError>
    ensures { IfOk result (λ command. IsCommand command view) }
{
    let about = "Prints the plaintext of a vault";
    with_secrets(alloc, "view", about)?
        .arg(flag(alloc, table::REQUIRE_ID_MATCH))?
        .arg(positional(alloc, table::FILE))
}

fn rekey<'a>(alloc: Global) -> Result<Command<'a>, AllocError>
    ensures { IfOk result (λ command. IsCommand command rekey) }
{
    with_new_secret(alloc)?
        .arg(flag(alloc, table::REQUIRE_ID_MATCH))?
        .arg(option(alloc, table::OUTPUT))?
        .arg(positional(alloc, table::FILE))
}

fn encrypt_string<'a>(alloc: Global) -> Result<Command<'a>, AllocError>
    ensures { IfOk result (λ command. IsCommand command encrypt_string) }
{
    with_name(alloc)?
        .arg(option(alloc, table::ENCRYPT_VAULT_ID))?
        .arg(option(alloc, table::STRING_OUTPUT))?
        .arg(positional(alloc, table::STRING))
}

/// A command with the options that name password files.
fn with_secrets<'a>(alloc: Global, name: &'a str, about: &'a str) -> Result<Command<'a>, AllocError>
    ensures { IfOk result (λ command. IsCommand command (app_with name.now secret_rules)) }
{
    Command::new(alloc, name)
        .about(about)
        .arg(repeated(alloc, table::VAULT_ID))?
        .arg(repeated(alloc, table::VAULT_PASSWORD_FILE))
}

/// A command with the options for password files and the salt.
fn with_salt<'a>(alloc: Global, name: &'a str, about: &'a str) -> Result<Command<'a>, AllocError>
    ensures { IfOk result (λ command.
        IsCommand command (app_with name.now (secret_rules ++ salt_rules))) }
{
    with_secrets(alloc, name, about)?
        .arg(option(alloc, table::SALT_FILE))?
        .arg(option(alloc, table::SALT))
}

/// The command `rekey` with the options for its new secret.
fn with_new_secret<'a>(alloc: Global) -> Result<Command<'a>, AllocError>
    ensures { IfOk result (λ command. IsCommand command
        (app_with (codes "rekey") (secret_rules ++ salt_rules ++ new_secret_rules))) }
{
    let about = "Re-encrypts a vault with a new password";
    with_salt(alloc, "rekey", about)?
        .arg(option(alloc, table::NEW_VAULT_ID))?
        .arg(option(alloc, table::NEW_VAULT_PASSWORD_FILE))
}

/// The command `encrypt_string` with the options for the variable's name.
fn with_name<'a>(alloc: Global) -> Result<Command<'a>, AllocError>
    ensures { IfOk result (λ command. IsCommand command
        (app_with (codes "encrypt_string") (secret_rules ++ salt_rules ++ name_rules))) }
{
    let about = "Encrypts text as a value for YAML";
    with_salt(alloc, "encrypt_string", about)?
        .arg(arguments::name(alloc))?
        .arg(option(alloc, table::STDIN_NAME))
}
