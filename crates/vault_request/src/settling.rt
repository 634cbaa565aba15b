//! Making a request from the matches of a command line.
ghost use Rattle.std.specs.Prelude.{◌≡◌, ◌++◌, true, None, map, is_some};
ghost use Rattle.std.specs.Prelude.{IfSome, IfOk, IfErr, OnOk};
ghost use Rattle.std.specs.Option.{option_copied, option_map};
ghost use Rattle.std.specs.String.{string_bytes};
ghost use Rattle.clap.specs.Words.{found_of, rows_of, subcommand_rows_of};
ghost use Rattle.vault_request.specs.Refusal.{refusal};
ghost use Rattle.vault_request.specs.Settled.{Settles, requested, command_in, file_of_id};
ghost use Rattle.vault_request.specs.Settled.{new_secret_of, file_of_path, request_of};
ghost use Rattle.vault_request.specs.Settled.{settled_by};
ghost use Rattle.vault_fault.specs.declared.fault.Fault.TheVariants.{Memory};

use crate::command_name::CommandName;
use crate::dash::unless_dash;
use crate::option_table::{VAULT_ID, VAULT_PASSWORD_FILE};
use crate::options::Options;
use crate::refusals::{Checked, check};
use crate::request::{Request, SecretFile};
use crate::salt_file::salt_path_of;
use crate::vault_id::BorrowedSecretFile;
use clap::ArgMatches;
use std::alloc::{AllocError, Global};
use vault_fault::Fault;

/// The command in the matches, and the matches of its own arguments.
fn command_in<'m, 'a>(matches: &'m ArgMatches<'a>) -> Option<(CommandName, &'m ArgMatches<'a>)>
    ensures { option_map (λ found. (found.0, rows_of (found_of found.1.now))) result
        ≡ command_in (subcommand_rows_of matches.now) }
{
    let (name, given) = matches.subcommand()?;
    let command = CommandName::named(name)?;
    Some((command, given))
}

/// The password file of a request.
fn file_of(alloc: Global, found: &BorrowedSecretFile<'_>) -> Result<SecretFile, AllocError>
    ensures { IfOk result (λ file. file ≡ found.now) }
{
    let label = found.label.copy();
    let path = String::from_str(alloc, found.path)?;
    Ok(SecretFile { label, path })
}

/// Adds the password files of vault ids.
fn add_labelled(
    alloc: Global,
    secret_files: &mut Vec<SecretFile>,
    labelled: &[BorrowedSecretFile<'_>],
) -> Result<(), Fault>
    ensures added { OnOk result (secret_files.new.items ≡ secret_files.old.items ++ labelled.now) }
    ensures refused { IfErr result (λ fault. fault ≡ Memory) }
{
    for found in labelled {
        secret_files.push(file_of(alloc, found)?)?;
    }
    Ok(())
}

/// Adds password files without labels of their own.
fn add_unlabelled(
    alloc: Global,
    secret_files: &mut Vec<SecretFile>,
    paths: &[&str],
) -> Result<(), Fault>
    ensures added { OnOk result (secret_files.new.items
        ≡ secret_files.old.items ++ map file_of_path (map (λ path. path.now) paths.now)) }
    ensures refused { IfErr result (λ fault. fault ≡ Memory) }
{
    for path in paths {
        secret_files.push(file_of(alloc, &BorrowedSecretFile::with_default_label(path))?)?;
    }
    Ok(())
}

/// A copy of a text, if there is one.
fn copied(alloc: Global, text: Option<&str>) -> Result<Option<String>, AllocError>
    ensures { IfOk result (λ copy.
        option_map string_bytes copy ≡ option_copied text.entry) }
{
    match text {
        Some(text) => Ok(Some(String::from_str(alloc, text)?)),
        None => Ok(None),
    }
}

fn secret_files_of(
    alloc: Global,
    labelled: &[BorrowedSecretFile<'_>],
    paths: &[&str],
) -> Result<Vec<SecretFile>, Fault>
    ensures files { IfOk result (λ secret_files. secret_files.items
        ≡ labelled.now ++ map file_of_path (map (λ path. path.now) paths.now)) }
    ensures refused { IfErr result (λ fault. fault ≡ Memory) }
{
    let mut secret_files = Vec::new(alloc);
    add_labelled(alloc, &mut secret_files, labelled)?;
    add_unlabelled(alloc, &mut secret_files, paths)?;
    Ok(secret_files)
}

/// The password file of the secret that `rekey` seals with.
fn new_file_of(
    alloc: Global,
    new_secret: Option<&BorrowedSecretFile<'_>>,
) -> Result<Option<SecretFile>, AllocError>
    ensures { IfOk result (λ file. file ≡ option_copied new_secret.entry) }
{
    match new_secret {
        Some(found) => Ok(Some(file_of(alloc, found)?)),
        None => Ok(None),
    }
}

/// The request made from options that are not refused, and from what was read from them.
fn request_of(
    alloc: Global,
    options: &Options<'_, '_>,
    checked: Checked<'_>,
) -> Result<Request, Fault>
    requires allowed { refusal options.now ≡ None }
    requires labelled { checked.labelled.items ≡ map file_of_id options.now.vault_ids }
    requires new_secret { checked.new_secret ≡ new_secret_of options.now }
    requires choice { checked.choice ≡ options.now.encrypt_vault_id }
    ensures request { IfOk result (λ request. request ≡ request_of options.now) }
    ensures refused { IfErr result (λ fault. fault ≡ Memory) }
{
    let labelled = checked.labelled.as_slice();
    Ok(Request {
        command: options.command,
        secrets: secret_files_of(alloc, labelled, options.password_files)?,
        new_secret: new_file_of(alloc, checked.new_secret.as_ref())?,
        choice: checked.choice,
        name: copied(alloc, options.name.or(options.stdin_name))?,
        string: copied(alloc, options.string)?,
        salt_text: copied(alloc, options.salt_text)?,
        salt_path: copied(alloc, salt_path_of(options))?,
        rule: options.rule,
        input: copied(alloc, options.file)?,
        output: copied(alloc, unless_dash(options.output))?,
    })
}

/// The request of the options, all of which are checked before the first allocation.
fn settled_by(alloc: Global, options: &Options<'_, '_>) -> Result<Request, Fault>
    ensures { Settles (settled_by options.now) result }
{
    let checked = check(options)?;
    request_of(alloc, options, checked)
}

/// Builds the request from the matches of `parse`, or returns the first fault of the options.
pub fn settle(alloc: Global, matches: &ArgMatches<'_>) -> Result<Request, Fault>
    requires { is_some (requested (subcommand_rows_of matches.now)) ≡ true }
    ensures { IfSome (requested (subcommand_rows_of matches.now))
        (λ settled. Settles settled result) }
{
    let (command, given) = command_in(matches).unwrap();
    let ids = given.get_strs(VAULT_ID.name).unwrap_or(&[]);
    let paths = given.get_strs(VAULT_PASSWORD_FILE.name).unwrap_or(&[]);
    settled_by(alloc, &Options::of(command, given, ids, paths))
}
