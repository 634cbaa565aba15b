//! Why options are refused, before anything is allocated, and what is read from them on the way.
ghost use Rattle.std.specs.Prelude.{◌≡◌, IfOk, map};
ghost use Rattle.std.specs.List.{list_any};
ghost use Rattle.std.specs.Option.{option_copied};
ghost use Rattle.std.specs.Result.{result_err};
ghost use Rattle.vault_request.specs.Refusal.{label_fault, count_fault, is_control};
ghost use Rattle.vault_request.specs.Refusal.{mismatch_fault, name_fault, output_fault, refusal};
ghost use Rattle.vault_request.specs.Refusal.{rekey_fault, salt_fault};
ghost use Rattle.vault_request.specs.Settled.{file_of_id, new_secret_of};

use crate::limits::SALT_TEXT_LIMIT;
use crate::options::Options;
use crate::vault_id::{self, BorrowedSecretFile, BorrowedSecretFiles};
use vault_fault::{Fault, SECRET_COUNT_LIMIT};
use vault_text::Label;

/// What was read from options that are not refused.
#[derive(Drop)]
pub(crate) struct Checked<'a> {
    /// The password files of `--vault-id`.
    pub labelled: BorrowedSecretFiles<'a>,
    /// The secret that `rekey` seals with.
    pub new_secret: Option<BorrowedSecretFile<'a>>,
    /// The label of the secret to encrypt with.
    pub choice: Option<Label>,
}

/// Refuses the options if they have a fault: more secrets than the limit; each vault id in turn,
/// its label first and then its source; the label to encrypt with; the new secret of `rekey`;
/// the names of `encrypt_string`; a FILE without an output; the salt.
#[tactic(auto, unfolding(crate::specs::Refusal::refusal))]
pub(crate) fn check<'a>(options: &Options<'_, 'a>) -> Result<Checked<'a>, Fault>
    ensures refused { result_err result ≡ refusal options.now }
    ensures labelled { IfOk result (λ checked.
        checked.labelled.items ≡ map file_of_id options.now.vault_ids) }
    ensures new_secret { IfOk result (λ checked. checked.new_secret ≡ new_secret_of options.now) }
    ensures choice { IfOk result (λ checked. checked.choice ≡ options.now.encrypt_vault_id) }
{
    check_count(options)?;
    let labelled = vault_id::parse_all(options.vault_ids)?;
    let choice = chosen_label(options.encrypt_vault_id)?;
    let new_secret = new_secret_of(options)?;
    check_mismatch(options)?;
    check_name(options.name)?;
    check_name(options.stdin_name)?;
    check_output(options)?;
    check_salt(options.salt_text, options.salt_file)?;
    Ok(Checked {
        labelled,
        new_secret,
        choice,
    })
}

fn check_count(options: &Options<'_, '_>) -> Result<(), Fault>
    ensures { result_err result ≡ count_fault options.now }
{
    let (ids, paths) = (options.vault_ids.len(), options.password_files.len());
    if ids > SECRET_COUNT_LIMIT || paths > SECRET_COUNT_LIMIT - ids {
        return Err(Fault::TooManySecrets);
    }
    Ok(())
}

/// The secret that `rekey` seals with; refused unless exactly one is given.
fn new_secret_of<'a>(options: &Options<'_, 'a>) -> Result<Option<BorrowedSecretFile<'a>>, Fault>
    ensures file { IfOk result (λ file. file ≡ new_secret_of options.now) }
    ensures refused { result_err result ≡ rekey_fault options.now }
{
    if !options.command.rekeys() {
        return Ok(None);
    }
    match (options.new_vault_id, options.new_password_file) {
        (Some(id), None) => Ok(Some(vault_id::parse(id)?)),
        (None, Some(path)) => Ok(Some(BorrowedSecretFile::with_default_label(path))),
        _ => Err(Fault::NeedNewSecret),
    }
}

/// Refuses `--name` if standard input is read, and `--stdin-name` if it is not.
fn check_mismatch(options: &Options<'_, '_>) -> Result<(), Fault>
    ensures { result_err result ≡ mismatch_fault options.now }
{
    let other = match options.string {
        Some(_) => options.stdin_name,
        None => options.name,
    };
    match other {
        Some(_) => Err(Fault::NameMismatch),
        None => Ok(()),
    }
}

/// Refuses a FILE without a named output.
fn check_output(options: &Options<'_, '_>) -> Result<(), Fault>
    ensures { result_err result ≡ output_fault options.now }
{
    if options.command.has_output() && options.file.is_some() && options.output.is_none() {
        return Err(Fault::OutputNeeded);
    }
    Ok(())
}

/// The label of the secret to encrypt with.
fn chosen_label(label: Option<&str>) -> Result<Option<Label>, Fault>
    ensures label { IfOk result (λ chosen. chosen ≡ option_copied label.entry) }
    ensures refused { result_err result ≡ label_fault (option_copied label.entry) }
{
    match label {
        Some(label) => Ok(Some(Label::new(label)?)),
        None => Ok(None),
    }
}

fn is_control(byte: u8) -> bool
    ensures { result ≡ is_control byte }
{
    byte < b' ' || byte == 127
}

fn has_control(name: &[u8]) -> bool
    ensures { result ≡ list_any is_control name.now }
{
    name.iter().any(|byte| is_control(*byte))
}

fn check_name(name: Option<&str>) -> Result<(), Fault>
    ensures { result_err result ≡ name_fault (option_copied name.entry) }
{
    match name {
        Some(name) if has_control(name.as_bytes()) => Err(Fault::BadName),
        _ => Ok(()),
    }
}

fn check_salt(text: Option<&str>, path: Option<&str>) -> Result<(), Fault>
    ensures { result_err result
        ≡ salt_fault (option_copied text.entry) (option_copied path.entry) }
{
    match (text, path) {
        (Some(_), Some(_)) => Err(Fault::SaltChoice),
        (Some(text), None) if text.is_empty() || text.len() > SALT_TEXT_LIMIT => Err(
            Fault::BadSalt,
        ),
        _ => Ok(()),
    }
}
