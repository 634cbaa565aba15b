//! The values of `--vault-id`: a source, or a label, `@` and a source.
ghost use Rattle.std.specs.Prelude.{◌≡◌, ◌≤◌, IfOk, length, map};
ghost use Rattle.std.specs.Result.{result_err};
ghost use Rattle.vault_fault.specs.declared.limits.TheConstants.{SECRET_COUNT_LIMIT};
ghost use Rattle.vault_request.specs.Settled.{file_of_id, file_of_path};
ghost use Rattle.vault_request.specs.VaultId.{fault_of_id, first_fault, label_part, source_of_id};

use arrayvec::ArrayVec;
use std::marker::Model;
use vault_fault::{Fault, SECRET_COUNT_LIMIT};
use vault_text::Label;

/// A `SecretFile` whose path is borrowed from the command line.
#[derive(Drop)]
pub(crate) struct BorrowedSecretFile<'a> {
    pub label: Label,
    pub path: &'a str,
}

impl<'a> Model for BorrowedSecretFile<'a> {
    ghost use Rattle.vault_request.specs.Request.{SecretFile};

    ghost Value = { SecretFile };

    ghost view = { λ f. record { label = f.label; path = f.path.now } };
}

impl<'a> BorrowedSecretFile<'a> {
    /// A password file of `--vault-password-file`, with the label `default`.
    pub(crate) fn with_default_label(path: &'a str) -> Self
        ensures { result ≡ file_of_path path.now }
    {
        BorrowedSecretFile {
            label: Label::default_label(),
            path,
        }
    }
}

/// An unused slot of a list.
impl<'a> Default for BorrowedSecretFile<'a> {
    fn default() -> Self {
        BorrowedSecretFile::with_default_label("")
    }
}

/// The password files of the vault ids of a command line.
pub(crate) type BorrowedSecretFiles<'a> = ArrayVec<BorrowedSecretFile<'a>, SECRET_COUNT_LIMIT>;

/// The parts before and after the first `@`; all is source if there is none.
fn split(id: &str) -> (&str, &str)
    ensures label { result.0.now ≡ label_part id.now }
    ensures source { result.1.now ≡ source_of_id id.now }
{
    match id.split_once('@') {
        Some((label, source)) => (label, source),
        None => ("", id),
    }
}

/// Reads a vault id; refused if the label is not allowed, or if the source is `prompt`.
pub(crate) fn parse(id: &str) -> Result<BorrowedSecretFile<'_>, Fault>
    ensures file { IfOk result (λ file. file ≡ file_of_id id.now) }
    ensures refused { result_err result ≡ fault_of_id id.now }
{
    let (label, path) = split(id);
    let label = Label::new_or_default(label)?;
    if path == "prompt" {
        return Err(Fault::PromptSource);
    }
    Ok(BorrowedSecretFile { label, path })
}

/// Reads vault ids in order; refused by the first one that has a fault.
pub(crate) fn parse_all<'a>(ids: &[&'a str]) -> Result<BorrowedSecretFiles<'a>, Fault>
    requires { length ids.now ≤ SECRET_COUNT_LIMIT }
    ensures files { IfOk result (λ secret_files.
        secret_files.items ≡ map file_of_id (map (λ id. id.now) ids.now)) }
    ensures refused { result_err result ≡ first_fault (map (λ id. id.now) ids.now) }
{
    let mut secret_files = ArrayVec::new();
    for id in ids {
        secret_files.push(parse(id)?);
    }
    Ok(secret_files)
}
