//! The secrets of a request, from its password files.
ghost use Rattle.std.specs.Prelude.{◌≡◌, length, map, slice_index_or, true, []};
ghost use Rattle.vault_request.specs.CommandName.{rekeys};
ghost use Rattle.vault_request.specs.Request.{files_of};
ghost use Rattle.vault_cli.specs.runs.Task.{new_secret_of, secret_list_of};

use vault_core::{Fault, SealingSecret, Secrets, password_of};
use vault_request::Request;

/// The secrets of a request without the new one of `rekey`: the password of each file under the
/// file's label, and the rule for labels.
pub(crate) fn secrets_of<'p>(
    request: &Request,
    secret_files: &'p [Vec<u8>],
) -> Result<Secrets<'p>, Fault>
    requires { length secret_files.now ≡ length (files_of request.now) }
    ensures { result ≡ secret_list_of request.now (map (λ file. file.items) secret_files.now) }
{
    let mut secrets = Secrets::new();
    secrets.set_rule(request.rule());
    for i in 0..request.secret_count() {
        let password = password_of(secret_files[i].as_slice())?;
        secrets.push(request.label(i).copy(), password).unwrap();
    }
    Ok(secrets)
}

/// The new secret of `rekey`, whose password file is the last.
pub(crate) fn new_secret_of<'p>(
    request: &'p Request,
    secret_files: &'p [Vec<u8>],
) -> Result<SealingSecret<'p, 'p>, Fault>
    requires command { rekeys request.now.command ≡ true }
    requires files { length secret_files.now ≡ length (files_of request.now) }
    ensures { let contents = map (λ file. file.items) secret_files.now in
        let last = slice_index_or contents (length request.now.secrets) [] in
        result ≡ new_secret_of request.now.new_secret last }
{
    let label = request.new_label().unwrap();
    let password = password_of(secret_files[request.secret_count()].as_slice())?;
    Ok(SealingSecret { label, password })
}
