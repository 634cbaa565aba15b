//! What to do with the input of a request, and the preparation of the output.
ghost use Rattle.std.specs.Prelude.{◌≡◌, ◌≢◌, ℕ, List, [], length, map, slice_index_or, true};
ghost use Rattle.std.specs.Prelude.{Err, IfErr, IfOk};
ghost use Rattle.vault_core.specs.Form.{form_of};
ghost use Rattle.vault_core.specs.Input.{ReadFails, ReadsInput};
ghost use Rattle.vault_text.specs.Call.{source};
ghost use Rattle.vault_text.specs.Failures.{IsSaturated};
ghost use Rattle.vault_text.specs.Limits.{IsWorkLength, limit_of};
ghost use Rattle.vault_fault.specs.declared.fault.Fault.TheVariants.{Read};
ghost use Rattle.vault_fault.specs.declared.fault.Role.TheVariants.{Input};
ghost use Rattle.vault_cli.specs.runs.Answer.{prepared, task_limit};
ghost use Rattle.vault_request.specs.CommandName.{rekeys};
ghost use Rattle.vault_request.specs.Request.{files_of};
ghost use Rattle.vault_cli.specs.runs.StoredTask.{as_task};
ghost use Rattle.vault_cli.specs.runs.Task.{HasValidIndex, encrypt_task, task_of, rekey_task};
ghost use Rattle.vault_cli.specs.runs.Task.{salt_of};

use crate::limits::SEALING_SALT_LENGTH;
use crate::runs::secret_list::{new_secret_of, secrets_of};
use vault_core::{
    Fault, Form, Ready, SealingSecret, Secrets, prepare_decrypt_in, prepare_encrypt_in,
    prepare_rekey_in,
};
use vault_kdf::Meter;
use vault_request::{CommandName, Request};
use vault_text::{Salt, Source, TextMemory};

/// What to do with the input, once the passwords, the secret and the salt are found.
#[derive(Drop)]
pub(crate) enum Task<'p> {
    /// Encrypt it with the secret at an index of the list.
    Encrypt {
        secrets: Secrets<'p>,
        index: usize,
        form: Form<'p>,
        salt: Salt,
    },
    /// Decrypt it.
    Decrypt {
        secrets: Secrets<'p>,
    },
    /// Decrypt it, and encrypt the plaintext with another secret.
    Rekey {
        secrets: Secrets<'p>,
        new: SealingSecret<'p, 'p>,
        salt: Salt,
    },
}

/// Finds the passwords of a request, the secret to encrypt with and the salt; faults come in this
/// order.
#[tactic(auto, unfolding(crate::specs::runs::Task::task_of))]
pub(crate) fn task_of<'p>(
    request: &'p Request,
    secret_files: &'p [Vec<u8>],
    salt: &[u8],
) -> Result<Task<'p>, Fault>
    requires { length secret_files.now ≡ length (files_of request.now) }
    ensures task { let contents = map (λ file. file.items) secret_files.now in
        IfOk result (λ task. task_of request.now contents salt.now ≡ Ok (as_task task)) }
    ensures refused { let contents = map (λ file. file.items) secret_files.now in
        IfErr result (λ fault. task_of request.now contents salt.now ≡ Err fault) }
    ensures index { IfOk result (λ task. HasValidIndex (as_task task)) }
{
    let secrets = secrets_of(request, secret_files)?;
    match request.command() {
        CommandName::Encrypt => encrypt_task(request, secrets, Form::Envelope, salt),
        CommandName::EncryptString => encrypt_task(
            request,
            secrets,
            Form::Block(request.name()),
            salt,
        ),
        CommandName::Decrypt | CommandName::View => Ok(Task::Decrypt { secrets }),
        CommandName::Rekey => rekey_task(request, secrets, secret_files, salt),
    }
}

/// The task of a request to encrypt.
fn encrypt_task<'p>(
    request: &'p Request,
    secrets: Secrets<'p>,
    form: Form<'p>,
    salt: &[u8],
) -> Result<Task<'p>, Fault>
    ensures index { IfOk result (λ task. HasValidIndex (as_task task)) }
    ensures task { IfOk result (λ task.
        encrypt_task request.now secrets.entry.secrets (form_of form.entry) salt.now
        ≡ Ok (as_task task)) }
    ensures refused { IfErr result (λ fault.
        encrypt_task request.now secrets.entry.secrets (form_of form.entry) salt.now ≡ Err fault) }
{
    let index = secrets.encrypt_choice(request.choice())?;
    let salt = salt_of(request, salt)?;
    Ok(Task::Encrypt {
        secrets,
        index,
        form,
        salt,
    })
}

/// The task of `rekey`.
fn rekey_task<'p>(
    request: &'p Request,
    secrets: Secrets<'p>,
    secret_files: &'p [Vec<u8>],
    salt: &[u8],
) -> Result<Task<'p>, Fault>
    requires command { rekeys request.now.command ≡ true }
    requires files { length secret_files.now ≡ length (files_of request.now) }
    ensures index { IfOk result (λ task. HasValidIndex (as_task task)) }
    ensures task { let contents = map (λ file. file.items) secret_files.now in
        let last = slice_index_or contents (length request.now.secrets) [] in
        IfOk result (λ task.
        rekey_task request.now secrets.entry last salt.now ≡ Ok (as_task task)) }
    ensures refused { let contents = map (λ file. file.items) secret_files.now in
        let last = slice_index_or contents (length request.now.secrets) [] in
        IfErr result (λ fault. rekey_task request.now secrets.entry last salt.now ≡ Err fault) }
{
    let new = new_secret_of(request, secret_files)?;
    let salt = salt_of(request, salt)?;
    Ok(Task::Rekey { secrets, new, salt })
}

/// The salt of a request: its salt text, or the first 32 bytes of the salt.
fn salt_of(request: &Request, salt: &[u8]) -> Result<Salt, Fault>
    ensures { result ≡ salt_of request.now.salt_text salt.now }
{
    let bytes = match request.salt_text() {
        Some(text) => text.as_bytes(),
        None if salt.len() < SEALING_SALT_LENGTH => return Err(Fault::SaltShort),
        None => &salt[..SEALING_SALT_LENGTH],
    };
    Ok(Salt::new(bytes).unwrap())
}

impl<'p> Task<'p> {
    /// Reads the input into the memory, and carries out the task on it there.
    pub(crate) fn prepare<'a, S: Source>(
        &'a self,
        src: &mut S,
        memory: TextMemory<'a>,
    ) -> Result<Ready<'a>, Fault>
        requires empty { memory.bytes ≡ [] }
        requires room { IsWorkLength memory.limit }
        requires index { HasValidIndex (as_task self.now) }
        ensures answered { let limit = limit_of memory.entry.limit in
            let task = as_task self.now in
            result ≢ Err (Read Input) → (input : List ℕ) × record {
              read : ReadsInput (source S.Source src.old src.new) (task_limit limit task) input;
              answer : result ≡ prepared limit task input;
            } }
        ensures failed { let limit = task_limit (limit_of memory.entry.limit) (as_task self.now) in
            result ≡ Err (Read Input) → ReadFails (source S.Source src.old src.new) limit }
        ensures full { IsSaturated (S.failures src.old) → result ≡ Err (Read Input) }
    {
        let mut meter = Meter::new();
        match self {
            Task::Encrypt {
                secrets,
                index,
                form,
                salt,
            } => prepare_encrypt_in(src, memory, secrets, *index, *form, salt, &mut meter),
            Task::Decrypt { secrets } => prepare_decrypt_in(src, memory, secrets, &mut meter),
            Task::Rekey { secrets, new, salt } => {
                prepare_rekey_in(src, memory, secrets, new, salt, &mut meter)
            }
        }
    }
}
