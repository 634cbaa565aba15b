//! Loading what a request needs from its files before its input is read.
ghost use Rattle.std.specs.Prelude.{◌≡◌, ◌≢◌, ◌+◌, [], ◌∷◌, All, length, map, vec_len};
ghost use Rattle.std.specs.Prelude.{option_to_list, Ok, Err, IfOk, IfErr, OnOk};
ghost use Rattle.vault_files.specs.File.FileState.{Missing};
ghost use Rattle.vault_files.specs.System.{Opens};
ghost use Rattle.vault_fault.specs.declared.fault.Fault.TheVariants.{CannotOpen, Memory};
ghost use Rattle.vault_fault.specs.declared.fault.Role.TheVariants.{Input};
ghost use Rattle.vault_cli.specs.runs.FileContents.{AtPath, file_fault, request_paths};
ghost use Rattle.vault_cli.specs.runs.FileContents.{secret_paths};
ghost use Rattle.vault_cli.specs.Loaded.{ContentsFound, PrefixFound, SaltFound};
ghost use Rattle.vault_cli.specs.Loaded.{RefusedBy, SecretsRefuse};
ghost use Rattle.vault_core.specs.declared.limits.TheConstants.{PASSWORD_FILE_LIMIT};
ghost use Rattle.vault_cli.specs.declared.limits.TheConstants.{SEALING_SALT_LENGTH};
ghost use Rattle.vault_request.specs.Request.{files_of};

use vault_core::{Fault, Role};
use vault_files::{FileFault, System, open, read_prefix};
use vault_request::Request;

/// Reads the password files and the salt of a request into their buffers, and opens its input file.
/// Stops at the first of them that is refused.
pub(crate) fn load<D: System>(
    sys: &mut D,
    request: &Request,
    secret_files: &mut [Vec<u8>],
    salt: &mut Vec<u8>,
) -> Result<Option<D::Reader>, Fault>
    requires count { length secret_files.old ≡ length (files_of request.now) }
    requires long { All (λ buf. vec_len buf ≡ PASSWORD_FILE_LIMIT + 1) secret_files.old }
    requires salt { vec_len salt.old ≡ SEALING_SALT_LENGTH }
    ensures count { length secret_files.new ≡ length secret_files.old }
    ensures secrets { OnOk result
        (ContentsFound (D.finds sys.old) (secret_paths request.now)
        (Ok (map (λ file. file.items) secret_files.new))) }
    ensures salt { OnOk result
        (SaltFound (D.finds sys.old) request.now.salt_path (Ok salt.new.items)) }
    ensures input { IfOk result (λ input. AtPath (D.reader_at sys.old) request.now.input input) }
    ensures opens { OnOk result (Opens D.executes sys.old (request_paths request.now) sys.new) }
    ensures refused { IfErr result (λ fault.
        RefusedBy (D.finds sys.old) (λ paths. Opens D.executes sys.old paths sys.new)
        request.now fault) }
    ensures memory_suffices { IfErr result (λ fault. fault ≢ Memory) }
{
    read_secret_files(sys, request, secret_files)?;
    read_salt(sys, request, salt)?;
    open_input(sys, request)
}

/// The fault of a file in its role.
fn file_fault(role: Role, fault: FileFault) -> Fault
    ensures { result ≡ file_fault role fault }
{
    match fault {
        FileFault::CannotOpen => Fault::CannotOpen(role),
        FileFault::CannotRead => Fault::Read(role),
    }
}

/// Fills a buffer from the start of a file, and truncates it to the bytes that the file has.
fn fill_from<D: System>(sys: &mut D, role: Role, path: &str, buf: &mut Vec<u8>) -> Result<(), Fault>
    ensures opens { Opens D.executes sys.old (path.now ∷ []) sys.new }
    ensures read { OnOk result
        (PrefixFound (D.finds sys.old path.now) role (vec_len buf.old) (Ok buf.new.items)) }
    ensures refused { IfErr result (λ fault.
        PrefixFound (D.finds sys.old path.now) role (vec_len buf.old) (Err fault)) }
    ensures memory_suffices { IfErr result (λ fault. fault ≢ Memory) }
{
    let answer = read_prefix(sys, path, buf.as_mut_slice()).and_then(|prefix| prefix.length);
    let length = answer.map_err(|fault| file_fault(role, fault))?;
    buf.truncate(length);
    Ok(())
}

/// Reads the password files, in order, each up to one byte past the limit.
fn read_secret_files<D: System>(
    sys: &mut D,
    request: &Request,
    bufs: &mut [Vec<u8>],
) -> Result<(), Fault>
    requires count { length bufs.old ≡ length (files_of request.now) }
    requires long { All (λ buf. vec_len buf ≡ PASSWORD_FILE_LIMIT + 1) bufs.old }
    ensures count { length bufs.new ≡ length bufs.old }
    ensures read { OnOk result
        (ContentsFound (D.finds sys.old) (secret_paths request.now)
        (Ok (map (λ file. file.items) bufs.new))) }
    ensures opens { OnOk result (Opens D.executes sys.old (secret_paths request.now) sys.new) }
    ensures refused { IfErr result (λ fault.
        SecretsRefuse (D.finds sys.old) (λ paths. Opens D.executes sys.old paths sys.new)
        (secret_paths request.now) fault) }
    ensures memory_suffices { IfErr result (λ fault. fault ≢ Memory) }
{
    for i in 0..request.files() {
        fill_from(sys, Role::Secret, request.path(i), &mut bufs[i])?;
    }
    Ok(())
}

/// Reads the salt of a request: the first 32 bytes of its salt file, or none if it names no file.
fn read_salt<D: System>(sys: &mut D, request: &Request, buf: &mut Vec<u8>) -> Result<(), Fault>
    requires length { vec_len buf.old ≡ SEALING_SALT_LENGTH }
    ensures opens { Opens D.executes sys.old (option_to_list request.now.salt_path) sys.new }
    ensures read { OnOk result
        (SaltFound (D.finds sys.old) request.now.salt_path (Ok buf.new.items)) }
    ensures refused { IfErr result (λ fault.
        SaltFound (D.finds sys.old) request.now.salt_path (Err fault)) }
    ensures memory_suffices { IfErr result (λ fault. fault ≢ Memory) }
{
    match request.salt_path() {
        Some(path) => fill_from(sys, Role::Salt, path, buf),
        None => {
            buf.clear();
            Ok(())
        }
    }
}

/// Opens the input file of a request, if it names one.
fn open_input<D: System>(sys: &mut D, request: &Request) -> Result<Option<D::Reader>, Fault>
    ensures opens { Opens D.executes sys.old (option_to_list request.now.input) sys.new }
    ensures opened { IfOk result (λ input. AtPath (D.reader_at sys.old) request.now.input input) }
    ensures fault { IfErr result (λ fault. fault ≡ CannotOpen Input) }
    ensures missing { IfErr result (λ _.
        AtPath (D.finds sys.old) request.now.input (Some Missing)) }
{
    let Some(path) = request.input() else {
        return Ok(None);
    };
    let reader = open(sys, path).map_err(|fault| file_fault(Role::Input, fault))?;
    Ok(Some(reader))
}
