//! The memory of a run, which is reserved before any file is opened.
ghost use Rattle.std.specs.Prelude.{◌≡◌, ◌+◌, ◌≤◌, All, IfOk, length};
ghost use Rattle.std.specs.Prelude.{vec_capacity, vec_len};
ghost use Rattle.vault_core.specs.declared.limits.TheConstants.{PASSWORD_FILE_LIMIT};
ghost use Rattle.vault_request.specs.Request.{files_of};
ghost use Rattle.vault_text.specs.declared.limits.TheConstants.{CIPHERTEXT_LIMIT};
ghost use Rattle.vault_cli.specs.declared.limits.TheConstants.{SEALING_SALT_LENGTH};

use crate::limits::SEALING_SALT_LENGTH;
use std::alloc::{AllocError, Global};
use vault_core::PASSWORD_FILE_LIMIT;
use vault_request::Request;
use vault_text::CIPHERTEXT_LIMIT;

/// How much of the stack a run takes below `reserve`, in bytes: nine pages of 4 KiB, four of which
/// are the buffer for writing an envelope. No test shows that they are enough.
const STACK_LENGTH: usize = 9 * 4_096;

/// The memory of a run: reserved before any file is opened, then filled.
#[derive(Drop)]
pub(crate) struct RunMemory {
    /// Room for the longest text.
    pub text: Vec<u8>,
    /// A buffer for each password file, one byte longer than the limit; then the file's contents.
    pub secret_files: Vec<Vec<u8>>,
    pub salt: Vec<u8>,
}

/// Reserves all memory that a request needs. Also touches the stack: if it is too small, the
/// program ends here, before any file is opened.
pub(crate) fn reserve(alloc: Global, request: &Request) -> Result<RunMemory, AllocError>
    ensures text { IfOk result (λ memory. CIPHERTEXT_LIMIT ≤ vec_capacity memory.text) }
    ensures count { IfOk result (λ memory.
        vec_len memory.secret_files ≡ length (files_of request.now)) }
    ensures long { IfOk result (λ memory.
        All (λ buf. vec_len buf ≡ PASSWORD_FILE_LIMIT + 1) memory.secret_files.items) }
    ensures salt { IfOk result (λ memory. vec_len memory.salt ≡ SEALING_SALT_LENGTH) }
{
    let text = Vec::with_capacity(alloc, CIPHERTEXT_LIMIT)?;
    let mut salt = vec![in alloc; 0; SEALING_SALT_LENGTH]?;
    touch_stack(request.files(), salt.as_mut_slice());
    let secret_files = password_buffers(alloc, request.files())?;
    Ok(RunMemory {
        text,
        secret_files,
        salt,
    })
}

/// Touches the stack that a run needs: fills it with zeros and copies some of them to `buf`. Which
/// ones depends on `offset`, which the compiler does not know, so it cannot leave out any zeros.
#[inline(never)]
fn touch_stack(offset: usize, buf: &mut [u8])
    requires { length buf.old ≡ SEALING_SALT_LENGTH }
    ensures { length buf.new ≡ SEALING_SALT_LENGTH }
{
    let stack = [0; STACK_LENGTH];
    let start = offset % (STACK_LENGTH - SEALING_SALT_LENGTH);
    buf.copy_from_slice(&stack[start..start + SEALING_SALT_LENGTH]);
}

/// Buffers for this many password files, each one byte longer than the limit.
fn password_buffers(alloc: Global, count: usize) -> Result<Vec<Vec<u8>>, AllocError>
    ensures count { IfOk result (λ buffers. vec_len buffers ≡ count) }
    ensures length { IfOk result (λ buffers.
        All (λ buffer. vec_len buffer ≡ PASSWORD_FILE_LIMIT + 1) buffers.items) }
{
    let mut buffers = Vec::with_capacity(alloc, count)?;
    while buffers.len() < count {
        buffers.push(vec![in alloc; 0; PASSWORD_FILE_LIMIT + 1]?)?;
    }
    Ok(buffers)
}
