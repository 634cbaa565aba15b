//! A body of endless line ends.
ghost use Rattle.std.specs.Prelude.{◌≡◌, IfOk, vec_len};
ghost use Rattle.vault_text.specs.declared.limits.TheConstants.{CIPHERTEXT_LIMIT};

use crate::CountingReader;
use std::alloc::{AllocError, Global};
use std::test::Fail;
use vault_core::{Fault, Secrets, prepare_decrypt};
use vault_kdf::Meter;
use vault_text::{CIPHERTEXT_LIMIT, ReadSource};

const HEADER_LINE: &[u8] = b"$ANSIBLE_VAULT;1.1;AES256\n";

/// As much memory as the limits need.
fn work_memory(alloc: Global) -> Result<Vec<u8>, AllocError>
    ensures { IfOk result (λ work. vec_len work ≡ CIPHERTEXT_LIMIT) }
{
    vec![in alloc; 0u8; CIPHERTEXT_LIMIT]
}

#[test]
fn refuse_endless_line_ends(rt: HostRuntime) -> Result<(), Fail> {
    let mut work = work_memory(rt.alloc())?;
    let mut reader = CountingReader::with_line_feeds(HEADER_LINE, usize::MAX, 4_096);
    let mut src = ReadSource::new(&mut reader);
    let (secrets, mut meter) = (Secrets::new(), Meter::new());
    let refused = prepare_decrypt(&mut src, work.as_mut_slice(), &secrets, &mut meter).err();
    assert_eq!(rt;
        (refused, reader.given),
        (Some(Fault::TooLong), 100_671_489)
    );
    Ok(())
}
