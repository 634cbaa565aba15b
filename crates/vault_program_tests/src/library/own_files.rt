//! A custom `System`: a password that a program has in memory, under every path.
ghost use Rattle.std.specs.Prelude.{◌≡◌};
ghost use Rattle.vault_program_tests.specs.OnePassword.{no_output};

use std::alloc::{AllocError, Global};
use std::io;
use std::io::ErrorKind;
use std::marker::Model;
use vault_cli::{MemSink, MemSource, Stage, Status, System, drive_over};

/// Every path has the password, and the output of `--output` is kept in memory.
#[derive(Drop)]
pub struct OnePassword<'a> {
    password: &'a [u8],
    output: Vec<u8>,
}

impl<'a> Model for OnePassword<'a> {
    ghost use Rattle.vault_program_tests.specs.OnePassword.{OnePassword};

    ghost Value = { OnePassword };

    ghost view = { λ files. record { password = files.password.now; output = files.output.items } };
}

impl<'a> OnePassword<'a> {
    pub fn new(alloc: Global, password: &'a [u8]) -> Self
        ensures { result ≡ no_output password.now }
    {
        OnePassword {
            password,
            output: Vec::new(alloc),
        }
    }

    /// The bytes written to the output.
    pub fn output(&self) -> &[u8]
        ensures { result.now ≡ self.now.output }
    {
        self.output.as_slice()
    }
}

impl<'a> System for OnePassword<'a> {
    ghost use Rattle.std.specs.Prelude.{◌≡◌, refl};
    ghost use Rattle.vault_files.specs.File.FileState.{Whole};
    ghost use Rattle.vault_program_tests.specs.OnePassword.{after, new_reader};
    ghost use Rattle.vault_program_tests.specs.OnePasswordProofs.{after-more, opens-same};
    ghost use Rattle.vault_program_tests.specs.OnePasswordProofs.{prefix-found, break-found};

    type Reader = MemSource<'a>;

    type Writer = ();

    ghost executes = { λ s calls t. t ≡ after s calls };

    ghost finds = { λ s path file. file ≡ Whole s.password };

    ghost reader_at = { λ s path reader. reader ≡ new_reader s.password };

    ghost executes_none = { λ s. refl };

    ghost executes_more = { after-more };

    ghost finds_some = { λ s path. (Whole s.password, refl) };

    ghost opens_finds = { λ s t paths calls path file opened executes found.
        rw (opens-same s t paths calls opened executes) at found };

    ghost opens_reader = { λ s t paths calls path reader opened executes at.
        rw (opens-same s t paths calls opened executes) at at };

    ghost prefix_found = { λ s path r t xs n opened gives fits end unfailed.
        prefix-found s.password r t xs n opened gives fits end };

    ghost break_found = { λ s path r t xs n opened gives short risen. break-found risen };

    fn open(&mut self, _path: &str) -> io::Result<MemSource<'a>> {
        Ok(MemSource::new(self.password, 4_096))
    }

    fn create(&mut self, _path: &str) -> io::Result<()> {
        Ok(())
    }

    fn chmod_owner_only(&mut self, _file: &()) -> io::Result<()> {
        Ok(())
    }

    fn truncate(&mut self, _file: &()) -> io::Result<()> {
        self.output.clear();
        Ok(())
    }

    fn write(&mut self, _file: &mut (), bytes: &[u8]) -> io::Result<usize> {
        match self.output.extend_from_slice(bytes) {
            Ok(()) => Ok(bytes.len()),
            Err(_) => Err(ErrorKind::OutOfMemory.into()),
        }
    }

    fn sync(&mut self, _file: &()) -> io::Result<()> {
        Ok(())
    }
}

/// Runs `ansible-vault decrypt` over these files, which also receive the plaintext.
pub fn decrypt_with(
    alloc: Global,
    files: &mut OnePassword<'_>,
    vault: &[u8],
    err: &mut MemSink,
) -> Result<Status, AllocError>
    requires err_unbegun { err.old.stage ≡ Stage.Unbegun }
{
    let mut words = Vec::new(alloc);
    for word in [
        "ansible-vault",
        "decrypt",
        "--vault-password-file=any",
        "--output=any",
    ] {
        words.push(String::from_str(alloc, word)?)?;
    }
    let mut src = MemSource::new(vault, 4_096);
    let mut out = MemSink::new(alloc, 4_096);
    Ok(drive_over(files, alloc, words.as_slice(), &mut src, &mut out, err))
}
