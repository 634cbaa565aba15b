//! What files need from the system, made up of calls that are recorded.
use super::System;
use super::host_files::{HostFile, HostFiles};
use std::fs::Files;
use std::io;
use std::io::ErrorKind;
use vault_text::ReadSource;

/// Readable and writable by its owner only.
const OWNER_ONLY: u32 = 0o600;

impl<'a, R: Files> System for HostFiles<'a, R> {
    ghost use Rattle.vault_files.specs.File.FileState.{Missing};
    ghost use Rattle.vault_files.specs.FileProofs.{any-break, any-prefix};
    ghost use Rattle.vault_files.specs.HostSystem.{Executed};
    ghost use Rattle.vault_files.specs.HostSystemProofs.{Executed-none, Executed-more};

    type Reader = ReadSource<R::File>;

    type Writer = HostFile<R>;

    ghost executes = { Executed };

    ghost executes_none = { Executed-none };

    ghost executes_more = { Executed-more };

    ghost finds = { λ s path file. Unit {0} };

    ghost reader_at = { λ s path reader. Unit {0} };

    ghost finds_some = { λ s path. (Missing, tt) };

    ghost opens_finds = { λ s t paths calls path file opens executes found. tt };

    ghost opens_reader = { λ s t paths calls path reader opens executes found. tt };

    ghost prefix_found = { λ s path r t xs n opened gives fits end unfailed. any-prefix xs n fits };

    ghost break_found = { λ s path r t xs n opened gives short risen. any-break xs n short };

    fn open(&mut self, path: &str) -> io::Result<ReadSource<R::File>> {
        self.open_to_read(path)
    }

    fn create(&mut self, path: &str) -> io::Result<HostFile<R>> {
        self.open_to_write(path, OWNER_ONLY)
    }

    fn chmod_owner_only(&mut self, file: &HostFile<R>) -> io::Result<()> {
        if !self.metadata(file)?.is_file() {
            return Ok(());
        }
        self.set_permissions(file, OWNER_ONLY)
    }

    fn truncate(&mut self, file: &HostFile<R>) -> io::Result<()> {
        if !self.metadata(file)?.is_file() {
            return Ok(());
        }
        self.set_len(file, 0)
    }

    fn write(&mut self, file: &mut HostFile<R>, bytes: &[u8]) -> io::Result<usize> {
        match self.write_some(file, bytes) {
            Ok(0) => Err(ErrorKind::WriteZero.into()),
            Ok(count) => Ok(count),
            Err(error) => Err(error),
        }
    }

    fn sync(&mut self, file: &HostFile<R>) -> io::Result<()> {
        match self.sync_all(file) {
            Ok(()) => Ok(()),
            Err(error) if error.kind() == ErrorKind::InvalidInput => Ok(()),
            Err(error) => Err(error),
        }
    }
}
