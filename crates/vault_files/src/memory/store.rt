//! Files in memory.
ghost use Rattle.std.specs.Prelude.{◌≡◌, Some, MatchOption, OnOk, OnErr, map};
ghost use Rattle.std.specs.Option.{option_map};
ghost use Rattle.std.specs.String.{string_bytes};
ghost use Rattle.vault_files.specs.File.FileState.{Missing};
ghost use Rattle.vault_files.specs.Memory.{bytes_of, file_at, new_store, stands_at};
ghost use Rattle.vault_files.specs.PathLog.{new_log};

use super::file::{MemFile, MemFileReader};
use super::path_log::PathLog;
use crate::limits::PATH_LIMIT;
use crate::system::System;
use arrayvec::ArrayString;
use std::alloc::{AllocError, Global};
use std::io;
use std::io::ErrorKind;
use std::marker::Model;

/// A file that was created. Only contracts use `synced` and `cut`.
#[derive(Drop)]
struct Created {
    path: ArrayString<PATH_LIMIT>,
    bytes: Vec<u8>,
    synced: bool,
    cut: bool,
}

impl Model for Created {
    ghost use Rattle.std.specs.Prelude.{vec_capacity};
    ghost use Rattle.vault_files.specs.Memory.{Created};

    ghost Value = { Created };

    ghost view = { λ f. record {
      path = f.path.bytes;
      bytes = f.bytes.items;
      room = vec_capacity f.bytes;
      synced = f.synced;
      cut = f.cut;
    } };
}

/// A system whose files are in memory. Of two files under one path the first counts. `create` makes
/// an empty file, which replaces whatever was at its path, and which `open` does not read. A log
/// keeps the paths that were opened, whether or not there was a file, as long as it has room for
/// all of them.
#[derive(Drop)]
pub struct MemFiles<'a> {
    entries: &'a [MemFile<'a>],
    alloc: Global,
    created: Option<Created>,
    log: Option<PathLog>,
}

impl<'a> Model for MemFiles<'a> {
    ghost use Rattle.vault_files.specs.Memory.{StoreState};

    ghost Value = { StoreState };

    ghost view = { λ s. record { entries = s.entries.now; created = s.created; log = s.log } };
}

impl<'a> MemFiles<'a> {
    /// These files, without a log.
    pub fn new(alloc: Global, entries: &'a [MemFile<'a>]) -> Self
        ensures { result ≡ new_store entries.now }
    {
        MemFiles {
            entries,
            alloc,
            created: None,
            log: None,
        }
    }

    /// The bytes of the file at a path, up to where it breaks; None if there is no file.
    pub fn content(&self, path: &str) -> Option<&[u8]>
        ensures { option_map (λ bytes. bytes.now) result ≡ bytes_of (stands_at self.now path.now) }
    {
        match &self.created {
            Some(file) if file.path.as_str() == path => Some(file.bytes.as_slice()),
            _ => find(self.entries, path).map(|entry| entry.bytes),
        }
    }

    /// Begins a log with room for this many paths, each of at most `longest` bytes.
    pub fn keep_log(
        &mut self,
        alloc: Global,
        count: usize,
        longest: usize,
    ) -> Result<(), AllocError>
        ensures begun { OnOk result
            (self.new ≡ record self.old { log = Some (new_log count longest) }) }
        ensures refused { OnErr result (self.new ≡ self.old) }
    {
        self.log = Some(PathLog::new(alloc, count, longest)?);
        Ok(())
    }

    /// The paths that were opened since the log was begun, in order; None if there is no log, or if
    /// it had no room for one of them.
    pub fn log(&self) -> Option<&[String]>
        ensures { option_map (λ log. map string_bytes log.now) result
            ≡ option_map (λ log. log.paths) self.now.log }
    {
        self.log.as_ref().map(|log| log.paths.as_slice())
    }
}

/// The first file under a path.
fn find<'a>(entries: &'a [MemFile<'a>], path: &str) -> Option<&'a MemFile<'a>>
    ensures { MatchOption result (file_at entries.now path.now ≡ Missing)
        (λ entry. file_at entries.now path.now ≡ entry.now.file) }
{
    for entry in entries {
        if entry.path == path {
            return Some(entry);
        }
    }
    None
}

/// The file that was created.
#[derive(Drop)]
pub struct MemWriter;

impl<'a> System for MemFiles<'a> {
    ghost use Rattle.std.specs.Prelude.{◌≡◌, refl};
    ghost use Rattle.vault_files.specs.Memory.{IsReaderOf, StoreExecutes, file_at};
    ghost use Rattle.vault_files.specs.MemoryProofs.{StoreExecutes-more, break-given};
    ghost use Rattle.vault_files.specs.MemoryProofs.{opens-entries, prefix-given};

    type Reader = MemFileReader<'a>;

    type Writer = MemWriter;

    ghost executes = { StoreExecutes };

    ghost finds = { λ s path file. file ≡ file_at s.entries path };

    ghost reader_at = { λ s path reader. IsReaderOf (file_at s.entries path) reader };

    ghost executes_none = { λ s. refl };

    ghost executes_more = { StoreExecutes-more };

    ghost finds_some = { λ s path. (file_at s.entries path, refl) };

    ghost opens_finds = { λ s t paths calls path file opened executes found.
        rw (opens-entries s t paths calls opened executes) at found };

    ghost opens_reader = { λ s t paths calls path reader opened executes at.
        rw (opens-entries s t paths calls opened executes) at at };

    ghost prefix_found = { λ s path r t xs n opened gives fits end unfailed.
        let file = file_at s.entries path in
        let same = prefix-given file r t xs n opened gives fits end in
        record { file = file; found = refl; same = same } };

    ghost break_found = { λ s path r t xs n opened gives short risen.
        let file = file_at s.entries path in
        let same = break-given file r t xs n opened gives short risen in
        record { file = file; found = refl; same = same } };

    fn open(&mut self, path: &str) -> io::Result<MemFileReader<'a>> {
        self.log = self.log.take().and_then(|log| log.with(path));
        match find(self.entries, path) {
            Some(entry) => Ok(entry.reader()),
            None => Err(ErrorKind::NotFound.into()),
        }
    }

    fn create(&mut self, path: &str) -> io::Result<MemWriter> {
        let Ok(path) = ArrayString::from(path) else {
            return Err(ErrorKind::InvalidInput.into());
        };
        self.created = Some(Created {
            path,
            bytes: Vec::new(self.alloc),
            synced: false,
            cut: false,
        });
        Ok(MemWriter)
    }

    fn chmod_owner_only(&mut self, _file: &MemWriter) -> io::Result<()> {
        Ok(())
    }

    fn truncate(&mut self, _file: &MemWriter) -> io::Result<()> {
        if let Some(file) = &mut self.created {
            file.bytes.clear();
            file.synced = false;
        }
        Ok(())
    }

    fn write(&mut self, _file: &mut MemWriter, bytes: &[u8]) -> io::Result<usize> {
        let Some(file) = &mut self.created else {
            return Err(ErrorKind::Other.into());
        };
        match file.bytes.extend_from_slice(bytes) {
            Ok(()) => {
                file.synced = false;
                Ok(bytes.len())
            }
            Err(_) => {
                file.cut = true;
                Err(ErrorKind::OutOfMemory.into())
            }
        }
    }

    fn sync(&mut self, _file: &MemWriter) -> io::Result<()> {
        if let Some(file) = &mut self.created {
            file.synced = true;
        }
        Ok(())
    }
}
