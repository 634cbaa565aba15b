//! The files of the system, and a record of the calls on them. Only this module can call the
//! standard library on these files, and only it can add to the record.
ghost use Rattle.std.specs.Prelude.{◌≡◌, ◌∷◌, ◌++◌, ◌≤◌, IfOk, [], false, length};
ghost use Rattle.std.specs.Fs.{file_type};
ghost use Rattle.vault_files.specs.HostCall.{done, noted, outcome};

mod call_log;
mod host_call;

use call_log::CallLog;
use host_call::{HostCall, Outcome};
use std::fs::{FileType, Files, Metadata, OpenFile, OpenOptions, Permissions};
use std::io::Write;
use std::marker::Model;
use std::os::unix::fs::{OpenOptionsExt, PermissionsExt};
use std::{fs, io};
use vault_text::ReadSource;

/// The files of the system. A clause sees it as the calls that were made on them so far.
#[derive(Drop)]
pub struct HostFiles<'a, R: Files> {
    files: &'a R,
    log: CallLog,
}

impl<'a, R: Files> Model for HostFiles<'a, R> {
    ghost use Rattle.vault_files.specs.HostCall.{HostCalls};

    ghost Value = { HostCalls };

    ghost view = { λ host. host.log.calls };
}

/// A file that was opened for writing. Only this module can call the standard library on it.
#[derive(Drop)]
pub struct HostFile<R: Files> {
    file: R::File,
}

/// The outcome of a call, of whose value nothing is recorded.
fn done<T>(called: &io::Result<T>) -> Outcome<()>
    ensures { result ≡ done called.now }
{
    match called {
        Ok(_) => Ok(()),
        Err(error) => Err(error.kind()),
    }
}

/// The outcome of `metadata`.
fn type_found(metadata: &io::Result<Metadata>) -> Outcome<FileType>
    ensures { result ≡ outcome file_type metadata.now }
{
    match metadata {
        Ok(metadata) => Ok(metadata.file_type()),
        Err(error) => Err(error.kind()),
    }
}

/// The outcome of `write`.
fn count_written(written: &io::Result<usize>) -> Outcome<usize>
    ensures { result ≡ outcome (λ count. count) written.now }
{
    match written {
        Ok(count) => Ok(*count),
        Err(error) => Err(error.kind()),
    }
}

impl<'a, R: Files> HostFiles<'a, R> {
    pub fn new(files: &'a R) -> Self
        ensures { result ≡ [] }
    {
        HostFiles {
            files,
            log: CallLog::new(),
        }
    }

    /// Adds a call to the record.
    fn note(&mut self, call: HostCall<&[u8]>)
        ensures { self.new ≡ noted self.old call.entry }
    {
        self.log = self.log.with(&call);
    }
}

/// The calls on the files of the system. These methods are trusted: each makes one call of the
/// standard library, notes this call and its outcome, and returns its result. Nothing else in the
/// program calls the standard library on a file, except to read it, and to open a directory in
/// place of a closed stream.
impl<'a, R: Files> HostFiles<'a, R> {
    pub(super) fn open_to_read(&mut self, path: &str) -> io::Result<ReadSource<R::File>>
        ensures call { self.new ≡ self.old ++ HostCall.OpenToRead path.now (done result) ∷ [] }
        ensures unended { IfOk result (λ reader. reader.device.ended ≡ false) }
        ensures unfailed { IfOk result (λ reader. reader.device.failures ≡ 0) }
    {
        let opened = fs::open(self.files, path);
        self.note(HostCall::OpenToRead(path.as_bytes(), done(&opened)));
        opened.map(ReadSource::new)
    }

    pub(super) fn open_to_write(&mut self, path: &str, mode: u32) -> io::Result<HostFile<R>>
        ensures { self.new ≡ self.old ++ HostCall.OpenToWrite path.now mode (done result) ∷ [] }
    {
        let mut options = OpenOptions::new();
        options.write(true).create(true);
        options.mode(mode);
        let opened = options.open(self.files, path);
        self.note(HostCall::OpenToWrite(path.as_bytes(), mode, done(&opened)));
        match opened {
            Ok(file) => Ok(HostFile { file }),
            Err(error) => Err(error),
        }
    }

    pub(super) fn metadata(&mut self, file: &HostFile<R>) -> io::Result<Metadata>
        ensures { self.new ≡ self.old ++ HostCall.Metadata (outcome file_type result) ∷ [] }
    {
        let metadata = file.file.metadata();
        self.note(HostCall::Metadata(type_found(&metadata)));
        metadata
    }

    pub(super) fn set_permissions(&mut self, file: &HostFile<R>, mode: u32) -> io::Result<()>
        ensures { self.new ≡ self.old ++ HostCall.SetPermissions mode (done result) ∷ [] }
    {
        let changed = file.file.set_permissions(Permissions::from_mode(mode));
        self.note(HostCall::SetPermissions(mode, done(&changed)));
        changed
    }

    pub(super) fn set_len(&mut self, file: &HostFile<R>, size: u64) -> io::Result<()>
        ensures { self.new ≡ self.old ++ HostCall.SetLen size (done result) ∷ [] }
    {
        let changed = file.file.set_len(size);
        self.note(HostCall::SetLen(size, done(&changed)));
        changed
    }

    pub(super) fn write_some(&mut self, file: &mut HostFile<R>, bytes: &[u8]) -> io::Result<usize>
        ensures call { self.new
            ≡ self.old ++ HostCall.Write bytes.now (outcome (λ count. count) result) ∷ [] }
        ensures bound { IfOk result (λ count. count ≤ length bytes.now) }
    {
        let written = file.file.write(bytes);
        self.note(HostCall::Write(bytes, count_written(&written)));
        written
    }

    pub(super) fn sync_all(&mut self, file: &HostFile<R>) -> io::Result<()>
        ensures { self.new ≡ self.old ++ HostCall.SyncAll (done result) ∷ [] }
    {
        let synced = file.file.sync_all();
        self.note(HostCall::SyncAll(done(&synced)));
        synced
    }
}
