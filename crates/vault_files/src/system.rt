//! The system calls that files make.
ghost use Rattle.std.specs.Prelude.{◌≡◌, ℕ, ◌<◌, ◌≤◌, ◌⊎◌, List, [], ◌∷◌, ◌++◌, length, take};
ghost use Rattle.std.specs.Prelude.{IsTrue, Ok, Err, IfOk, IfErr, false};
ghost use Rattle.std.specs.Result.{result_map_both};
ghost use Rattle.vault_text.specs.Failures.{CountsFailure, HasRisen};
ghost use Rattle.vault_files.specs.File.{Answers, FileState};
ghost use Rattle.vault_files.specs.File.FileState.{Missing};
ghost use Rattle.vault_files.specs.System.{OpenCalls, Opens, SystemCall, called, wrote};
ghost use Rattle.vault_files.specs.System.SystemCall.{Open, Create, ChmodOwnerOnly, Truncate};
ghost use Rattle.vault_files.specs.System.SystemCall.{Sync};
ghost use Rattle.vault_files.specs.declared.fault.FileFault.TheVariants.{CannotOpen, CannotRead};

mod host_files;
mod host_system;

use crate::fault::FileFault;
pub use host_files::HostFiles;
use std::io;
use vault_text::{Source, fill_up};

/// Everything that files need from the system. Each method makes one system call, but
/// `chmod_owner_only` and `truncate` first check whether the file is a regular one.
pub trait System {
    type Reader: Source + Drop;

    type Writer: Drop;

    // Between two states these calls were made, in this order.
    ghost executes: { Self → List SystemCall → Self → Type 0 };

    // What may be found at a path.
    ghost finds: { Self → List ℕ → FileState → Type 0 };

    // Opening the path gives this reader.
    ghost reader_at: { Self → List ℕ → Self.Reader → Type 0 };

    /// Opens a file for reading. Its reader has met neither the end nor a failure.
    fn open(&mut self, path: &str) -> io::Result<Self::Reader>
        ensures executes { executes self.old (called (Open path.now) result ∷ []) self.new }
        ensures reader { IfOk result (λ reader. reader_at self.old path.now reader) }
        ensures unended { IfOk result (λ reader. Self.Reader.ended reader ≡ false) }
        ensures unfailed { IfOk result (λ reader. Self.Reader.failures reader ≡ 0) }
        ensures missing { IfErr result (λ _. finds self.old path.now Missing) };

    /// Opens a file for writing, as it is. If there is none, it is created for its owner only, less
    /// the umask.
    fn create(&mut self, path: &str) -> io::Result<Self::Writer>
        ensures { executes self.old (called (Create path.now) result ∷ []) self.new };

    /// Makes a regular file readable and writable by its owner only.
    fn chmod_owner_only(&mut self, file: &Self::Writer) -> io::Result<()>
        ensures { executes self.old (called ChmodOwnerOnly result ∷ []) self.new };

    /// Truncates a regular file to zero bytes.
    fn truncate(&mut self, file: &Self::Writer) -> io::Result<()>
        ensures { executes self.old (called Truncate result ∷ []) self.new };

    /// Writes a prefix of the bytes and returns its length, which is not 0 if there are any bytes.
    /// A failed call writes none.
    fn write(&mut self, file: &mut Self::Writer, bytes: &[u8]) -> io::Result<usize>
        ensures executes { executes self.old (wrote bytes.now result ∷ []) self.new }
        ensures progress { 0 < length bytes.now → IfOk result (λ n. 1 ≤ n) }
        ensures bound { IfOk result (λ n. n ≤ length bytes.now) };

    /// Syncs the bytes written to the file's device, if the device can be synced.
    fn sync(&mut self, file: &Self::Writer) -> io::Result<()>
        ensures { executes self.old (called Sync result ∷ []) self.new };

    ghost executes_none: { (s : Self) → executes s [] s };

    ghost executes_more: { (s t u : Self) (xs ys : List SystemCall)
        → executes s xs t → executes t ys u → executes s (xs ++ ys) u };

    // Something may be found at each path.
    ghost finds_some: { (s : Self) (path : List ℕ) → (file : FileState) × finds s path file };

    // Whatever may be found after opens could be found before them.
    ghost opens_finds: { (s t : Self) (paths : List (List ℕ)) (calls : List SystemCall)
        (path : List ℕ) (file : FileState)
        → OpenCalls paths calls → executes s calls t → finds t path file → finds s path file };

    // Any reader that opening may give after opens, it could give before them.
    ghost opens_reader: { (s t : Self) (paths : List (List ℕ)) (calls : List SystemCall)
        (path : List ℕ) (r : Self.Reader)
        → OpenCalls paths calls → executes s calls t → reader_at t path r → reader_at s path r };

    // The bytes that a reader gave to its end, or up to a limit, without a failure, are a prefix of
    // a file that may be found.
    ghost prefix_found: { (s : Self) (path : List ℕ) (r t : Self.Reader) (xs : List ℕ) (n : ℕ)
        → reader_at s path r → Self.Reader.gives r xs t → length xs ≤ n
        → IsTrue (Self.Reader.ended t) ⊎ (length xs ≡ n)
        → Self.Reader.failures t ≡ Self.Reader.failures r → Answers (finds s path) n (Ok xs) };

    // If the reader failed before that, such a file breaks there.
    ghost break_found: { (s : Self) (path : List ℕ) (r t : Self.Reader) (xs : List ℕ) (n : ℕ)
        → reader_at s path r → Self.Reader.gives r xs t → length xs < n
        → HasRisen (Self.Reader.failures r) (Self.Reader.failures t)
        → Answers (finds s path) n (Err CannotRead) };
}

/// Opens a file for reading. Returns `CannotOpen` if that fails, for whatever reason.
pub fn open<D: System>(system: &mut D, path: &str) -> Result<D::Reader, FileFault>
    ensures opens { Opens D.executes system.old (path.now ∷ []) system.new }
    ensures reader { IfOk result (λ reader. D.reader_at system.old path.now reader) }
    ensures fault { IfErr result (λ fault. fault ≡ CannotOpen) }
    ensures missing { IfErr result (λ _. D.finds system.old path.now Missing) }
{
    system.open(path).map_err(|_| FileFault::CannotOpen)
}

/// What an open file gave of its prefix, in the buffer that it was read into. Nobody can read on,
/// since the reader is private.
#[derive(Drop)]
pub struct Prefix<R> {
    /// The number of bytes, from the start of the buffer, or `CannotRead`.
    pub length: Result<usize, FileFault>,
    reader: R,
}

/// Opens a file, and reads a prefix of it into the start of `buf`. It is shorter than `buf` only if
/// the file has no more bytes. After a failure nothing more is read, and the contents of `buf` are
/// unspecified.
pub fn read_prefix<D: System>(
    system: &mut D,
    path: &str,
    buf: &mut [u8],
) -> Result<Prefix<D::Reader>, FileFault>
    ensures opens { Opens D.executes system.old (path.now ∷ []) system.new }
    ensures bound { IfOk result (λ prefix. IfOk prefix.length (λ n. n ≤ length buf.new)) }
    ensures prefix { IfOk result (λ prefix.
        Answers (D.finds system.old path.now) (length buf.new)
        (result_map_both (λ n. take n buf.new) (λ fault. fault) prefix.length)) }
    ensures gives { IfOk result (λ prefix.
        (opened : D.Reader) × D.reader_at system.old path.now opened
        × (bytes : List ℕ) × D.Reader.gives opened bytes prefix.reader
        × IfOk prefix.length (λ n. bytes ≡ take n buf.new)
        × CountsFailure (D.Reader.failures opened) (D.Reader.failures prefix.reader)
        prefix.length) }
    ensures unopened { IfErr result (λ fault. fault ≡ CannotOpen) }
    ensures refused { IfErr result (λ fault.
        Answers (D.finds system.old path.now) (length buf.new) (Err fault)) }
{
    let mut reader = open(system, path)?;
    let length = fill_up(&mut reader, buf).map_err(|_| FileFault::CannotRead);
    Ok(Prefix { length, reader })
}
