//! Files in memory.
use crate::prefixes::assert_reads;
use std::process::Abort;
use std::test::Fail;
use vault_files::{Access, FileFault, FileOutput, MemFile, MemFiles};
use vault_text::{Sink, SinkFailed, put_all};

#[test]
fn reads_prefixes(rt: HostRuntime) {
    let entries = [
        MemFile::whole("one", b"abc"),
        MemFile::whole("one", b"later"),
    ];
    let mut files = MemFiles::new(rt.alloc(), &entries);
    assert_reads(&rt, &mut files, "one", &mut [0; 4], Ok(b"abc"));
    assert_reads(&rt, &mut files, "one", &mut [0; 2], Ok(b"ab"));
}

#[test]
fn reports_files_that_break_or_are_missing(rt: HostRuntime) {
    let entries = [MemFile::broken("two", b"abc")];
    let mut files = MemFiles::new(rt.alloc(), &entries);
    let (breaks, missing) = (Err(FileFault::CannotRead), Err(FileFault::CannotOpen));
    assert_reads(&rt, &mut files, "two", &mut [0; 3], Ok(b"abc"));
    assert_reads(&rt, &mut files, "two", &mut [0; 4], breaks);
    assert_reads(&rt, &mut files, "none", &mut [0; 4], missing);
}

/// Asserts that a file with these bytes is at the path, or none.
fn assert_content(rt: &impl Abort, files: &MemFiles, path: &str, bytes: Option<&[u8]>) {
    assert_eq!(rt; (path, files.content(path)), (path, bytes));
}

/// Writes an output at the path.
fn write_new(files: &mut MemFiles<'_>, path: &str) -> Result<(), SinkFailed> {
    let mut output = FileOutput::new(files, path, Access::Kept);
    output.begin()?;
    put_all(&mut output, b"new")?;
    output.finish()
}

#[test]
fn keeps_what_is_written(rt: HostRuntime) -> Result<(), Fail> {
    let alloc = rt.alloc();
    let entries = [MemFile::whole("one", b"abc"), MemFile::whole("two", b"de")];
    let mut files = MemFiles::new(alloc, &entries);
    assert_content(&rt, &files, "one", Some(b"abc"));
    write_new(&mut files, "one")?;
    assert_content(&rt, &files, "one", Some(b"new"));
    assert_content(&rt, &files, "two", Some(b"de"));
    assert_content(&rt, &files, "none", None);
    Ok(())
}

/// Whether these are the paths of the log.
fn has_opened(files: &MemFiles, paths: &[&str]) -> bool {
    let Some(log) = files.log() else {
        return false;
    };
    log.len() == paths.len()
        && log
            .iter()
            .zip(paths)
            .all(|(logged, path)| logged.as_str() == *path)
}

#[test]
fn logs_each_open(rt: HostRuntime) -> Result<(), Fail> {
    let alloc = rt.alloc();
    let entries = [MemFile::whole("one", b"abc")];
    let mut files = MemFiles::new(alloc, &entries);
    files.keep_log(alloc, 3, 4)?;
    let mut buf = [0; 4];
    let missing = Err(FileFault::CannotOpen);
    assert_reads(&rt, &mut files, "none", &mut buf, missing);
    assert_reads(&rt, &mut files, "one", &mut buf, Ok(b"abc"));
    assert_reads(&rt, &mut files, "one", &mut buf, Ok(b"abc"));
    write_new(&mut files, "out")?;
    assert!(rt; has_opened(&files, &["none", "one", "one"]));
    Ok(())
}

#[test]
fn ends_a_log_that_has_no_room(rt: HostRuntime) -> Result<(), Fail> {
    let alloc = rt.alloc();
    let mut files = MemFiles::new(alloc, &[]);
    let missing = Err(FileFault::CannotOpen);
    assert!(rt; files.log().is_none());
    files.keep_log(alloc, 1, 4)?;
    assert_reads(&rt, &mut files, "none", &mut [0; 1], missing);
    assert!(rt; has_opened(&files, &["none"]));
    assert_reads(&rt, &mut files, "one", &mut [0; 1], missing);
    assert!(rt; files.log().is_none());
    files.keep_log(alloc, 1, 3)?;
    assert_reads(&rt, &mut files, "none", &mut [0; 1], missing);
    assert!(rt; files.log().is_none());
    Ok(())
}
