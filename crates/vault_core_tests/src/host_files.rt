//! Files of the system.
use crate::prefixes::assert_reads;
use std::test::Fail;
use vault_files::{Access, FileFault, FileOutput, HostFiles};
use vault_text::{Sink, put_all};

#[test]
fn reads_files_of_the_system(rt: HostRuntime) {
    let mut files = HostFiles::new(&rt);
    let mut buf = [1; 4];
    assert_reads(&rt, &mut files, "/dev/zero", &mut buf, Ok(&[0; 4]));
    assert_reads(&rt, &mut files, "/dev/null", &mut buf, Ok(b""));
    assert_reads(&rt, &mut files, "/", &mut buf, Err(FileFault::CannotRead));
    assert_reads(&rt, &mut files, "", &mut buf, Err(FileFault::CannotOpen));
}

/// Whether the file at the path can be begun, and whether it then takes a text.
fn begins_and_takes(rt: &HostRuntime, path: &str) -> (bool, bool) {
    let mut files = HostFiles::new(rt);
    let mut output = FileOutput::new(&mut files, path, Access::Kept);
    if output.begin().is_err() {
        return (false, false);
    }
    (true, put_all(&mut output, b"text").is_ok())
}

#[test]
fn reports_what_cannot_be_written(rt: HostRuntime) {
    let answers = [
        begins_and_takes(&rt, "/"),
        begins_and_takes(&rt, "/dev/full"),
        begins_and_takes(&rt, "/dev/null"),
    ];
    assert_eq!(rt; answers, [(false, false), (true, false), (true, true)]);
}
