//! The derived texts of the fault types.
use std::alloc::Global;
use std::fmt::Display;
use std::process::Abort;
use std::test::Fail;
use vault_core::{ChoiceFault, Fault, ListFault, SecretFault, WriteFault};
use vault_files::FileFault;
use vault_text::{BadLabel, SinkFailed, SourceFailed, TextFault};

fn assert_text(
    rt: &impl Abort,
    alloc: Global,
    fault: &impl Display,
    text: &str,
) -> Result<(), Fail> {
    let shown = format!(in alloc; "{fault}")?;
    assert_eq!(rt; shown.as_str(), text);
    Ok(())
}

/// `vault_text`, which cannot name `Fault`, has its own texts, and they are the same.
#[test]
fn of_texts_and_labels(rt: HostRuntime) -> Result<(), Fail> {
    let alloc = rt.alloc();
    for fault in [
        TextFault::TooLong,
        TextFault::NotVault,
        TextFault::HeaderTooLong,
        TextFault::BadHeader,
        TextFault::BadVersion,
        TextFault::BadCipher,
        TextFault::BadHex,
        TextFault::BadPayload,
        TextFault::CipherTooLong,
    ] {
        assert_text(&rt, alloc, &fault, Fault::from(fault).text())?;
    }
    assert_text(&rt, alloc, &BadLabel, Fault::BadLabel.text())
}

/// The other faults of a run show the text of `Fault`.
#[test]
fn of_faults_of_a_run(rt: HostRuntime) -> Result<(), Fail> {
    let alloc = rt.alloc();
    assert_text(&rt, alloc, &Fault::Memory, Fault::Memory.text())?;
    assert_text(&rt, alloc, &WriteFault::Write, Fault::Write.text())?;
    let full = ListFault::TooManySecrets;
    assert_text(&rt, alloc, &full, Fault::TooManySecrets.text())?;
    let empty = SecretFault::SecretEmpty;
    assert_text(&rt, alloc, &empty, Fault::SecretEmpty.text())?;
    let unknown = ChoiceFault::UnknownEncryptId;
    assert_text(&rt, alloc, &unknown, Fault::UnknownEncryptId.text())
}

#[test]
fn of_devices(rt: HostRuntime) -> Result<(), Fail> {
    let alloc = rt.alloc();
    assert_text(&rt, alloc, &SourceFailed, "the source cannot be read")?;
    assert_text(&rt, alloc, &SinkFailed, "the sink cannot be written")?;
    assert_text(
        &rt,
        alloc,
        &FileFault::CannotOpen,
        "the file cannot be opened",
    )?;
    assert_text(
        &rt,
        alloc,
        &FileFault::CannotRead,
        "the file cannot be read",
    )
}
