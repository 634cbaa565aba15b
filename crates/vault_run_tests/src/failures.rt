//! Devices that fail at each of their calls in turn, and are then not called again.
use crate::narrow_writer::NarrowWriter;
use crate::trial::{Left, Trial};
use crate::watched::Watched;
use std::alloc::{AllocError, Global};
use std::process::Abort;
use std::test::Fail;
use vault_cli::{MemSink, MemSource, Status, WriteSink};
use vault_made::{block, envelope};
use vault_text::{FailingSink, FailingSource};

const ONE: &[&[u8]] = &[b"one\n"];

const TWO: &[&[u8]] = &[b"one\n", b"two\n"];

const ZEROS: &[u8] = &[0; 32];

fn decrypt() -> Trial<'static> {
    Trial::new(&["decrypt", "--vault-id=f1"], ONE, ZEROS)
}

fn encrypt() -> Trial<'static> {
    Trial::new(&["encrypt", "--vault-id=f1"], ONE, ZEROS)
}

fn encrypt_string() -> Trial<'static> {
    Trial::new(&["encrypt_string", "--vault-id=f1"], ONE, ZEROS)
}

fn rekey() -> Trial<'static> {
    Trial::new(&["rekey", "--vault-id=f1", "--new-vault-id=f2"], TWO, ZEROS)
}

/// A vault under the password `one`.
fn vault_of(alloc: Global, plaintext: &[u8]) -> Result<Vec<u8>, AllocError> {
    envelope(alloc, "default", b"one", ZEROS, plaintext)
}

/// The source gives the input one byte per call. It fails at each call in turn, and then at none.
/// It is not called again after it failed or reported the end.
fn assert_reads_reported(
    rt: &impl Abort,
    alloc: Global,
    trial: &Trial<'_>,
    input: &[u8],
) -> Result<(), Fail> {
    for calls in 0..=input.len() + 1 {
        let mut src = Watched::new(FailingSource::new(input, 1, calls));
        let ran = trial.run_from(alloc, &mut src)?;
        let left = ran.left()?;
        let expected = if calls > input.len() {
            Left::success(left.output)
        } else {
            Left::failure(Status::DeviceFailed, "ERROR! the input cannot be read\n")
        };
        assert_eq!(rt;
            (left, src.asked_after),
            (expected, 0),
            "{:?} {calls}",
            trial.words
        );
    }
    Ok(())
}

#[test]
fn reports_each_read_that_fails(rt: HostRuntime) -> Result<(), Fail> {
    let alloc = rt.alloc();
    let vault = vault_of(alloc, b"")?;
    assert_eq!(rt; vault.len(), 355);
    assert_reads_reported(&rt, alloc, &decrypt(), vault.as_slice())?;
    assert_reads_reported(&rt, alloc, &rekey(), vault.as_slice())?;
    assert_reads_reported(&rt, alloc, &encrypt(), b"text")?;
    assert_reads_reported(&rt, alloc, &encrypt_string(), b"text")
}

/// Runs the trial between sinks that take one byte per call and fail after these many calls.
/// Asserts what that leaves, and that neither sink is called again after it failed.
fn assert_leaves(
    rt: &impl Abort,
    alloc: Global,
    trial: &Trial<'_>,
    input: &[u8],
    calls: (usize, usize),
    expected: Left<'_>,
) -> Result<(), Fail> {
    let mut src = MemSource::new(input, 1_000);
    let mut out = Watched::new(FailingSink::new(alloc, 1, calls.0));
    let mut err = Watched::new(FailingSink::new(alloc, 1, calls.1));
    let status = trial.run_between(alloc, &mut src, &mut out, &mut err)?;
    let left = Left {
        status,
        begun: out.device.begun(),
        output: out.device.bytes(),
        message: str::from_utf8(err.device.bytes())?,
    };
    let found = (left, out.asked_after, err.asked_after);
    assert_eq!(rt; found, (expected, 0, 0), "{:?} {calls:?}", trial.words);
    Ok(())
}

/// The same if only the sink of the output fails. It has taken the first bytes of this output.
fn assert_write_reported(
    rt: &impl Abort,
    alloc: Global,
    trial: &Trial<'_>,
    input: &[u8],
    output: &[u8],
    calls: usize,
) -> Result<(), Fail> {
    let taken = calls.saturating_sub(1).min(output.len());
    let failed = Left {
        begun: calls > 0,
        output: &output[..taken],
        ..Left::failure(
            Status::DeviceFailed,
            "ERROR! the output cannot be written\n",
        )
    };
    assert_leaves(rt, alloc, trial, input, (calls, usize::MAX), failed)
}

/// The sink fails at each call in turn, and then at none.
fn assert_writes_reported(
    rt: &impl Abort,
    alloc: Global,
    trial: &Trial<'_>,
    input: &[u8],
    output: &[u8],
) -> Result<(), Fail> {
    for calls in 0..=output.len() + 1 {
        assert_write_reported(rt, alloc, trial, input, output, calls)?;
    }
    let calls = (output.len() + 2, usize::MAX);
    assert_leaves(rt, alloc, trial, input, calls, Left::success(output))
}

#[test]
fn reports_each_write_that_fails(rt: HostRuntime) -> Result<(), Fail> {
    let alloc = rt.alloc();
    let plain = b"aaaaaaaaaaaaaaa".as_slice();
    let vault = vault_of(alloc, plain)?;
    let block = block(alloc, "", vault.as_slice())?;
    let (vault, block) = (vault.as_slice(), block.as_slice());
    assert_writes_reported(&rt, alloc, &decrypt(), vault, plain)?;
    assert_writes_reported(&rt, alloc, &encrypt(), plain, vault)?;
    assert_writes_reported(&rt, alloc, &encrypt_string(), plain, block)
}

#[test]
fn reports_each_write_of_rekey_that_fails(rt: HostRuntime) -> Result<(), Fail> {
    let alloc = rt.alloc();
    let vault = vault_of(alloc, b"text")?;
    let rekeyed = envelope(alloc, "default", b"two", ZEROS, b"text")?;
    assert_writes_reported(&rt, alloc, &rekey(), vault.as_slice(), rekeyed.as_slice())
}

const PLAINTEXT: &[u8; 200] = &[b'p'; 200];

/// One fails at its 102nd call, after 100 bytes, and one at its 202nd, at `finish`.
#[test]
fn reports_a_sink_that_fails(rt: HostRuntime) -> Result<(), Fail> {
    let alloc = rt.alloc();
    let vault = vault_of(alloc, PLAINTEXT)?;
    let vault = vault.as_slice();
    assert_write_reported(&rt, alloc, &decrypt(), vault, PLAINTEXT, 101)?;
    assert_write_reported(&rt, alloc, &decrypt(), vault, PLAINTEXT, 201)
}

/// One writer is full before the end, and the other fails to flush.
#[test]
fn reports_a_writer_that_fails(rt: HostRuntime) -> Result<(), Fail> {
    let alloc = rt.alloc();
    let vault = vault_of(alloc, PLAINTEXT)?;
    for room in [100, 200] {
        let mut src = MemSource::new(vault.as_slice(), 1_000);
        let mut out = WriteSink::new(NarrowWriter::new(alloc, room));
        let mut err = MemSink::new(alloc, 4_096);
        let status = decrypt().run_between(alloc, &mut src, &mut out, &mut err)?;
        let taken = out.into_inner().taken.len();
        let line = b"ERROR! the output cannot be written\n".as_slice();
        let left = (status, taken, err.bytes());
        assert_eq!(rt; left, (Status::DeviceFailed, room, line));
    }
    Ok(())
}

/// The error sink fails at `begin`, at a byte and at `finish`, or, with many calls, not at all.
#[test]
fn keeps_the_status_where_the_message_fails(rt: HostRuntime) -> Result<(), Fail> {
    let line = b"ERROR! input is not vault encrypted data\n";
    assert_eq!(rt; line.len(), 41);
    let trial = Trial::new(&["view"], &[], &[]);
    for calls in [0usize, 1, 20, 42, 100] {
        let taken = calls.saturating_sub(1).min(line.len());
        let left = Left::refused(str::from_utf8(&line[..taken])?);
        assert_leaves(&rt, rt.alloc(), &trial, b"", (usize::MAX, calls), left)?;
    }
    Ok(())
}
