//! How often a reader or a writer is called within one call of a source or a sink.
ghost use Rattle.std.specs.Prelude.{◌≤◌, IfOk};

use std::io;
use std::io::{Read, Write};
use std::process::Abort;
use std::test::Fail;
use vault_text::{ReadSource, Sink, SinkFailed, Source, SourceFailed, WriteSink, fill_up, put_all};

/// A reader of the byte `x` and a writer, of one byte per call. One of its calls is interrupted, or
/// takes nothing, and every other call succeeds. It counts its calls.
#[derive(Drop)]
struct FailsOnce {
    failing_call: usize,
    takes_nothing: bool,
    calls: usize,
}

impl FailsOnce {
    /// The call with this number, from 1, is interrupted.
    fn interrupted(failing_call: usize) -> Self {
        FailsOnce {
            failing_call,
            takes_nothing: false,
            calls: 0,
        }
    }

    /// The call with this number, from 1, takes nothing.
    fn stuck(failing_call: usize) -> Self {
        FailsOnce {
            failing_call,
            takes_nothing: true,
            calls: 0,
        }
    }

    fn answer(&mut self, count: usize) -> io::Result<usize>
        ensures { IfOk result (λ n. n ≤ count) }
    {
        self.calls = self.calls.saturating_add(1);
        if self.calls != self.failing_call {
            return Ok(count);
        }
        if self.takes_nothing {
            return Ok(0);
        }
        Err(io::ErrorKind::Interrupted.into())
    }
}

impl Read for FailsOnce {
    fn read(&mut self, buf: &mut [u8]) -> io::Result<usize> {
        let count = self.answer(buf.len().min(1))?;
        buf[..count].fill(b'x');
        Ok(count)
    }
}

impl Write for FailsOnce {
    fn write(&mut self, buf: &[u8]) -> io::Result<usize> {
        self.answer(buf.len().min(1))
    }

    fn flush(&mut self) -> io::Result<()> {
        self.answer(0)?;
        Ok(())
    }
}

/// The results of a source's calls, and how often its reader was called for them.
type Given<'a> = (&'a [Result<usize, SourceFailed>], usize);

fn assert_given(rt: &impl Abort, given: Given<'_>, expected: Given<'_>) {
    assert_eq!(rt; given, expected);
}

#[test]
fn a_source_asks_its_reader_once_a_call(rt: HostRuntime) {
    let mut reader = FailsOnce::interrupted(2);
    let mut source = ReadSource::new(&mut reader);
    let mut buf = [0; 4];
    let counts = [
        source.fill(&mut buf),
        source.fill(&mut buf),
        source.fill(&mut buf),
    ];
    let expected = [Ok(1), Err(SourceFailed), Ok(1)];
    assert_given(&rt, (&counts, reader.calls), (&expected, 3));
}

#[test]
fn a_source_asks_no_more_after_the_end(rt: HostRuntime) {
    let mut reader = FailsOnce::stuck(2);
    let mut source = ReadSource::new(&mut reader);
    let mut buf = [0; 4];
    let counts = [fill_up(&mut source, &mut buf), source.fill(&mut buf)];
    assert_given(&rt, (&counts, reader.calls), (&[Ok(1), Ok(0)], 2));
}

#[test]
fn reading_stops_at_a_failure(rt: HostRuntime) {
    let mut reader = FailsOnce::interrupted(3);
    let mut source = ReadSource::new(&mut reader);
    let mut buf = [0; 8];
    let filled = fill_up(&mut source, &mut buf);
    assert_given(&rt, (&[filled], reader.calls), (&[Err(SourceFailed)], 3));
}

/// Asserts that each call of a sink is one call of this writer, whose second call fails.
fn assert_asked_once_a_call(rt: &impl Abort, writer: FailsOnce) -> Result<(), SinkFailed> {
    let mut sink = WriteSink::new(writer);
    sink.begin()?;
    let counts = [sink.put(b"ab"), sink.put(b"bc"), sink.put(b"bc")];
    sink.finish()?;
    let calls = sink.into_inner().calls;
    assert_eq!(rt; (counts, calls), ([Ok(1), Err(SinkFailed), Ok(1)], 4));
    Ok(())
}

#[test]
fn a_sink_asks_its_writer_once_a_call(rt: HostRuntime) -> Result<(), Fail> {
    assert_asked_once_a_call(&rt, FailsOnce::interrupted(2))?;
    assert_asked_once_a_call(&rt, FailsOnce::stuck(2))?;
    Ok(())
}

/// Asserts that this writer, whose first call fails, is not called again.
fn assert_asked_no_more(rt: &impl Abort, writer: FailsOnce) -> Result<(), SinkFailed> {
    let mut sink = WriteSink::new(writer);
    sink.begin()?;
    let answer = put_all(&mut sink, b"ab");
    assert_eq!(rt; (answer, sink.into_inner().calls), (Err(SinkFailed), 1));
    Ok(())
}

#[test]
fn writing_stops_at_a_failure(rt: HostRuntime) -> Result<(), Fail> {
    assert_asked_no_more(&rt, FailsOnce::interrupted(1))?;
    assert_asked_no_more(&rt, FailsOnce::stuck(1))?;
    Ok(())
}

#[test]
fn a_sink_flushes_once_a_call(rt: HostRuntime) -> Result<(), Fail> {
    let mut sink = WriteSink::new(FailsOnce::interrupted(1));
    sink.begin()?;
    assert_eq!(rt; sink.finish(), Err(SinkFailed));
    sink.finish()?;
    assert_eq!(rt; sink.into_inner().calls, 2);
    Ok(())
}
