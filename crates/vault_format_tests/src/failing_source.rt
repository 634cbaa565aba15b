//! A source that fails after a number of calls.
use std::process::Abort;
use vault_text::{FailingSource, Source, SourceFailed, fill_up};

/// Asserts that a source of two bytes per call, which fails after `calls` calls, fills a buffer
/// with these bytes and this answer, and that the call after that fails.
fn assert_fills(rt: &impl Abort, calls: usize, answer: Result<usize, SourceFailed>, taken: &str) {
    let mut buf = [0; 16];
    let mut source = FailingSource::new(b"abcdefg", 2, calls);
    let filled = fill_up(&mut source, &mut buf);
    let starts = buf.starts_with(taken.as_bytes());
    let next = source.fill(&mut buf);
    assert_eq!(rt;
        (calls, filled, starts, next),
        (calls, answer, true, Err(SourceFailed))
    );
}

#[test]
fn fails_after_its_calls(rt: HostRuntime) {
    assert_fills(&rt, 0, Err(SourceFailed), "");
    assert_fills(&rt, 1, Err(SourceFailed), "ab");
    assert_fills(&rt, 2, Err(SourceFailed), "abcd");
    assert_fills(&rt, 3, Err(SourceFailed), "abcdef");
    assert_fills(&rt, 5, Ok(7), "abcdefg");
}
