//! A reader that counts.
use std::io;
use std::io::Read;

/// A reader that gives some bytes and then one byte again and again, at most `step` bytes per call
/// and `left` bytes in all. It counts the bytes that it gave.
#[derive(Drop)]
pub struct CountingReader<'a> {
    prefix: &'a [u8],
    rest: u8,
    step: usize,
    left: usize,
    pub given: usize,
}

impl<'a> CountingReader<'a> {
    /// Only these bytes.
    pub fn new(bytes: &'a [u8], step: usize) -> Self {
        CountingReader {
            prefix: bytes,
            rest: 0,
            step,
            left: bytes.len(),
            given: 0,
        }
    }

    /// These bytes, followed by line feeds up to this total length.
    pub fn with_line_feeds(bytes: &'a [u8], length: usize, step: usize) -> Self {
        CountingReader {
            prefix: bytes,
            rest: b'\n',
            step,
            left: length,
            given: 0,
        }
    }
}

impl Read for CountingReader<'_> {
    fn read(&mut self, buf: &mut [u8]) -> io::Result<usize> {
        let mut count = buf.len().min(self.step).min(self.left);
        if self.prefix.is_empty() {
            buf[..count].fill(self.rest);
        } else {
            count = count.min(self.prefix.len());
            let (prefix, later) = self.prefix.split_at(count);
            buf[..count].copy_from_slice(prefix);
            self.prefix = later;
        }
        self.left = self.left.saturating_sub(count);
        self.given = self.given.saturating_add(count);
        Ok(count)
    }
}
