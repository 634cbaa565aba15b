//! A writer that fails.
use std::alloc::Global;
use std::io;
use std::io::Write;

/// A writer that takes at most 16 bytes per call, and `room` bytes in all. Once it is full, all
/// calls fail, even a flush.
#[derive(Drop)]
pub struct NarrowWriter {
    pub taken: Vec<u8>,
    room: usize,
}

impl NarrowWriter {
    pub fn new(alloc: Global, room: usize) -> Self {
        NarrowWriter {
            taken: Vec::new(alloc),
            room,
        }
    }
}

impl Write for NarrowWriter {
    fn write(&mut self, buf: &[u8]) -> io::Result<usize> {
        if self.room == 0 {
            return Err(io::ErrorKind::Other.into());
        }
        let count = buf.len().min(16).min(self.room);
        self.taken.extend_from_slice(&buf[..count])?;
        self.room = self.room.saturating_sub(count);
        Ok(count)
    }

    fn flush(&mut self) -> io::Result<()> {
        if self.room == 0 {
            return Err(io::ErrorKind::Other.into());
        }
        Ok(())
    }
}
