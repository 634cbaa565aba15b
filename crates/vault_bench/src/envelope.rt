//! Reading and writing envelopes.
ghost use Rattle.std.specs.Prelude.{◌≡◌, IfOk, length, vec_len};
ghost use Rattle.vault_text.specs.declared.limits.TheConstants.{CIPHERTEXT_LIMIT};

use std::alloc::{AllocError, Global};
use std::io::{self, Read, Write};
use vault_text::{CIPHERTEXT_LIMIT, EnvelopeReader, Label, Salt, Sink, WriteSink, write_envelope};

const PIECE: usize = 4096;

/// Takes all that it is given and looks at each byte, which costs little compared with writing it.
#[derive(Drop)]
struct Count {
    bytes: u64,
    sum: u64,
}

impl Write for Count {
    fn write(&mut self, bytes: &[u8]) -> io::Result<usize> {
        for byte in bytes {
            self.sum = self.sum.wrapping_add(u64::from(*byte));
        }
        self.bytes = self.bytes.wrapping_add(bytes.len() as u64);
        Ok(bytes.len())
    }

    fn flush(&mut self) -> io::Result<()> {
        Ok(())
    }
}

fn write_once(label: &Label, salt: &Salt, ciphertext: &[u8]) -> Count {
    let mut sink = WriteSink::new(Count { bytes: 0, sum: 0 });
    if let Ok(()) = sink.begin() {
        let _ = write_envelope(&mut sink, label, salt, &[9; 32], ciphertext);
    }
    sink.into_inner()
}

/// Writes an envelope of `length` ciphertext bytes `times` times; returns the length of its text.
pub(crate) fn write(alloc: Global, length: usize, times: u32) -> io::Result<u64> {
    let mut ciphertext = vec![in alloc; 0u8; length]?;
    let mut state: u32 = 1;
    for byte in ciphertext.iter_mut() {
        state = state.wrapping_mul(1664525).wrapping_add(1013904223);
        *byte = (state >> 24) as u8;
    }
    let Some(salt) = Salt::new(&[7; 32]) else {
        return Ok(0);
    };
    let mut count = Count { bytes: 0, sum: 0 };
    for _ in 0..times {
        count = write_once(&Label::default_label(), &salt, &ciphertext);
    }
    Ok(count.bytes)
}

/// The length of the ciphertext of an envelope that comes in pieces; 0 if it is not an envelope.
fn read_once(work: &mut [u8], text: &[u8]) -> usize
    requires { length work.old ≡ CIPHERTEXT_LIMIT }
{
    let mut reader = EnvelopeReader::new(work);
    for piece in text.chunks(PIECE) {
        reader.feed(piece);
    }
    match reader.finish() {
        Ok(payload) => payload.cipher().len(),
        Err(_) => 0,
    }
}

fn work_memory(alloc: Global) -> Result<Vec<u8>, AllocError>
    ensures { IfOk result (λ work. vec_len work ≡ CIPHERTEXT_LIMIT) }
{
    vec![in alloc; 0u8; CIPHERTEXT_LIMIT]
}

/// Reads the envelope on standard input `times` times; returns the length of its ciphertext.
pub(crate) fn read(rt: &HostRuntime, times: u32) -> io::Result<u64> {
    let mut text = Vec::new(rt.alloc());
    rt.stdin().read_to_end(&mut text)?;
    let mut work = work_memory(rt.alloc())?;
    let mut length = 0;
    for _ in 0..times {
        length = read_once(work.as_mut_slice(), text.as_slice());
    }
    Ok(length as u64)
}
