//! Texts in borrowed and in reserved memory.
use crate::contents::assert_bytes;
use std::process::Abort;
use std::test::Fail;
use vault_text::TextMemory;

/// Puts a piece if it fits, and returns the room that is left.
fn put(memory: &mut TextMemory, piece: &[u8]) -> usize {
    if piece.len() <= memory.room() {
        memory.put(piece);
    }
    memory.room()
}

/// Puts two pieces into memory of ten bytes.
fn put_pieces(rt: &impl Abort, memory: &mut TextMemory) {
    let rooms = [memory.room(), put(memory, b"abc"), put(memory, b"defg")];
    assert_eq!(rt; rooms, [10, 7, 3]);
}

/// Asserts that the memory contains the two pieces.
fn assert_text(rt: &impl Abort, memory: TextMemory) {
    assert_bytes(rt, memory.into_bytes(), b"abcdefg");
}

/// Asserts that the memory contains the two pieces, and that two more bytes fit.
fn assert_text_and_spare(rt: &impl Abort, memory: TextMemory) {
    assert!(rt; memory.room() >= 2);
    let text: &[u8] = memory.into_bytes_and_spare(2);
    assert_eq!(rt; (text.len(), text.starts_with(b"abcdefg")), (9, true));
}

#[test]
fn text_in_a_slice(rt: HostRuntime) {
    let mut bytes = *b"0123456789";
    let mut memory = TextMemory::borrowed(&mut bytes);
    put_pieces(&rt, &mut memory);
    assert_text(&rt, memory);
    assert_bytes(&rt, &bytes, b"abcdefg789");
}

#[test]
fn text_in_a_vector(rt: HostRuntime) -> Result<(), Fail> {
    let mut bytes = Vec::with_capacity(rt.alloc(), 16)?;
    bytes.extend_from_slice(b"what it held")?;
    let mut memory = TextMemory::reserved(&mut bytes, 10);
    put_pieces(&rt, &mut memory);
    assert_text_and_spare(&rt, memory);
    assert_eq!(rt; [bytes.len(), bytes.capacity()], [9, 16]);
    Ok(())
}
