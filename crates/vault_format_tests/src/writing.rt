//! Envelopes as they are written. The texts were made in Python: `bytes.hex` of salt, tag and
//! ciphertext joined by line feeds, then `bytes.hex` of that, cut every 80 digits.
use crate::contents::assert_bytes;
use std::alloc::{AllocError, Global};
use std::process::Abort;
use std::test::Fail;
use vault_text::{FailingSink, Label, MemSink, Salt, Sink, SinkFailed, TAG_LENGTH, write_envelope};

/// Label, length of the salt, length of the ciphertext, and the envelope. The last line is full
/// unless the ciphertext has 16 bytes.
const ENVELOPES: [(&str, u16, u16, &str); 3] = [
    (
        "default",
        0,
        7,
        "\
         $ANSIBLE_VAULT;1.1;AES256\n\
         0a666666656664666366626661663966386637663666356634663366326631663065666565656465\n\
         636562656165396538653765366535653465336532653165300a3035313031623236333133633437\n\
         ",
    ),
    (
        "dev",
        1,
        6,
        "\
         $ANSIBLE_VAULT;1.2;AES256;dev\n\
         30330a66666665666466636662666166396638663766366635663466336632663166306566656565\n\
         6465636562656165396538653765366535653465336532653165300a303531303162323633313363\n\
         ",
    ),
    (
        "a b",
        32,
        16,
        "\
         $ANSIBLE_VAULT;1.2;AES256;a b\n\
         30333061313131383166323632643334336234323439353035373565363536633733376138313838\n\
         3866393639646134616262326239633063376365643564630a666666656664666366626661663966\n\
         38663766366635663466336632663166306566656565646563656265616539653865376536653565\n\
         3465336532653165300a303531303162323633313363343735323564363837333765383939343966\n\
         6161\n\
         ",
    ),
];

/// `length` bytes, of which byte i is `step * i + first` modulo 256.
fn counting(alloc: Global, length: u16, step: u8, first: u8) -> Result<Vec<u8>, AllocError> {
    let mut bytes = Vec::new(alloc);
    let mut byte = first;
    for _ in 0..length {
        bytes.push(byte)?;
        byte = byte.wrapping_add(step);
    }
    Ok(bytes)
}

fn tag() -> [u8; TAG_LENGTH] {
    let mut tag = [0; TAG_LENGTH];
    let mut next: u8 = 255;
    for byte in tag.iter_mut() {
        *byte = next;
        next = next.wrapping_sub(1);
    }
    tag
}

/// The envelope with these lengths of salt and ciphertext, as it is written into memory.
fn envelope(alloc: Global, label: &str, salt_length: u16, length: u16) -> Result<Vec<u8>, Fail> {
    let salt = counting(alloc, salt_length, 7, 3)?;
    let salt = Salt::new(salt.as_slice()).ok_or("long salt")?;
    let ciphertext = counting(alloc, length, 11, 5)?;
    let mut sink = MemSink::new(alloc, 7);
    sink.begin()?;
    write_envelope(
        &mut sink,
        &Label::new(label)?,
        &salt,
        &tag(),
        ciphertext.as_slice(),
    )?;
    sink.finish()?;
    Ok(sink.bytes().to_vec(alloc)?)
}

#[test]
fn envelopes_are_those_of_another_implementation(rt: HostRuntime) -> Result<(), Fail> {
    for (label, salt_length, length, text) in ENVELOPES {
        let written = envelope(rt.alloc(), label, salt_length, length)?;
        assert_bytes(&rt, written.as_slice(), text.as_bytes());
    }
    Ok(())
}

/// The first has only full lines.
#[test]
fn lengths_of_envelopes(rt: HostRuntime) -> Result<(), Fail> {
    for (salt_length, length, written) in [(3, 64, 431), (1, 16, 229), (64, 16, 484)] {
        let envelope = envelope(rt.alloc(), "default", salt_length, length)?;
        assert_eq!(rt; envelope.len(), written);
    }
    Ok(())
}

/// A sink of one byte per call, which fails after these many calls, begun and then given an
/// envelope of 551 bytes.
fn failing(alloc: Global, calls: usize) -> Result<(FailingSink, Result<(), SinkFailed>), Fail> {
    let salt = Salt::new(&[0; 32]).ok_or("long salt")?;
    let mut sink = FailingSink::new(alloc, 1, calls);
    sink.begin()?;
    let written = write_envelope(
        &mut sink,
        &Label::new("b")?,
        &salt,
        &[0; TAG_LENGTH],
        &[0; 64],
    );
    Ok((sink, written))
}

#[test]
fn a_failing_sink_holds_a_prefix(rt: HostRuntime) -> Result<(), Fail> {
    let alloc = rt.alloc();
    let (sink, written) = failing(alloc, 552)?;
    let whole = sink.bytes();
    assert_eq!(rt; (written, whole.len()), (Ok(()), 551));
    for taken in 0..whole.len() {
        let (sink, written) = failing(alloc, taken + 1)?;
        assert_eq!(rt; (written, sink.bytes()), (Err(SinkFailed), &whole[..taken]));
    }
    Ok(())
}

#[test]
fn a_failing_sink_may_not_begin(rt: HostRuntime) {
    let mut sink = FailingSink::new(rt.alloc(), 1, 0);
    let answer = sink.begin();
    assert_eq!(rt; (answer, sink.begun()), (Err(SinkFailed), false));
}
