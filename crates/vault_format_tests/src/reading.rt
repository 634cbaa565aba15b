//! Envelopes, read in pieces.
use crate::contents::Contents;
use std::alloc::{AllocError, Global};
use std::process::Abort;
use std::test::Fail;
use vault_text::{EnvelopeReader, PADDING_LIMIT, Payload, TAG_LENGTH, TextFault};

/// The length of the memory that the tests lend: room for 100 bytes of plaintext.
const WORK_LENGTH: usize = 100 + PADDING_LIMIT;

/// The longest input that is read with such memory: 6 times 100 and 8,192 bytes.
const INPUT_LIMIT: usize = 8_792;

const HEADER: &str = "$ANSIBLE_VAULT;1.1;AES256";

/// The body with an empty salt, a tag of zeros and an empty ciphertext.
const EMPTY: [&str; 2] = [
    "0a303030303030303030303030303030303030303030303030303030303030303030303030303030",
    "303030303030303030303030303030303030303030303030300a",
];

/// The same body in capital letters.
const UPPER: [&str; 2] = [
    "0A303030303030303030303030303030303030303030303030303030303030303030303030303030",
    "303030303030303030303030303030303030303030303030300A",
];

/// A body that Python's `binascii.hexlify` made.
const FILLED: [&str; 4] = [
    "3730363537303730363537323230363136653634323037333631366337340a303030313032303330",
    "34303530363037303830393061306230633064306530663130313131323133313431353136313731",
    "3831393161316231633164316531660a663066316632663366346635663666376638663966616662",
    "66636664666566663330333133323333333433353336333733383339363136323633363436353636",
];

/// The body that Python's `hashlib` and `hmac` and the command `openssl` made from an empty
/// plaintext, under the password `one` and a salt of 32 zero bytes.
const SEALED: [&str; 5] = [
    "30303030303030303030303030303030303030303030303030303030303030303030303030303030",
    "3030303030303030303030303030303030303030303030300a646261356632616236383736383333",
    "36316365333839386139633038326230656535323235323865313237336635323366343736646637",
    "6433613136373661350a363633383332653666323033313135623661653338623736353030386664",
    "6533",
];

/// The header line and the lines, each ended by `end`.
fn text_of(alloc: Global, header: &str, lines: &[&str], end: &str) -> Result<Vec<u8>, AllocError> {
    let mut text = Vec::from_slice(alloc, header.as_bytes())?;
    text.extend_from_slice(end.as_bytes())?;
    for line in lines {
        text.extend_from_slice(line.as_bytes())?;
        text.extend_from_slice(end.as_bytes())?;
    }
    Ok(text)
}

/// Asserts that the reader gave this answer.
fn assert_answer(
    rt: &impl Abort,
    reading: Result<Payload<'_>, TextFault>,
    expected: Result<Contents<'_>, TextFault>,
) {
    match (reading, expected) {
        (Ok(payload), Ok(contents)) => assert_eq!(rt; Contents::of(&payload), contents),
        (reading, expected) => assert_eq!(rt; reading.err(), expected.err()),
    }
}

/// Asserts that the reader gives this answer, if the input is cut in two at any place, with an
/// empty piece in between, and if it comes in single bytes, with empty pieces in between.
fn assert_read(rt: &impl Abort, input: &[u8], expected: Result<Contents<'_>, TextFault>) {
    let mut work = [0; WORK_LENGTH];
    for cut in 0..=input.len() {
        let mut reader = EnvelopeReader::new(&mut work);
        reader.feed(&input[..cut]);
        reader.feed(&[]);
        reader.feed(&input[cut..]);
        assert_answer(rt, reader.finish(), expected);
    }
    let mut reader = EnvelopeReader::new(&mut work);
    for byte in input.chunks(1) {
        reader.feed(byte);
        reader.feed(&[]);
    }
    assert_answer(rt, reader.finish(), expected);
}

#[test]
fn all_parts_of_an_envelope(rt: HostRuntime) -> Result<(), Fail> {
    let input = text_of(rt.alloc(), "$ANSIBLE_VAULT;1.2;AES256;dev", &FILLED, "\n")?;
    let contents = Contents {
        label: "dev",
        salt: b"pepper and salt",
        tag: b"\x00\x01\x02\x03\x04\x05\x06\x07\x08\x09\x0a\x0b\x0c\x0d\x0e\x0f\
               \x10\x11\x12\x13\x14\x15\x16\x17\x18\x19\x1a\x1b\x1c\x1d\x1e\x1f",
        ciphertext: b"\xf0\xf1\xf2\xf3\xf4\xf5\xf6\xf7\xf8\xf9\xfa\xfb\xfc\xfd\xfe\xff\
                  0123456789abcdef",
    };
    assert_read(&rt, input.as_slice(), Ok(contents));
    Ok(())
}

#[test]
fn an_envelope_of_no_plaintext(rt: HostRuntime) -> Result<(), Fail> {
    let input = text_of(rt.alloc(), HEADER, &SEALED, "\n")?;
    assert_eq!(rt; input.len(), 355);
    let contents = Contents {
        label: "default",
        salt: &[0; 32],
        tag: b"\xdb\xa5\xf2\xab\x68\x76\x83\x36\x1c\xe3\x89\x8a\x9c\x08\x2b\x0e\
               \xe5\x22\x52\x8e\x12\x73\xf5\x23\xf4\x76\xdf\x7d\x3a\x16\x76\xa5",
        ciphertext: b"\x66\x38\x32\xe6\xf2\x03\x11\x5b\x6a\xe3\x8b\x76\x50\x08\xfd\xe3",
    };
    assert_read(&rt, input.as_slice(), Ok(contents));
    Ok(())
}

/// Inputs and their first faults.
const FAULTS: [(&str, TextFault); 9] = [
    ("", TextFault::NotVault),
    ("$ANSIBLE_VAUL", TextFault::NotVault),
    ("$ANSIBLE_VAULT", TextFault::BadHeader),
    ("$ANSIBLE_VAULT;1.1;AES256", TextFault::BadPayload),
    ("$ANSIBLE_VAULT;1.0;AES\n", TextFault::BadVersion),
    ("$ANSIBLE_VAULT;1.1;AES\n", TextFault::BadCipher),
    ("$ANSIBLE_VAULT;1.1\n", TextFault::BadHeader),
    ("$ANSIBLE_VAULT;1.1;AES256\n0a0a", TextFault::BadPayload),
    ("$ANSIBLE_VAULT;1.1;AES256\nabc", TextFault::BadHex),
];

#[test]
fn first_fault(rt: HostRuntime) -> Result<(), Fail> {
    for (input, fault) in FAULTS {
        assert_read(&rt, input.as_bytes(), Err(fault));
    }
    let mut long = text_of(rt.alloc(), HEADER, &[], "")?;
    long.resize(257, b';')?;
    assert_read(&rt, long.as_slice(), Err(TextFault::HeaderTooLong));
    let [first, second] = EMPTY;
    let spaced = text_of(rt.alloc(), HEADER, &[first, " ", second], "\n")?;
    assert_read(&rt, spaced.as_slice(), Err(TextFault::BadHex));
    Ok(())
}

/// Asserts that this is the empty envelope, with this label.
fn assert_empty(rt: &impl Abort, input: &[u8], label: &str) {
    let contents = Contents {
        label,
        salt: b"",
        tag: &[0; TAG_LENGTH],
        ciphertext: b"",
    };
    assert_read(rt, input, Ok(contents));
}

#[test]
fn lines_of_any_form(rt: HostRuntime) -> Result<(), Fail> {
    let alloc = rt.alloc();
    let spaced = "$ANSIBLE_VAULT; 1.2 ;AES256; ;x";
    for (header, body, end) in [
        (HEADER, EMPTY, "\n"),
        (HEADER, EMPTY, "\r\n"),
        (HEADER, UPPER, "\n"),
        (spaced, EMPTY, "\n"),
    ] {
        let input = text_of(alloc, header, &body, end)?;
        assert_empty(&rt, input.as_slice(), "default");
    }
    let mut no_last_end = text_of(alloc, HEADER, &EMPTY, "\n")?;
    assert_eq!(rt; no_last_end.pop(), Some(b'\n'));
    assert_empty(&rt, no_last_end.as_slice(), "default");
    let mut single_digits = text_of(alloc, HEADER, &[], "\n")?;
    let [first, second] = EMPTY;
    for digit in first.as_bytes().iter().chain(second.as_bytes()) {
        single_digits.extend_from_slice(&[*digit, b'\n'])?;
    }
    assert_empty(&rt, single_digits.as_slice(), "default");
    Ok(())
}

#[test]
fn first_lines_that_name_a_label(rt: HostRuntime) -> Result<(), Fail> {
    for (header, label) in [
        ("$ANSIBLE_VAULTX;1.1;AES256;dev", "dev"),
        ("$ANSIBLE_VAULT;1.2;AES256;a b", "a b"),
    ] {
        let input = text_of(rt.alloc(), header, &EMPTY, "\n")?;
        assert_empty(&rt, input.as_slice(), label);
    }
    Ok(())
}

/// The length of the ciphertext, or the fault.
fn length_of(input: &[u8]) -> Result<usize, TextFault> {
    let mut work = [0; WORK_LENGTH];
    let mut reader = EnvelopeReader::new(&mut work);
    reader.feed(input);
    let payload = reader.finish()?;
    Ok(payload.cipher().len())
}

#[test]
fn no_envelope_over_the_limit(rt: HostRuntime) -> Result<(), Fail> {
    let mut input = text_of(rt.alloc(), HEADER, &["zz"], "\n")?;
    input.resize(INPUT_LIMIT, b'\n')?;
    assert_eq!(rt; length_of(input.as_slice()), Err(TextFault::BadHex));
    input.push(b'\n')?;
    assert_eq!(rt; length_of(input.as_slice()), Err(TextFault::TooLong));
    Ok(())
}

#[test]
fn no_ciphertext_over_the_limit(rt: HostRuntime) -> Result<(), Fail> {
    let mut input = text_of(rt.alloc(), HEADER, &EMPTY, "\n")?;
    for _ in 0..WORK_LENGTH {
        input.extend_from_slice(b"3030")?;
    }
    assert_eq!(rt; length_of(input.as_slice()), Ok(WORK_LENGTH));
    input.extend_from_slice(b"3030")?;
    assert_eq!(rt; length_of(input.as_slice()), Err(TextFault::CipherTooLong));
    Ok(())
}
