//! The header line of an envelope: `$ANSIBLE_VAULT;1.1;AES256`, or format 1.2 with a label after
//! one more semicolon.
ghost use Rattle.std.specs.Prelude.{◌≡◌, ◌==◌, ◌≤◌, [], ◌∷◌, ◌++◌, length, nat_le, is_some};
ghost use Rattle.std.specs.Prelude.{IfSome, IfNone};
ghost use Rattle.std.specs.List.{before_first, list_all, position_or_len, slice_split};
ghost use Rattle.vault_text.specs.Header.{field, header_line, is_ascii, is_line_end};
ghost use Rattle.vault_text.specs.Header.{parts_of_line, read_header};

use crate::fault::TextFault;
use crate::label::Label;
use crate::limits::HEADER_LIMIT;
use crate::whitespace::strip;

/// The bytes that every vault begins with.
pub const MARKER: &[u8; 14] = b"$ANSIBLE_VAULT";

/// The fields that are read from a header line, without whitespace at their ends. The label is
/// empty if the line has none.
#[derive(Drop)]
struct Fields<'a> {
    version: &'a [u8],
    cipher: &'a [u8],
    label: &'a [u8],
}

/// Whether the byte is LF or CR.
pub(crate) fn is_line_end(byte: u8) -> bool
    ensures { result ≡ is_line_end byte }
{
    byte == b'\n' || byte == b'\r'
}

/// The bytes before the first line end, or all if there is none.
pub(crate) fn before_line_end(input: &[u8]) -> &[u8]
    ensures line { result.now ≡ header_line input.now }
    ensures inside { length result.now ≤ length input.now }
{
    let mut end = 0;
    while end < input.len() && !is_line_end(input[end]) {
        end += 1;
    }
    &input[..end]
}

/// The position of the first such byte, or the length if there is none.
pub(crate) fn position_of(bytes: &[u8], byte: u8) -> usize
    ensures place { result ≡ position_or_len (λ b. b == byte) bytes.now }
    ensures inside { result ≤ length bytes.now }
{
    let mut place = 0;
    while place < bytes.len() && bytes[place] != byte {
        place += 1;
    }
    place
}

/// The part before the first such byte, and the part after it if there is one.
pub(crate) fn split_at_byte(bytes: &[u8], byte: u8) -> (&[u8], Option<&[u8]>)
    ensures before { result.0.now ≡ before_first (λ b. b == byte) bytes.now }
    ensures found { IfSome result.1 (λ rest. bytes.now ≡ result.0.now ++ byte ∷ rest.now) }
    ensures whole { IfNone result.1 (bytes.now ≡ result.0.now) }
    ensures parts { IfSome result.1 (λ rest.
        slice_split (λ b. b == byte) bytes.now
        ≡ result.0.now ∷ slice_split (λ b. b == byte) rest.now) }
    ensures one_part { IfNone result.1 (slice_split (λ b. b == byte) bytes.now
        ≡ result.0.now ∷ []) }
{
    let place = position_of(bytes, byte);
    if place < bytes.len() {
        (&bytes[..place], Some(&bytes[place + 1..]))
    } else {
        (bytes, None)
    }
}

/// The fields of a header line; None if it has fewer than three.
fn fields_of(line: &[u8]) -> Option<Fields<'_>>
    ensures enough { is_some result ≡ nat_le 3 (length (parts_of_line line.now)) }
    ensures version { IfSome result (λ fields. fields.version.now ≡ field 1 line.now) }
    ensures cipher { IfSome result (λ fields. fields.cipher.now ≡ field 2 line.now) }
    ensures label { IfSome result (λ fields. fields.label.now ≡ field 3 line.now) }
{
    let (_, rest) = split_at_byte(line, b';');
    let (version, rest) = split_at_byte(rest?, b';');
    let (cipher, rest) = split_at_byte(rest?, b';');
    let label = match rest {
        Some(rest) => split_at_byte(rest, b';').0,
        None => &[],
    };
    Some(Fields {
        version: strip(version),
        cipher: strip(cipher),
        label: strip(label),
    })
}

fn is_ascii(line: &[u8]) -> bool
    ensures { result ≡ list_all is_ascii line.now }
{
    line.iter().all(|byte| *byte < 128)
}

/// The label that a header line names. The line is given without its line end.
#[tactic(auto, unfolding(crate::specs::Header::read_header))]
pub(crate) fn read_header(line: &[u8]) -> Result<Label, TextFault>
    ensures { result ≡ read_header line.now }
{
    if line.len() > HEADER_LIMIT {
        return Err(TextFault::HeaderTooLong);
    }
    if !is_ascii(line) {
        return Err(TextFault::BadHeader);
    }
    let Some(fields) = fields_of(line) else {
        return Err(TextFault::BadHeader);
    };
    let Some(label) = Label::from_bytes_or_default(fields.label) else {
        return Err(TextFault::BadHeader);
    };
    if fields.version != b"1.1".as_slice() && fields.version != b"1.2".as_slice() {
        return Err(TextFault::BadVersion);
    }
    if fields.cipher != b"AES256".as_slice() {
        return Err(TextFault::BadCipher);
    }
    Ok(label)
}
