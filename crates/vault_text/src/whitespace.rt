//! Text without whitespace at its ends.
ghost use Rattle.std.specs.Prelude.{◌≡◌};
ghost use Rattle.vault_text.specs.Whitespace.{is_whitespace, strip, strip_start, strip_end};

/// Whether the byte is ASCII whitespace: 09 to 0d, or a space. Unlike `u8::is_ascii_whitespace`,
/// this counts the vertical tab.
fn is_whitespace(byte: u8) -> bool
    ensures { result ≡ is_whitespace byte }
{
    matches!(byte, 9..=13 | b' ')
}

fn strip_start(bytes: &[u8]) -> &[u8]
    ensures { result.now ≡ strip_start bytes.now }
{
    let mut start = 0;
    while start < bytes.len() && is_whitespace(bytes[start]) {
        start += 1;
    }
    &bytes[start..]
}

fn strip_end(bytes: &[u8]) -> &[u8]
    ensures { result.now ≡ strip_end bytes.now }
{
    let mut end = bytes.len();
    while end > 0 && is_whitespace(bytes[end - 1]) {
        end -= 1;
    }
    &bytes[..end]
}

/// The bytes without the ASCII whitespace (09 to 0d, and the space) at both ends.
pub fn strip(bytes: &[u8]) -> &[u8]
    ensures { result.now ≡ strip bytes.now }
{
    strip_end(strip_start(bytes))
}
