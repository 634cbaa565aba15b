//! Arguments, as messages show them.
ghost use Rattle.std.specs.Prelude.{◌≡◌, ◌++◌, All, IfOk, OnOk, map};
ghost use Rattle.std.specs.Str.{chars, encode_utf8_all};
ghost use Rattle.std.specs.String.{string_bytes};
ghost use Rattle.vault_cli.specs.Escaped.{IsPrintable, escaped_char, escaped_text};
ghost use Rattle.vault_cli.specs.Escaped.{is_unprintable};

use std::alloc::{AllocError, Global};

/// The arguments, each escaped.
pub(crate) fn escaped_words(alloc: Global, words: &[String]) -> Result<Vec<String>, AllocError>
    ensures { IfOk result (λ escaped.
        map string_bytes escaped.items ≡ map escaped_text (map string_bytes words.now)) }
{
    let mut escaped = Vec::new(alloc);
    for i in 0..words.len() {
        escaped.push(escaped_text(alloc, words[i].as_str())?)?;
    }
    Ok(escaped)
}

/// The text with each unprintable character escaped, so that it can neither control a terminal nor
/// forge a line of a message.
fn escaped_text(alloc: Global, text: &str) -> Result<String, AllocError>
    ensures escaped { IfOk result (λ escaped. string_bytes escaped ≡ escaped_text text.now) }
    ensures printable { IfOk result (λ escaped.
        All IsPrintable (chars (string_bytes escaped))) }
{
    let mut escaped = String::new(alloc);
    for c in text.chars() {
        append_escaped(&mut escaped, c)?;
    }
    Ok(escaped)
}

/// Appends the character; an unprintable one as its number in hexadecimal, as in `\u{1b}`.
fn append_escaped(escaped: &mut String, c: char) -> Result<(), AllocError>
    ensures { OnOk result
        (string_bytes escaped.new ≡ string_bytes escaped.old ++ encode_utf8_all (escaped_char c)) }
{
    if is_unprintable(c) {
        let number = u32::from(c);
        write!(escaped, "\\u{{{number:x}}}")
    } else {
        escaped.push(c)
    }
}

/// Whether a character is a control character, a zero-width space or joiner, a separator of lines
/// or paragraphs, or sets the direction of text.
fn is_unprintable(c: char) -> bool
    ensures { result ≡ is_unprintable c }
{
    c.is_control()
        || matches!(
            c,
            '\u{200b}'..='\u{200f}' | '\u{2028}'..='\u{202e}' | '\u{2066}'..='\u{2069}'
        )
}
