//! Command lines.
use std::alloc::{AllocError, Global};

/// The words of a command line, with the program's name before them.
pub fn line_of(alloc: Global, words: &[&str]) -> Result<Vec<String>, AllocError> {
    let mut line = Vec::new(alloc);
    line.push(String::from_str(alloc, "ansible-vault")?)?;
    for word in words {
        line.push(String::from_str(alloc, word)?)?;
    }
    Ok(line)
}
