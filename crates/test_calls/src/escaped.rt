//! Characters by two others.

use std::alloc::{AllocError, Global};

/// The character for which `\` and this one stand.
fn character(c: char) -> char {
    match c {
        'n' => '\n',
        'r' => '\r',
        't' => '\t',
        '0' => '\u{0}',
        'u' => '\u{1f}',
        'd' => '\u{7f}',
        'e' => '\u{80}',
        other => other,
    }
}

/// The text with the characters in place of those that stand for them.
pub fn unescaped(alloc: Global, text: &str) -> Result<String, AllocError> {
    let mut out = String::new(alloc);
    let mut escaped = false;
    for c in text.chars() {
        if escaped {
            out.push(character(c))?;
            escaped = false;
        } else if c == '\\' {
            escaped = true;
        } else {
            out.push(c)?;
        }
    }
    Ok(out)
}
