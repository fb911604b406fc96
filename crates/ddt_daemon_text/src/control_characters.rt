//! Escapes control characters, so that those of a file or an argument never reach a terminal or a log.

use std::alloc::{AllocError, Global};

/// The text with each control character (C0, DEL and C1) escaped, as `\n` or `\u{1b}`.
pub fn printable(alloc: Global, text: &str) -> Result<String, AllocError> {
    let mut escaped = String::new(alloc);
    push_printable(&mut escaped, text)?;
    Ok(escaped)
}

/// The text with the control characters of each line escaped; the line ends stay.
pub fn printable_lines(alloc: Global, text: &str) -> Result<String, AllocError> {
    let mut escaped = String::new(alloc);
    for line in text.split_inclusive('\n') {
        match line.strip_suffix('\n') {
            Some(line) => {
                push_printable(&mut escaped, line)?;
                escaped.push('\n')?;
            }
            None => push_printable(&mut escaped, line)?,
        }
    }
    Ok(escaped)
}

fn push_printable(escaped: &mut String, text: &str) -> Result<(), AllocError> {
    for character in text.chars() {
        if character.is_control() {
            push_escape(escaped, character)?;
        } else {
            escaped.push(character)?;
        }
    }
    Ok(())
}

fn push_escape(escaped: &mut String, character: char) -> Result<(), AllocError> {
    for part in character.escape_default() {
        escaped.push(part)?;
    }
    Ok(())
}
