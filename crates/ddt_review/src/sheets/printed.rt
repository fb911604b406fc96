//! Texts as they are printed in a line.

use ddt_path::{Locator, Prefix};
use ddt_text::{write_locator, write_prefix};
use std::alloc::{AllocError, Global};

/// The most characters of a text that are printed.
const LONGEST: usize = 80;

/// The most bytes that these characters have.
const LONGEST_BYTES: usize = 320;

/// A text as it is printed in a line: at most 80 characters, with an escape for each that can't be seen. Fails only if
/// out of memory.
pub(crate) fn printed(alloc: Global, text: &[u8]) -> Result<String, AllocError> {
    let front = text.get(..LONGEST_BYTES).unwrap_or(text);
    let front = String::from_utf8_lossy(alloc, front)?;
    let mut escaped: String = front.escape_debug().take(LONGEST).collect(alloc)?;
    if front.escape_debug().nth(LONGEST).is_some() {
        escaped.push_str("...")?;
    }
    Ok(escaped)
}

/// A prefix as it is written. Fails only if out of memory.
pub(crate) fn printed_prefix(alloc: Global, prefix: Prefix) -> Result<String, AllocError> {
    let mut text = Vec::new(alloc);
    write_prefix(&mut text, prefix)?;
    String::from_utf8_lossy(alloc, &text)
}

/// A locator as it is written. Fails only if out of memory.
pub(crate) fn printed_locator(alloc: Global, locator: Locator) -> Result<String, AllocError> {
    let mut text = Vec::new(alloc);
    write_locator(&mut text, locator)?;
    String::from_utf8_lossy(alloc, &text)
}
