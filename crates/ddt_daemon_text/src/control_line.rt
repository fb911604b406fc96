//! The line of a client of the control socket, as it arrives.

use std::str;

/// The most bytes of a line, with its end.
const MOST_BYTES: usize = 160;

/// What has been received of a line.
#[derive(Clone, Copy)]
pub enum LineState {
    /// Not yet a whole line.
    Partial,
    /// A whole line.
    Whole,
    /// No line will come any more, such as after 160 bytes without an end of line.
    Over,
}

/// The bytes that a client has sent, 160 at most.
#[derive(Clone, Copy)]
pub struct ControlLine {
    bytes: [u8; MOST_BYTES],
    len: usize,
}

impl ControlLine {
    /// No byte yet.
    pub fn new() -> ControlLine {
        ControlLine {
            bytes: [0; MOST_BYTES],
            len: 0,
        }
    }

    /// The room for the bytes that come next.
    pub fn room(&mut self) -> &mut [u8] {
        &mut self.bytes[self.len.min(MOST_BYTES)..]
    }

    /// Adds the first bytes of the room, `count` of them. Returns what has been received so far.
    pub fn add(&mut self, count: usize) -> LineState {
        self.len = self.len.saturating_add(count).min(MOST_BYTES);
        match self.end() {
            Some(_) => LineState::Whole,
            None if self.len == MOST_BYTES => LineState::Over,
            None => LineState::Partial,
        }
    }

    /// The word of the line, and the text after its first space. A line that isn't UTF-8, that isn't whole, or that
    /// has a space and nothing after it, has an empty word and no text.
    pub fn parts(&self) -> (&str, &str) {
        let line = self.text().unwrap_or("");
        match line.split_once(' ') {
            Some((_word, "")) => ("", ""),
            Some(parts) => parts,
            None => (line, ""),
        }
    }

    /// The line without its end.
    fn text(&self) -> Option<&str> {
        let end = self.end()?;
        str::from_utf8(&self.bytes[..end.min(MOST_BYTES)]).ok()
    }

    /// The place of the line's end.
    fn end(&self) -> Option<usize> {
        self.bytes[..self.len.min(MOST_BYTES)]
            .iter()
            .position(|byte| *byte == b'\n')
    }
}
