//! The line numbers of places in a text, as an editor counts them.

/// A place in a text, and its line number. It only moves forward.
#[derive(Clone, Copy)]
pub(crate) struct LineCursor<'a> {
    text: &'a [u8],
    place: usize,
    line: u64,
}

/// Where a record begins after blank lines and comments.
#[derive(Clone, Copy)]
struct Beginning {
    place: usize,
    /// The place of the first comment, if there is one.
    comment: Option<usize>,
}

impl<'a> LineCursor<'a> {
    /// The cursor at the first line of a text.
    pub(crate) fn new(text: &'a [u8]) -> LineCursor<'a> {
        LineCursor {
            text,
            place: 0,
            line: 1,
        }
    }

    /// Moves to the record that follows a place, and returns the line of the first comment before it, if there is one.
    pub(crate) fn go_to_record(&mut self, place: usize) -> Option<u64> {
        let beginning = beginning_behind(self.text, place);
        let comment = beginning.comment.map(|place| self.line_at(place));
        self.go_to(beginning.place);
        comment
    }

    /// The line of the place, from 1.
    pub(crate) fn line(&self) -> u64 {
        self.line
    }

    /// The place.
    pub(crate) fn place(&self) -> usize {
        self.place
    }

    /// The number of lines after the line of a later place, up to the end of the text.
    pub(crate) fn lines_after(&self, place: usize) -> u64 {
        let last = self.text.len().saturating_sub(1);
        let ends = (place..last).filter(|at| ends_line(self.text, *at)).count();
        ends as u64
    }

    /// The line of a later place.
    pub(crate) fn line_at(&self, place: usize) -> u64 {
        let ends = (self.place..place)
            .filter(|at| ends_line(self.text, *at))
            .count();
        self.line.saturating_add(ends as u64)
    }

    /// Moves to a later place.
    fn go_to(&mut self, place: usize) {
        self.line = self.line_at(place);
        self.place = place;
    }
}

/// Whether a line ends at a place: by a line feed, or by a carriage return without one.
fn ends_line(text: &[u8], place: usize) -> bool {
    match text.get(place..) {
        Some([b'\r', b'\n', ..]) => false,
        Some([b'\r' | b'\n', ..]) => true,
        _ => false,
    }
}

/// The beginning of the record that follows a place at the start of a line.
fn beginning_behind(text: &[u8], place: usize) -> Beginning {
    let mut in_comment = false;
    let mut comment = None;
    let behind = text.get(place..).unwrap_or_default();
    for (offset, byte) in behind.iter().enumerate() {
        let place = place.saturating_add(offset);
        match byte {
            b'\n' => in_comment = false,
            b'\r' => {}
            b'#' if !in_comment => {
                in_comment = true;
                comment = comment.or(Some(place));
            }
            _ if in_comment => {}
            _ => return Beginning { place, comment },
        }
    }
    Beginning {
        place: text.len(),
        comment,
    }
}
