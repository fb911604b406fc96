//! A quote that opens a field and isn't closed.

/// A quote that opens a field which continues to the end of its file.
#[derive(Clone, Copy, PartialEq, Eq)]
pub(crate) struct OpenQuote {
    /// Where the quote is.
    pub(crate) place: usize,
    /// Where its record begins.
    pub(crate) record: usize,
}

/// What a byte is part of, as csv reads it.
#[derive(Clone, Copy, PartialEq, Eq)]
enum Part {
    /// The first byte of a line outside quotes.
    Start,
    /// The first byte of another field.
    Field,
    /// A field without quotes, or what follows a quote that closes one.
    Bare,
    /// A field in quotes.
    Quoted,
    /// The byte after a quote in such a field: the quote closes it, unless another one follows.
    AfterQuote,
    /// A line that begins with `#`.
    Comment,
}

impl Part {
    /// What the next byte is part of.
    fn after(self, byte: u8, divider: u8) -> Part {
        match (self, byte) {
            (Part::Comment, b'\n') => Part::Start,
            (Part::Comment, _) => Part::Comment,
            (Part::Quoted, b'"') => Part::AfterQuote,
            (Part::Quoted, _) => Part::Quoted,
            (Part::Start | Part::Field | Part::AfterQuote, b'"') => Part::Quoted,
            (Part::Start, b'#') => Part::Comment,
            (_, b'\r' | b'\n') => Part::Start,
            (_, byte) if byte == divider => Part::Field,
            _ => Part::Bare,
        }
    }

    /// Whether a quote here opens a field.
    fn is_front(self) -> bool {
        matches!(self, Part::Start | Part::Field)
    }
}

/// The quote of a text that opens its last field and isn't closed, if there is one.
pub(crate) fn open_quote(text: &[u8], divider: u8) -> Option<OpenQuote> {
    let mut part = Part::Start;
    let mut quote = OpenQuote {
        place: 0,
        record: 0,
    };
    for (place, byte) in text.iter().enumerate() {
        if part == Part::Start {
            quote.record = place;
        }
        if part.is_front() && *byte == b'"' {
            quote.place = place;
        }
        part = part.after(*byte, divider);
    }
    (part == Part::Quoted).then_some(quote)
}
