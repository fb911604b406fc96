//! Whether a register's file looks as if its end were missing.

ghost use Rattle.std.specs.Prelude.{◌≡◌};
ghost use Rattle.std.specs.Option.{option_copied};
ghost use Rattle.ddt_review.specs.Warnings.Truncation.{is_beginning as is_beginning_of, has_open_line as has_open_line_of, line_ends as line_ends_of, IsTruncation};

/// How a file looks as if its end were missing.
#[derive(Clone, Copy, Debug, PartialEq, Eq)]
pub enum Truncation {
    /// It is the beginning of the old file, byte for byte. The old file has `lines` more line ends.
    Beginning { lines: usize },
    /// Its last line is the beginning of a longer line of the old file, with this number from 1, and no line of it.
    Shortened { line: usize },
    /// Its last line has no end.
    OpenLine,
}

/// How a file looks as if its end were missing, compared with an old one if there is one; the first of the kinds above.
pub fn truncation_of(old: Option<&[u8]>, file: &[u8]) -> Option<Truncation>
    ensures { IsTruncation (option_copied old.entry) file.now result }
{
    if let Some(old) = old {
        if is_beginning(old, file) {
            return Some(Truncation::Beginning {
                lines: line_ends(old).saturating_sub(line_ends(file)),
            });
        }
        if let Some(line) = shortened_line(old, last_line(file)) {
            return Some(Truncation::Shortened { line });
        }
    }
    has_open_line(file).then_some(Truncation::OpenLine)
}

/// Whether the old file begins with all of this one, and is longer.
fn is_beginning(old: &[u8], file: &[u8]) -> bool
    ensures { result ≡ is_beginning_of old.now file.now }
{
    file.len() < old.len() && old.starts_with(file)
}

/// Whether a file has bytes after its last line end.
fn has_open_line(file: &[u8]) -> bool
    ensures { result ≡ has_open_line_of file.now }
{
    match file {
        [.., last] => *last != b'\n' && *last != b'\r',
        [] => false,
    }
}

/// The number of line feeds in a file.
fn line_ends(file: &[u8]) -> usize
    ensures { result ≡ line_ends_of file.now }
{
    file.iter().filter(|byte| **byte == b'\n').count()
}

/// The last line that isn't empty, without its end.
fn last_line(file: &[u8]) -> &[u8] {
    let mut last: &[u8] = &[];
    for line in file.split(|byte| *byte == b'\n') {
        let line = line.strip_suffix(b"\r").unwrap_or(line);
        if !line.is_empty() {
            last = line;
        }
    }
    last
}

/// The number of the first line that begins with all of this text and is longer, if no line is this text.
fn shortened_line(old: &[u8], text: &[u8]) -> Option<usize> {
    let mut longer = None;
    for (at, line) in old.split(|byte| *byte == b'\n').enumerate() {
        let line = line.strip_suffix(b"\r").unwrap_or(line);
        if line == text {
            return None;
        }
        if longer.is_none() && is_beginning(line, text) {
            longer = Some(at.saturating_add(1));
        }
    }
    longer
}
