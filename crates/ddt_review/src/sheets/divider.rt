//! The byte that divides the fields of a file.

/// The byte between the fields of a text: of comma, semicolon and tab the one that its first line has most often, and
/// the comma if they are equally many.
pub(crate) fn divider_of(text: &[u8]) -> u8 {
    let line = first_line(text);
    let [commas, semicolons, tabs] = [b',', b';', b'\t'].map(|divider| count_of(line, divider));
    if semicolons > commas && semicolons >= tabs {
        b';'
    } else if tabs > commas {
        b'\t'
    } else {
        b','
    }
}

/// The first line that is neither empty nor a comment; an empty one if there is none.
fn first_line(text: &[u8]) -> &[u8] {
    text.split(|byte| matches!(*byte, b'\n' | b'\r'))
        .find(|line| !matches!(line, [] | [b'#', ..]))
        .unwrap_or_default()
}

fn count_of(line: &[u8], divider: u8) -> usize {
    line.iter().filter(|byte| **byte == divider).count()
}
