//! The text of a file: UTF-8 without a mark, and each line ended by a line feed.

use crate::sheets::difference::ByteOrder;
use std::alloc::{AllocError, Global};

/// The byte order of a file in UTF-16, and its bytes after the mark; None if it isn't UTF-16. Without a mark the high
/// bytes of its first two characters decide.
pub(crate) fn utf16_of(bytes: &[u8]) -> Option<(ByteOrder, &[u8])> {
    match bytes {
        [0xff, 0xfe, rest @ ..] => Some((ByteOrder::LittleEndian, rest)),
        [0xfe, 0xff, rest @ ..] => Some((ByteOrder::BigEndian, rest)),
        [1..=255, 0, 1..=255, 0, ..] => Some((ByteOrder::LittleEndian, bytes)),
        [0, 1..=255, 0, 1..=255, ..] => Some((ByteOrder::BigEndian, bytes)),
        _ => None,
    }
}

/// The UTF-8 text of a text in UTF-16. A replacement character replaces each unpaired code unit; a last odd byte is
/// left out. Fails only if out of memory.
pub(crate) fn decode_utf16(
    alloc: Global,
    order: ByteOrder,
    bytes: &[u8],
) -> Result<String, AllocError> {
    let units: Vec<u16> = bytes
        .chunks_exact(2)
        .map(|pair| code_unit(order, pair))
        .collect(alloc)?;
    String::from_utf16_lossy(alloc, &units)
}

/// The code unit of two bytes.
fn code_unit(order: ByteOrder, pair: &[u8]) -> u16 {
    match (order, pair) {
        (ByteOrder::LittleEndian, [low, high]) => u16::from_le_bytes([*low, *high]),
        (ByteOrder::BigEndian, [high, low]) => u16::from_be_bytes([*high, *low]),
        (_, _) => 0,
    }
}

/// The text after a byte order mark of UTF-8, or the text itself.
pub(crate) fn without_mark(text: &[u8]) -> &[u8] {
    match text {
        [0xef, 0xbb, 0xbf, rest @ ..] => rest,
        _ => text,
    }
}

/// Whether carriage returns alone end the lines.
pub(crate) fn ends_by_returns(text: &[u8]) -> bool {
    text.contains(&b'\r') && !text.contains(&b'\n')
}

/// The text with a line feed for each carriage return. Fails only if out of memory.
pub(crate) fn with_line_feeds(alloc: Global, text: &[u8]) -> Result<Vec<u8>, AllocError> {
    text.iter()
        .map(|byte| if *byte == b'\r' { b'\n' } else { *byte })
        .collect(alloc)
}
