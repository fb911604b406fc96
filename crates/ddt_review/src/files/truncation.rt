//! Why a register's file seems to be truncated, in words.

use crate::files::old_file::OldFile;
use crate::warnings::{Truncation, truncation_of};
use std::alloc::{AllocError, Global};

/// The end of a file that seems to be truncated.
#[derive(Drop)]
pub struct TruncatedEnd {
    /// The number of the last line, from 1.
    pub line: u64,
    /// Why the end seems to be missing.
    pub reason: String,
}

/// Returns the end of a file, compared with an old one if there is one; None if it doesn't seem to be truncated. Fails
/// only if out of memory.
pub fn truncated_end(
    alloc: Global,
    old: Option<OldFile<'_>>,
    file: &[u8],
) -> Result<Option<TruncatedEnd>, AllocError> {
    let (path, bytes) = match old {
        Some(old) => (old.path, Some(old.bytes)),
        None => ("", None),
    };
    match truncation_of(bytes, file) {
        Some(truncation) => Ok(Some(TruncatedEnd {
            line: last_line(file),
            reason: reason_of(alloc, truncation, path)?,
        })),
        None => Ok(None),
    }
}

/// Returns the reason of a truncation, with the path of the old file.
fn reason_of(alloc: Global, truncation: Truncation, path: &str) -> Result<String, AllocError> {
    match truncation {
        Truncation::Beginning { lines: 0 } => format!(in alloc;
            "the file is the beginning of {path}, without the end of its last line"
        ),
        Truncation::Beginning { lines: 1 } => {
            format!(in alloc; "the file is the beginning of {path}, without its last line")
        }
        Truncation::Beginning { lines } => {
            format!(in alloc; "the file is the beginning of {path}, without its last {lines} lines")
        }
        Truncation::Shortened { line } => {
            format!(in alloc; "the last line is the beginning of line {line} of {path}")
        }
        Truncation::OpenLine => format!(in alloc; "the last line has no end"),
    }
}

/// Returns the number of the last line of a file, from 1.
fn last_line(file: &[u8]) -> u64 {
    let inner = file.len().saturating_sub(1);
    let ends = file
        .iter()
        .take(inner)
        .filter(|byte| **byte == b'\n')
        .count();
    (ends as u64).saturating_add(1)
}
