//! A register's file, read as far as its meaning is clear.

use crate::sheets::difference_notes::DifferenceNote;
use crate::sheets::unread_records::UnreadRecord;
use ddt_register::Register;

/// A register's file, read as far as its meaning is clear.
#[derive(Drop)]
pub(crate) struct Sheet {
    /// The differences of the whole file, in the order in which they were found.
    pub(crate) differences: Vec<DifferenceNote>,
    /// The records that can't be read as rows, in order.
    pub(crate) unread: Vec<UnreadRecord>,
    /// The line of each row from row 1 on, also of rows that can't be read.
    pub(crate) lines: Vec<u64>,
    /// The rows that are read; None if a column is missing, because no row is read then.
    pub(crate) register: Option<Register>,
}

/// The line of a row, by the lines of all rows; 1 for row 0, which is no row.
pub(crate) fn line_of(lines: &[u64], row: u32) -> u64 {
    match row.checked_sub(1) {
        Some(place) => lines.get(place as usize).copied().unwrap_or(1),
        None => 1,
    }
}
