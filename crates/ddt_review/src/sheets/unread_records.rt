//! Records of a file that can't be read as rows.

use crate::sheets::columns::field;
use crate::sheets::field_reasons::{address_reason, kind_reason, name_reason, prefix_reason};
use crate::sheets::kind::RecordKind;
use csv::ByteRecord;
use ddt_path::Name;
use ddt_register::{MOST_ROWS, ReadFault};
use std::alloc::{AllocError, Global};

/// A record that can't be read as a row.
#[derive(Drop)]
pub(crate) struct UnreadRecord {
    /// The line on which it begins, from 1.
    pub(crate) line: u64,
    /// What it is meant to define; None if unknown.
    pub(crate) kind: Option<RecordKind>,
    /// The group that it names, if it names one.
    pub(crate) group: Option<Name>,
    /// What is wrong with it, with its row: 1 Csv, 3 Kind, 4 Prefix, 5 Name, 6 Address or 7 TooMany.
    pub(crate) fault: ReadFault,
    /// The same in words.
    pub(crate) reason: String,
}

/// The record of a row with `found` fields in a file with `columns` columns. Fails only if out of memory.
pub(crate) fn other_length(
    alloc: Global,
    row: u32,
    line: u64,
    fields: &ByteRecord,
    (found, columns): (usize, usize),
) -> Result<UnreadRecord, AllocError> {
    let reason = format!(in alloc; "{found} fields where there must be {columns}")?;
    Ok(unread_record(line, fields, ReadFault::Csv(row), reason))
}

/// The first record after the most rows that a register may have. Fails only if out of memory.
pub(crate) fn too_many(
    alloc: Global,
    line: u64,
    fields: &ByteRecord,
) -> Result<UnreadRecord, AllocError> {
    let reason = format!(in alloc;
        "there are more than {MOST_ROWS} rows, and the others aren't read"
    )?;
    let mut record = unread_record(line, fields, ReadFault::TooMany, reason);
    // The rows that aren't read may define anything.
    record.kind = None;
    Ok(record)
}

/// The record of a row in which a quote opens a field and isn't closed. `lines` lines follow it. Fails only if out of
/// memory.
pub(crate) fn unclosed(
    alloc: Global,
    row: u32,
    line: u64,
    fields: &ByteRecord,
    lines: u64,
) -> Result<UnreadRecord, AllocError> {
    let reason = match lines {
        0 => format!(in alloc; "a quote opens here and isn't closed")?,
        1 => format!(in alloc;
            "a quote opens here and isn't closed, so the line after it isn't read"
        )?,
        _ => format!(in alloc;
            "a quote opens here and isn't closed, so the {lines} lines after it aren't read"
        )?,
    };
    let mut record = unread_record(line, fields, ReadFault::Csv(row), reason);
    // The lines that aren't read may define anything.
    record.kind = None;
    Ok(record)
}

/// A record of four fields of which one has this fault. Fails only if out of memory.
pub(crate) fn wrong_field(
    alloc: Global,
    line: u64,
    fields: &ByteRecord,
    fault: ReadFault,
) -> Result<UnreadRecord, AllocError> {
    let kind = RecordKind::named(field(fields, 0));
    let reason = match fault {
        ReadFault::Kind(_) => kind_reason(alloc, field(fields, 0)),
        ReadFault::Prefix(_) => prefix_reason(alloc, kind, field(fields, 1)),
        ReadFault::Name(_) => name_reason(alloc, kind, field(fields, 2)),
        ReadFault::Address(_) => address_reason(alloc, kind, field(fields, 3)),
        _ => format!(in alloc; "the row can't be read"),
    };
    Ok(unread_record(line, fields, fault, reason?))
}

fn unread_record(line: u64, fields: &ByteRecord, fault: ReadFault, reason: String) -> UnreadRecord {
    UnreadRecord {
        line,
        kind: RecordKind::named(field(fields, 0)),
        group: Name::of(field(fields, 2)),
        fault,
        reason,
    }
}
