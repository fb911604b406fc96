//! The lines of a text, and the fields of a line.

ghost use Rattle.std.specs.Prelude.{◌≡◌, ◌==◌, [], IfOk, get_or};
ghost use Rattle.std.specs.List.{slice_split};
ghost use Rattle.ddt_report.specs.Tables.{field as field_of, fields_in, rows_in};

use crate::tables::Table;
use ddt_path::Listed;
use std::alloc::{AllocError, Global};

/// The lines of a text that are rows of a table. Fails only if out of memory.
pub(crate) fn rows_of(
    alloc: Global,
    table: Table,
    text: &[u8],
) -> Result<Vec<Listed<u8>>, AllocError>
    ensures { IfOk result (λ rows. rows.items ≡ rows_in table text.now) }
{
    let mut rows = parts_of(alloc, b'\n', text)?;
    rows.retain(|line| table.has_row(line.as_slice()));
    Ok(rows)
}

/// The fields of a line, divided by tabs. Fails only if out of memory.
pub(crate) fn fields_of(alloc: Global, line: &[u8]) -> Result<Vec<Listed<u8>>, AllocError>
    ensures { IfOk result (λ fields. fields.items ≡ fields_in line.now) }
{
    parts_of(alloc, b'\t', line)
}

/// The field at an index; empty if there are fewer fields.
pub(crate) fn field(fields: &[Listed<u8>], place: usize) -> &[u8]
    ensures { result.now ≡ field_of fields.now place }
{
    match fields.get(place) {
        Some(field) => field.as_slice(),
        None => b"",
    }
}

/// The parts of a text before, between and after the dividers.
fn parts_of(alloc: Global, divider: u8, text: &[u8]) -> Result<Vec<Listed<u8>>, AllocError>
    ensures { IfOk result (λ parts. parts.items ≡ slice_split (λ b. b == divider) text.now) }
{
    let mut parts = Vec::new(alloc);
    for part in text.split(|byte| *byte == divider) {
        let copied = Vec::from_slice(alloc, part)?;
        parts.push(Listed::of(copied))?;
    }
    Ok(parts)
}
