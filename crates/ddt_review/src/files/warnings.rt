//! The lines of warnings.

use crate::sheets::{BrokenRule, FaultLine, file_faults};
use crate::warnings::Warning;
use ddt_check::Rule;
use std::alloc::{AllocError, Global};
use std::slice;

/// Returns a line for each warning of the file with these bytes: `FILE:LINE: KIND: reason`, with the line of the other
/// row if there is one. Fails only if out of memory.
pub fn warning_lines(
    alloc: Global,
    path: &str,
    bytes: &[u8],
    warnings: &[Warning],
) -> Result<Vec<u8>, AllocError> {
    let places = places_of(alloc, bytes, warnings)?;
    text_of(alloc, path, warnings, &places)
}

/// Returns where the rows of warnings are in the file, in their order: the row of each, and its other row if it has
/// one. They are found as the places of broken rules are, so each row is given as one that breaks a rule.
fn places_of(
    alloc: Global,
    bytes: &[u8],
    warnings: &[Warning],
) -> Result<Vec<FaultLine>, AllocError> {
    match file_faults(alloc, bytes, |_register| rows_of(alloc, warnings)) {
        Ok(places) => Ok(places),
        // The bytes were read already.
        Err(_fault) => Err(AllocError),
    }
}

fn rows_of(alloc: Global, warnings: &[Warning]) -> Result<Vec<BrokenRule>, AllocError> {
    let mut rows = Vec::new(alloc);
    for warning in warnings {
        rows.push(at_row(warning.row))?;
        if let Some(other) = warning.finding.other() {
            rows.push(at_row(other))?;
        }
    }
    Ok(rows)
}

fn at_row(row: u32) -> BrokenRule {
    BrokenRule {
        row,
        rule: Rule::NoRoot,
        other: None,
    }
}

fn text_of(
    alloc: Global,
    path: &str,
    warnings: &[Warning],
    places: &[FaultLine],
) -> Result<Vec<u8>, AllocError> {
    let mut text = Vec::new(alloc);
    let mut places = places.iter();
    for warning in warnings {
        push_line(&mut text, path, warning, &mut places)?;
    }
    Ok(text)
}

/// Appends the line of a warning, whose places are the next ones.
fn push_line(
    text: &mut Vec<u8>,
    path: &str,
    warning: &Warning,
    places: &mut slice::Iter<'_, FaultLine>,
) -> Result<(), AllocError> {
    let alloc = *text.allocator();
    let (line, kind) = (line_of(places.next()), warning.finding.kind());
    let told = if warning.finding.other().is_some() {
        let other = line_of(places.next());
        format!(in alloc; "{path}:{line}: {kind}: {warning} (line {other})\n")?
    } else {
        format!(in alloc; "{path}:{line}: {kind}: {warning}\n")?
    };
    text.extend_from_slice(told.as_bytes())
}

/// Returns the line of a place. Each row has a place, so there is one.
fn line_of(place: Option<&FaultLine>) -> u64 {
    place.map_or(1, |place| place.line)
}
