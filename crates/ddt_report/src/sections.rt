//! The sections of a page. All calls fail only if out of memory.

ghost use Rattle.std.specs.Prelude.{◌≡◌, ◌++◌, OnOk, length, take, decimal};
ghost use Rattle.std.specs.List.{flat_map};
ghost use Rattle.ddt_report.specs.Sections.{back_text, columns_line, heading_text, left_out_line, left_out_text, row_text, rows_text, section_text, table_text};

use crate::html::{push_cells, push_text};
use crate::lines_and_fields::{fields_of, rows_of};
use crate::row_marks::mark_of;
use crate::tables::Table;
use ddt_path::Listed;
use std::alloc::AllocError;

/// The most rows of a table.
const MOST_ROWS: usize = 1000;

/// Appends a table's section, with the lines of a text that are its rows.
#[tactic(auto, unfolding(crate::specs::Sections::section_text))]
pub(crate) fn push_section(html: &mut Vec<u8>, table: Table, text: &[u8]) -> Result<(), AllocError>
    ensures { OnOk result (html.new.items ≡ html.old.items ++ section_text table text.now) }
{
    let rows = rows_of(*html.allocator(), table, text)?;
    push_heading(html, table.title())?;
    push_rows(html, table, rows.as_slice())
}

/// Appends the title of a section.
#[tactic(auto, unfolding(crate::specs::Sections::heading_text))]
pub(crate) fn push_heading(html: &mut Vec<u8>, title: &str) -> Result<(), AllocError>
    ensures { OnOk result (html.new.items ≡ html.old.items ++ heading_text title.now) }
{
    push_text(html, b"<h2>")?;
    push_text(html, title.as_bytes())?;
    push_text(html, b"</h2>\n")
}

/// Appends a table with these rows, or a line if there are none.
fn push_rows(html: &mut Vec<u8>, table: Table, rows: &[Listed<u8>]) -> Result<(), AllocError>
    ensures { OnOk result (html.new.items ≡ html.old.items ++ rows_text table rows.now) }
{
    if rows.is_empty() {
        push_text(html, b"<p>None.</p>\n")
    } else {
        push_table(html, table, rows)
    }
}

/// Appends a table of the first rows, and the number of rows left out.
#[tactic(auto, unfolding(crate::specs::Sections::table_text))]
fn push_table(html: &mut Vec<u8>, table: Table, rows: &[Listed<u8>]) -> Result<(), AllocError>
    ensures { OnOk result (html.new.items ≡ html.old.items ++ table_text table rows.now) }
{
    push_columns(html, table)?;
    push_each(html, table, shown(rows))?;
    push_back(html)?;
    push_left_out(html, table, rows.len())
}

/// Appends the front of a table, with the heads of its columns.
#[tactic(auto, unfolding(crate::specs::Sections::columns_line))]
fn push_columns(html: &mut Vec<u8>, table: Table) -> Result<(), AllocError>
    ensures { OnOk result (html.new.items ≡ html.old.items ++ columns_line table) }
{
    push_text(html, b"<table><thead><tr>")?;
    push_text(html, table.columns().as_bytes())?;
    push_text(html, b"</tr></thead>\n<tbody>\n")
}

#[tactic(auto, unfolding(crate::specs::Sections::back_text))]
fn push_back(html: &mut Vec<u8>) -> Result<(), AllocError>
    ensures { OnOk result (html.new.items ≡ html.old.items ++ back_text) }
{
    push_text(html, b"</tbody>\n</table>\n")
}

/// The rows that are shown.
fn shown(rows: &[Listed<u8>]) -> &[Listed<u8>]
    ensures { result.now ≡ take 1000 rows.now }
{
    if rows.len() <= MOST_ROWS {
        rows
    } else {
        &rows[..MOST_ROWS]
    }
}

fn push_each(html: &mut Vec<u8>, table: Table, rows: &[Listed<u8>]) -> Result<(), AllocError>
    ensures { OnOk result (html.new.items ≡ html.old.items ++ flat_map (row_text table) rows.now) }
{
    for row in rows {
        push_row(html, table, row.as_slice())?;
    }
    Ok(())
}

/// Appends the row of a line.
#[tactic(auto, unfolding(crate::specs::Sections::row_text))]
fn push_row(html: &mut Vec<u8>, table: Table, line: &[u8]) -> Result<(), AllocError>
    ensures { OnOk result (html.new.items ≡ html.old.items ++ row_text table line.now) }
{
    let fields = fields_of(*html.allocator(), line)?;
    let mark = mark_of(table, fields.as_slice());
    push_text(html, b"<tr class='")?;
    push_text(html, mark.class().as_bytes())?;
    push_text(html, b"'>")?;
    push_cells(html, fields.as_slice())?;
    push_text(html, b"</tr>\n")
}

/// Appends the number of rows left out of `rows`, if any are.
fn push_left_out(html: &mut Vec<u8>, table: Table, rows: usize) -> Result<(), AllocError>
    ensures { OnOk result (html.new.items ≡ html.old.items ++ left_out_text table rows) }
{
    if rows <= MOST_ROWS {
        Ok(())
    } else {
        push_left_out_line(html, table, rows - MOST_ROWS)
    }
}

/// Appends the line with the number of rows left out.
#[tactic(auto, unfolding(crate::specs::Sections::left_out_line))]
fn push_left_out_line(html: &mut Vec<u8>, table: Table, count: usize) -> Result<(), AllocError>
    ensures { OnOk result (html.new.items ≡ html.old.items ++ left_out_line table count) }
{
    push_text(html, b"<p>")?;
    push_number(html, count)?;
    push_text(html, b" more rows are left out: <code>")?;
    push_text(html, table.command().as_bytes())?;
    push_text(html, b"</code> lists them.</p>\n")
}

fn push_number(html: &mut Vec<u8>, number: usize) -> Result<(), AllocError>
    ensures { OnOk result (html.new.items ≡ html.old.items ++ decimal number) }
{
    let digits = format!(in *html.allocator(); "{number}")?;
    push_text(html, digits.as_bytes())
}
