//! A register's file as people and spreadsheets write it, and every fault of it.
//!
//! In reading order: `difference`, `difference_notes`, `kind`, `unread_records`, `sheet` (what a file holds);
//! `encodings`, `divider`, `line_numbers`, `open_quote`, `columns`, `rows`, `reader` (how it is read); `broken_rule`,
//! `fault_line`, `possible_causes`, `field_reasons`, `rule_reasons`, `printed`, `all_faults` (which faults it has);
//! `fault_text`.
//! Tests: tests/crates/review/sheets.

mod all_faults;
mod broken_rule;
mod columns;
mod difference;
mod difference_notes;
mod divider;
mod encodings;
mod fault_line;
mod fault_text;
mod field_reasons;
mod kind;
mod line_numbers;
mod open_quote;
mod possible_causes;
mod printed;
mod reader;
mod rows;
mod rule_reasons;
mod sheet;
mod unread_records;

pub use all_faults::file_faults;
pub use broken_rule::BrokenRule;
pub use fault_line::{FaultKind, FaultLine, FaultScope};
pub use fault_text::fault_lines_text;
pub(crate) use printed::printed_prefix;
