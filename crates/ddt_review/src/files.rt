//! A register's file as a whole: its faults and warnings in lines, beside the file of the register that was in force
//! before it.
//!
//! In reading order: `old_file`, `truncation`, `faults`, with `missing_zones` below it; `warnings`.
//! Tests: tests/ddtplan/faults.lines and warn.lines.

mod faults;
mod missing_zones;
mod old_file;
mod truncation;
mod warnings;

pub use faults::{all_faults, faults_beside};
pub use old_file::OldFile;
pub use truncation::{TruncatedEnd, truncated_end};
pub use warnings::warning_lines;
