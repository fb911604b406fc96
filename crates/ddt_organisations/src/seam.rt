//! Where the registers of two organisations meet: whether the servers of both, each run from its own register, are
//! those of one tree (RFC 8111, section 4).
//!
//! In reading order: `joined`, with `items_by_key` and `row` below it; `group_runs`; `verdict`; `laws`; `seam_report`,
//! with `differences`, `missing_items` and `crossings`, and `side` and `line` below them.
//! Tests: tests/crates/review/seam.

mod crossings;
mod differences;
mod items_by_key;
mod joined;
mod laws;
mod line;
mod missing_items;
mod row;
mod runs_by_group;
mod seam_report;
mod side;
mod verdict;

pub use joined::join;
pub use laws::{good_seams_are_run, sides_answer_as_joined, walks_end_in_the_assignment};
pub use runs_by_group::{GroupRun, group_runs, is_good};
pub use seam_report::{SeamReport, seam_lines};
pub use verdict::{Verdict, seam_verdict};
