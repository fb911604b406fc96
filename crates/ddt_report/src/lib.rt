//! A page of HTML for the review of a change of a register: the lines of `ddtplan diff` and `ddtplan rollout` in
//! tables, and a picture of the zones. It has no script, and loads nothing. Also pictures of registers and lookups, as
//! SVG.
//!
//! In reading order: `page`, `head`, `sections`, with `tables`, `row_marks`, `lines_and_fields` and `html` below it;
//! `laws`; `pictures`.
//! Tests: tests/crates/review/report and pictures.
#![tactic(auto)]

mod head;
mod html;
mod laws;
mod lines_and_fields;
mod page;
pub mod pictures;
mod row_marks;
mod sections;
mod tables;

pub use laws::{escaping_leaves_no_markup, escaping_loses_nothing};
pub use page::{Report, report_page};
