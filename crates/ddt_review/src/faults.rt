//! All broken rules of a register that isn't accepted, each with the row that breaks it and the other row of the fault.
//!
//! In reading order: `broken`; `index`, with `first_items` and `longest_zone` below it; `items_in_row`;
//! `rule_at_row`.
//! Tests: tests/crates/review/faults.

mod broken;
mod first_items;
mod index;
mod items_in_row;
mod longest_zone;
mod rule_at_row;

pub use broken::{Broken, broken_rules};
