//! Pictures of an accepted register, as SVG: its delegation tree, one lookup, and the trees before and after a change.
//!
//! In reading order: `tree` (with `group_boxes`, `strip`, `cards` and `layout` below it), `change` (with `differences`
//! and `shown_zones` below it), `ladder` (with `hops` below it), and `svg`.
//! Tests: tests/crates/review/pictures.

mod cards;
mod change;
mod differences;
mod group_boxes;
mod hops;
mod ladder;
mod layout;
mod shown_zones;
mod strip;
mod svg;
mod tree;

pub use change::change_picture;
pub use group_boxes::{GroupBox, Tally, boxes_under};
pub use hops::{Hop, hops_of};
pub use ladder::ladder_picture;
pub use tree::tree_picture;
