//! The seal of a configuration: its counts and its digest, as further keys of its text. It detects a text that was cut
//! or edited.
//!
//! In reading order: `fault`, `counts`, `seal`, `members`, `document`.
//! Tests: tests/crates/command/companion/folder.

mod counts;
mod document;
mod fault;
mod members;
mod seal;

pub use counts::{Counts, counts_of};
pub use document::to_sealed_toml;
pub use fault::{Key, SealFault};
pub use members::seal_in;
pub use seal::{Seal, check_seal, seal_of};
