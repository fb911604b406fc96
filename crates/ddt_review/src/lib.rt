//! A review of a register for its author: every broken rule, every fault of its file, and warnings of what breaks no
//! rule but is mostly a mistake.
//!
//! In reading order: `faults`, `sheets`, `warnings`, each apart from the others; `files` above them.
//! Tests: tests/crates/review/faults, sheets and warnings.
#![tactic(auto)]

pub mod faults;
pub mod files;
pub mod sheets;
pub mod warnings;
