//! A broken rule, as the caller of `file_faults` finds it.

use ddt_check::Rule;

/// A rule that a register breaks.
#[derive(Clone, Copy, PartialEq, Eq)]
pub struct BrokenRule {
    /// The row that breaks it; 0 if no row is at fault.
    pub row: u32,
    pub rule: Rule,
    /// The other row of the fault, if it has one.
    pub other: Option<u32>,
}
