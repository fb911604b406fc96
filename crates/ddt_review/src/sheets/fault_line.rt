//! A fault of a file, as a line of text.

use crate::sheets::broken_rule::BrokenRule;
use ddt_register::ReadFault;

/// Which part of a file a fault is of. Faults are sorted by it: those of the whole file come first, and those that may
/// follow from a record that can't be read come last.
#[derive(Clone, Copy, PartialEq, Eq, PartialOrd, Ord)]
pub enum FaultScope {
    /// The whole file.
    File,
    /// One record.
    Record,
    /// One record, and the fault may follow from another record that can't be read.
    Follows,
}

/// The number and name of a fault.
#[derive(Clone, Copy, PartialEq, Eq)]
pub enum FaultKind {
    /// The file or a record can't be read.
    Reading(ReadFault),
    /// A rule is broken.
    Rule(BrokenRule),
}

/// A fault of a file.
#[derive(Drop)]
pub struct FaultLine {
    pub scope: FaultScope,
    /// The line of the file, from 1.
    pub line: u64,
    pub about: FaultKind,
    /// Its number, its name and the reason, as `4 Prefix: there is no prefix`.
    pub text: String,
}
