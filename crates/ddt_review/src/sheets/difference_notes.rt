//! The differences of a whole file so far, each with its line.

use crate::sheets::difference::Difference;
use ddt_register::ReadFault;
use std::alloc::{AllocError, Global};

/// A difference of a whole file, and the line where it is first seen.
#[derive(Drop)]
pub(crate) struct DifferenceNote {
    /// The number of the line, from 1.
    pub(crate) line: u64,
    pub(crate) difference: Difference,
}

/// The differences so far.
#[derive(Drop)]
pub(crate) struct DifferenceNotes {
    noted: Vec<DifferenceNote>,
    has_blanks: bool,
    has_comments: bool,
}

impl DifferenceNotes {
    /// No differences.
    pub(crate) fn new(alloc: Global) -> DifferenceNotes {
        DifferenceNotes {
            noted: Vec::new(alloc),
            has_blanks: false,
            has_comments: false,
        }
    }

    /// Adds a difference. Fails only if out of memory.
    pub(crate) fn note(&mut self, line: u64, difference: Difference) -> Result<(), AllocError> {
        self.noted.push(DifferenceNote { line, difference })?;
        Ok(())
    }

    /// Adds the difference of blanks around a field, which `ddt` refuses with this fault, if this is the first such
    /// call. Fails only if out of memory.
    pub(crate) fn note_blanks(&mut self, line: u64, fault: ReadFault) -> Result<(), AllocError> {
        if self.has_blanks {
            return Ok(());
        }
        self.has_blanks = true;
        self.note(line, Difference::Blanks(fault))
    }

    /// Adds the difference of a comment, if this is the first such call. Fails only if out of memory.
    pub(crate) fn note_comment(&mut self, line: u64) -> Result<(), AllocError> {
        if self.has_comments {
            return Ok(());
        }
        self.has_comments = true;
        self.note(line, Difference::Comments)
    }

    /// Adds several differences of one line. Fails only if out of memory.
    pub(crate) fn note_all(
        &mut self,
        line: u64,
        differences: Vec<Difference>,
    ) -> Result<(), AllocError> {
        for difference in differences {
            self.note(line, difference)?;
        }
        Ok(())
    }

    /// All differences, in the order in which they were added.
    pub(crate) fn into_noted(self) -> Vec<DifferenceNote> {
        self.noted
    }
}
