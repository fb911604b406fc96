//! `ddtplan seam OURS THEIRS`: whether the servers of two registers, each run from its own, are those of one tree; and
//! `ddtplan seam --index FILE`, the same of all registers of a tree.

use crate::foreign::foreign_groups;
use crate::inputs::{Failure, accepted_at, no_memory, print};
use crate::seams_of_index::seams_of_index;
use ddt_organisations::seam::seam_lines;
use ddt_plan_commands::{ExitStatus, PairAsked, SeamAsked};

/// Prints what is wrong with a seam, or with a tree.
pub fn seam(rt: &HostRuntime, asked: &SeamAsked<'_>) -> Result<ExitStatus, Failure> {
    match asked {
        SeamAsked::Pair(asked) => seam_of_pair(rt, asked),
        SeamAsked::Index(path) => seams_of_index(rt, path),
    }
}

/// Prints the lines of the seam of two registers.
fn seam_of_pair(rt: &HostRuntime, asked: &PairAsked<'_>) -> Result<ExitStatus, Failure> {
    let ours = accepted_at(rt, asked.ours)?;
    let theirs = accepted_at(rt, asked.theirs)?;
    let foreign = foreign_groups(rt, &[&ours], asked.foreign.as_slice())?;
    match seam_lines(rt.alloc(), &foreign, &ours, &theirs).map_err(no_memory)? {
        Some(told) if told.is_good => Ok(print(rt, &told.text, ExitStatus::Answered)),
        Some(told) => Ok(print(rt, &told.text, ExitStatus::Different)),
        None => Err(format!(in rt.alloc(); "both registers together have more than 65535 rows")),
    }
}
