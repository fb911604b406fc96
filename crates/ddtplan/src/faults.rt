//! `ddtplan faults FILE`: every fault of a register's file.

use crate::inputs::{Failure, accepted_in, bytes_at, no_memory, print};
use ddt_plan_commands::{ExitStatus, FaultsAsked, register_of};
use ddt_review::files::{OldFile, all_faults, faults_beside};
use ddt_review::sheets::{FaultLine, fault_lines_text};

/// Prints a line for each fault of the file at a path, and how many there are.
pub fn faults(rt: &HostRuntime, asked: &FaultsAsked<'_>) -> Result<ExitStatus, Failure> {
    let path = asked.register;
    let bytes = bytes_at(rt, path)?;
    let told = faults_of(rt, asked, &bytes)?;
    let text = fault_lines_text(rt.alloc(), path, &told).map_err(no_memory)?;
    let end = if told.is_empty() {
        ExitStatus::Answered
    } else {
        ExitStatus::Different
    };
    Ok(print(rt, &text, end))
}

/// Returns the faults of the file's bytes, none if they spell an accepted register.
fn faults_of(
    rt: &HostRuntime,
    asked: &FaultsAsked<'_>,
    bytes: &[u8],
) -> Result<Vec<FaultLine>, Failure> {
    // If no rule is broken, none is looked for row by row.
    if register_of(rt.alloc(), Some(bytes), asked.register).is_ok() {
        return Ok(Vec::new(rt.alloc()));
    }
    let told = match all_faults(rt.alloc(), bytes) {
        Ok(told) => told,
        Err(fault) => return Err(format!(in rt.alloc(); "{}: unreadable {fault}", asked.register)),
    };
    match asked.old {
        Some(path) => told_beside(rt, told, bytes, path),
        None => Ok(told),
    }
}

/// Returns the same faults, beside the register that was in force before, which is at this path.
fn told_beside(
    rt: &HostRuntime,
    told: Vec<FaultLine>,
    bytes: &[u8],
    path: &str,
) -> Result<Vec<FaultLine>, Failure> {
    let before = bytes_at(rt, path)?;
    let accepted = accepted_in(rt, path, &before)?;
    let old = OldFile {
        path,
        bytes: &before,
    };
    faults_beside(rt.alloc(), told, bytes, old, &accepted).map_err(no_memory)
}
