//! What a rollout says, in words.

use crate::rollout::fault::RolloutFault;
use crate::rollout::lines::rollout_lines;
use crate::rollout::steps::rollout_steps;
use ddt_check::Accepted;
use ddt_path::Name;
use std::alloc::{AllocError, Global};

/// Returns the lines of the steps from one register to another; if there are none, the line `refused`, a tab, and why.
/// Fails only if out of memory.
pub fn steps_text(
    alloc: Global,
    before: &Accepted,
    after: &Accepted,
) -> Result<Vec<u8>, AllocError> {
    match rollout_steps(alloc, before, after) {
        Ok(steps) => rollout_lines(alloc, before, after, &steps),
        Err(RolloutFault::Memory) => Err(AllocError),
        Err(fault) => refused_line(alloc, fault),
    }
}

fn refused_line(alloc: Global, fault: RolloutFault) -> Result<Vec<u8>, AllocError> {
    let reason = reason_of(alloc, fault)?;
    let line = format!(in alloc; "refused\t{reason}\n")?;
    Ok(line.into_bytes())
}

/// Returns why there are no steps, in words. Fails only if out of memory.
pub fn reason_of(alloc: Global, fault: RolloutFault) -> Result<String, AllocError> {
    match fault {
        RolloutFault::Role(group) => {
            let name = text_of(&group);
            format!(in alloc;
                "group {name} is of DDT nodes in one register and of Map-Servers in the other: rename it"
            )
        }
        RolloutFault::Locators(group) => {
            let name = text_of(&group);
            format!(in alloc;
                "group {name} has more than 8 locators in both registers together: change it in two parts"
            )
        }
        RolloutFault::Memory => format!(in alloc; "out of memory"),
    }
}

fn text_of(name: &Name) -> &str {
    std::str::from_utf8(name.as_bytes()).unwrap_or("")
}
