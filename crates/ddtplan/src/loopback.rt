//! `ddtplan loopback REGISTER`: the register with its servers on the loopback.

use crate::inputs::{Failure, accepted_at, no_memory, print};
use ddt_deploy::loopback::{moves_text, register_text, to_loopback};
use ddt_plan_commands::{ExitStatus, LoopbackAsked};

/// Prints the register, or which address became which.
pub fn loopback(rt: &HostRuntime, asked: &LoopbackAsked<'_>) -> Result<ExitStatus, Failure> {
    let accepted = accepted_at(rt, asked.register)?;
    let moved = to_loopback(rt.alloc(), &accepted).map_err(no_memory)?;
    let text = if asked.as_table {
        moves_text(rt.alloc(), accepted.register(), &moved)
    } else {
        register_text(rt.alloc(), &moved)
    };
    Ok(print(rt, &text.map_err(no_memory)?, ExitStatus::Answered))
}
