//! `ddtplan tree REGISTER` and `ddtplan ladder REGISTER XEID`: pictures.

use crate::inputs::{Failure, accepted_at, no_memory, prefix_in, print, xeid_in};
use ddt_plan_commands::{ExitStatus, LadderAsked, TreeAsked};
use ddt_report::pictures::{ladder_picture, tree_picture};

/// How many levels of zones are drawn where nothing is said of it.
const DEPTH: u32 = 2;

/// Prints the tree of a register as SVG.
pub fn tree(rt: &HostRuntime, asked: &TreeAsked<'_>) -> Result<ExitStatus, Failure> {
    let under = prefix_in(rt, asked.under)?;
    let depth = asked.depth.unwrap_or(DEPTH) as usize;
    let accepted = accepted_at(rt, asked.register)?;
    let picture = tree_picture(rt.alloc(), &accepted, under, depth).map_err(no_memory)?;
    Ok(print(rt, &picture, ExitStatus::Answered))
}

/// Prints the messages of a lookup as SVG.
pub fn ladder(rt: &HostRuntime, asked: &LadderAsked<'_>) -> Result<ExitStatus, Failure> {
    let xeid = xeid_in(rt, asked.identifier)?;
    let accepted = accepted_at(rt, asked.register)?;
    let picture = ladder_picture(rt.alloc(), &accepted, xeid).map_err(no_memory)?;
    Ok(print(rt, &picture, ExitStatus::Answered))
}
