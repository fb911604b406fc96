//! `ddtplan export oor REGISTER GROUP`: a group's configuration as openoverlayrouter reads it.

use crate::inputs::{Failure, accepted_at, no_memory, print};
use ddt_compile::compile_group;
use ddt_deploy::export::oor_text;
use ddt_path::Name;
use ddt_plan_commands::{ExitStatus, ExportAsked};

/// Prints the configuration. Refused where the register has no such group.
pub fn export(rt: &HostRuntime, asked: &ExportAsked<'_>) -> Result<ExitStatus, Failure> {
    let accepted = accepted_at(rt, asked.register)?;
    let Some(name) = Name::of(asked.group.as_bytes()) else {
        return Err(format!(in rt.alloc(); "no such group"));
    };
    let found = compile_group(rt.alloc(), &accepted, name).map_err(no_memory)?;
    let Some(config) = found else {
        return Err(format!(in rt.alloc(); "no such group"));
    };
    let file = oor_text(rt.alloc(), &config).map_err(no_memory)?;
    let end = if file.is_complete {
        ExitStatus::Answered
    } else {
        ExitStatus::Different
    };
    Ok(print(rt, &file.text, end))
}
