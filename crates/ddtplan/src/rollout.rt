//! `ddtplan rollout OLD NEW`, and `ddtplan compile --from OLD --step N NEW FOLDER`: a change step by step.

use crate::disk_folder::{DiskFolder, carried_out};
use crate::foreign::foreign_groups;
use crate::inputs::{Failure, accepted_at, no_memory, print};
use ddt_check::Accepted;
use ddt_deploy::folders::Plan;
use ddt_deploy::rollout::{
    ConfigFile, Stage, files_at, reason_of, rollout_lines, rollout_steps, write_files,
};
use ddt_plan_commands::{CompileAsked, ExitStatus, RolloutAsked, StepAsked};

/// Prints the steps from one register to another.
pub fn rollout(rt: &HostRuntime, asked: &RolloutAsked<'_>) -> Result<ExitStatus, Failure> {
    let before = accepted_at(rt, asked.before)?;
    let after = accepted_at(rt, asked.after)?;
    let text = text_between(rt, &before, &after)?;
    Ok(print(rt, &text, ExitStatus::Answered))
}

/// Returns the lines of the steps from one register to another.
fn text_between(rt: &HostRuntime, before: &Accepted, after: &Accepted) -> Result<Vec<u8>, Failure> {
    match rollout_steps(rt.alloc(), before, after) {
        Ok(steps) => rollout_lines(rt.alloc(), before, after, &steps).map_err(no_memory),
        Err(fault) => Err(reason_of(rt.alloc(), fault)),
    }
}

/// Writes the configurations of a step to a folder, and returns what was done. The other files there stay.
pub fn write_step(
    rt: &HostRuntime,
    asked: &CompileAsked<'_>,
    step: &StepAsked<'_>,
    folder: &mut DiskFolder<'_>,
) -> Result<Plan, Failure> {
    let files = files_of_step(rt, asked, step)?;
    let done = write_files(rt.alloc(), folder, files);
    carried_out(folder, done)
}

/// Returns the configurations of a step.
fn files_of_step(
    rt: &HostRuntime,
    asked: &CompileAsked<'_>,
    step: &StepAsked<'_>,
) -> Result<Vec<ConfigFile>, Failure> {
    let before = accepted_at(rt, step.from)?;
    let after = accepted_at(rt, asked.register)?;
    let stage = stage_of(rt, step.number, &before, &after)?;
    files_between(rt, asked, stage, &before, &after)
}

/// Returns the stage after the step of this number.
fn stage_of(
    rt: &HostRuntime,
    number: u32,
    before: &Accepted,
    after: &Accepted,
) -> Result<Stage, Failure> {
    let steps = match rollout_steps(rt.alloc(), before, after) {
        Ok(steps) => steps,
        Err(fault) => return Err(reason_of(rt.alloc(), fault)),
    };
    match steps.get(number.saturating_sub(1) as usize) {
        Some(step) => Ok(step.stage),
        None => Err(format!(in rt.alloc(); "there are {} steps", steps.len())),
    }
}

/// Returns the configurations of our groups at a stage.
fn files_between(
    rt: &HostRuntime,
    asked: &CompileAsked<'_>,
    stage: Stage,
    before: &Accepted,
    after: &Accepted,
) -> Result<Vec<ConfigFile>, Failure> {
    let foreign = foreign_groups(rt, &[before, after], asked.foreign.as_slice())?;
    match files_at(rt.alloc(), before, after, stage) {
        Ok(mut files) => {
            files.retain(|file| !foreign.contains(&file.group));
            Ok(files)
        }
        Err(fault) => Err(reason_of(rt.alloc(), fault)),
    }
}
