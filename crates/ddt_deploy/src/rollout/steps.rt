//! The steps from one register to another.

use crate::rollout::fault::RolloutFault;
use crate::rollout::files::{ConfigFile, files_at, files_of};
use crate::rollout::lost_zone_waits::waits_of;
use crate::rollout::stage::Stage;
use ddt_check::Accepted;
use ddt_compile::compile;
use ddt_path::Name;
use ddt_plan::group_changes;
use std::alloc::{AllocError, Global};
use std::collections::BTreeSet;

/// A step from one register to another.
#[derive(Drop)]
pub struct RolloutStep {
    /// The stage after the step.
    pub stage: Stage,
    /// The number of waits of 1,440 minutes and 2 seconds before the step, since all later zones are in force.
    pub waits: u32,
    /// The groups whose servers load another configuration, in the order of their names.
    pub loads: Vec<Name>,
    /// The groups whose servers are stopped, in the order of their names.
    pub stops: Vec<Name>,
}

/// Returns the steps from one register to another; none if no configuration changes. First come the zones with the
/// longest EID-prefixes: a zone is served as in the later register before a zone around it refers there. Then servers
/// lose what no cache leads to any more, after as many waits as that takes; at the last stage they have lost all.
///
/// Refused as 1 Role and 2 Locators, each with a group's name; as 3 Memory if out of memory.
pub fn rollout_steps(
    alloc: Global,
    before: &Accepted,
    after: &Accepted,
) -> Result<Vec<RolloutStep>, RolloutFault> {
    let mut steps = Vec::new(alloc);
    let mut files = files_of(alloc, compile(alloc, before)?.into_vec())?;
    files.sort_unstable_by_key(|file| file.group);
    let most = most_waits(alloc, before, after)?;
    for stage in stages(alloc, before, after, most)? {
        let next = files_at(alloc, before, after, stage)?;
        let mut step = step_between(alloc, stage, &files, &next)?;
        step.waits = waits_before(stage, most);
        if !step.loads.is_empty() || !step.stops.is_empty() {
            steps.push(step)?;
        }
        files = next;
    }
    Ok(steps)
}

/// Returns the stages at which something may change, in their order: those of the lengths of the prefixes of zones in
/// the later register whose groups' configurations change, the longest first; one after each wait; and the last one.
fn stages(
    alloc: Global,
    before: &Accepted,
    after: &Accepted,
    most: u32,
) -> Result<Vec<Stage>, AllocError> {
    let mut changed = BTreeSet::new(alloc);
    for change in group_changes(alloc, before, after)? {
        changed.insert(change.name)?;
    }
    let mut lengths = Vec::new(alloc);
    for zone in after.register().zones.as_slice() {
        if changed.contains(&zone.group) {
            lengths.push(zone.prefix.len())?;
        }
    }
    lengths.sort_unstable();
    lengths.dedup();
    let mut stages = Vec::new(alloc);
    for length in lengths.into_iter().rev() {
        stages.push(Stage::From(length))?;
    }
    for waits in 1..most {
        stages.push(Stage::After(waits))?;
    }
    stages.push(Stage::Last)?;
    Ok(stages)
}

fn waits_before(stage: Stage, most: u32) -> u32 {
    match stage {
        Stage::From(_) => 0,
        Stage::After(waits) => waits,
        Stage::Last => most,
    }
}

/// Returns the number of waits before the last stage, at least 1.
fn most_waits(alloc: Global, before: &Accepted, after: &Accepted) -> Result<u32, AllocError> {
    let waits = waits_of(alloc, before, after)?;
    Ok(waits.values().copied().max().unwrap_or(1))
}

/// Returns the step to `next`: the groups whose files differ, and those whose files are gone, in the order of their
/// names.
fn step_between(
    alloc: Global,
    stage: Stage,
    files: &[ConfigFile],
    next: &[ConfigFile],
) -> Result<RolloutStep, AllocError> {
    let mut step = RolloutStep {
        stage,
        waits: 0,
        loads: Vec::new(alloc),
        stops: Vec::new(alloc),
    };
    for file in next {
        if !is_same_there(files, file) {
            step.loads.push(file.group)?;
        }
    }
    for file in files {
        if find(next, file.group).is_none() {
            step.stops.push(file.group)?;
        }
    }
    Ok(step)
}

/// Returns whether the files have this one, with the same bytes.
fn is_same_there(files: &[ConfigFile], file: &ConfigFile) -> bool {
    match find(files, file.group) {
        Some(other) => other.bytes == file.bytes,
        None => false,
    }
}

/// Returns the file of a group, from files in the order of their names.
fn find(files: &[ConfigFile], group: Name) -> Option<&ConfigFile> {
    let place = files.binary_search_by_key(&group, |file| file.group).ok()?;
    files.get(place)
}
