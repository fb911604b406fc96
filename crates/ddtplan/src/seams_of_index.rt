//! The registers of many organisations, as an index names them: whether their servers are those of one tree.

use crate::inputs::{Failure, accepted_at, bytes_at, no_memory, print};
use crate::tree_index::{Runner, runners_in};
use ddt_check::Accepted;
use ddt_organisations::{Organisation, TreeFault, seams, tree_faults};
use ddt_path::Name;
use ddt_plan_commands::ExitStatus;
use ddt_register::Zone;
use ddt_text::write_prefix;
use std::alloc::{AllocError, Global};
use std::collections::BTreeSet;
use std::str;

const ROOT_NOT_RUN: &str = "the first register doesn't run the root";

const INSIDE: &str = "inside a zone that is delegated";

const NOBODY_RUNS: &str = "nobody runs the group";

const BAD_SEAM: &str = "the seam isn't good";

const TOO_MANY_ROWS: &str = "more than 65535 rows together";

/// The organisations of an index, and the files of their registers at the same places.
#[derive(Drop)]
struct OrganisationTree {
    files: Vec<String>,
    all: Vec<Organisation>,
}

/// Prints what is wrong with a tree, or how large a good one is.
pub fn seams_of_index(rt: &HostRuntime, path: &str) -> Result<ExitStatus, Failure> {
    let tree = tree_at(rt, path)?;
    let faults = tree_faults(rt.alloc(), &tree.all).map_err(no_memory)?;
    if faults.is_empty() {
        let text = size_text(rt.alloc(), &tree).map_err(no_memory)?;
        return Ok(print(rt, text.as_bytes(), ExitStatus::Answered));
    }
    let text = faults_text(rt.alloc(), &tree, &faults).map_err(no_memory)?;
    Ok(print(rt, &text, ExitStatus::Different))
}

/// Returns the organisations of the index at a path.
fn tree_at(rt: &HostRuntime, path: &str) -> Result<OrganisationTree, Failure> {
    let bytes = bytes_at(rt, path)?;
    tree_of(rt, path, runners_in(rt, path, &bytes)?)
}

/// Returns the organisations of an index. Refused if a register isn't accepted, or has no group of a name.
fn tree_of(
    rt: &HostRuntime,
    path: &str,
    runners: Vec<Runner>,
) -> Result<OrganisationTree, Failure> {
    let mut tree = OrganisationTree {
        files: Vec::new(rt.alloc()),
        all: Vec::new(rt.alloc()),
    };
    for runner in runners {
        tree.add(rt, path, runner)?;
    }
    Ok(tree)
}

impl OrganisationTree {
    /// Adds the organisation of a register that the index at a path names.
    fn add(&mut self, rt: &HostRuntime, path: &str, runner: Runner) -> Result<(), Failure> {
        let file = beside(rt.alloc(), path, runner.file.as_str()).map_err(no_memory)?;
        let organisation = organisation_of(rt, path, file.as_str(), runner)?;
        self.all.push(organisation).map_err(|_| Err(AllocError))?;
        self.files.push(file).map_err(|_| Err(AllocError))
    }
}

/// Returns the path of a file that an index names: relative to the index's folder, unless it is absolute.
fn beside(alloc: Global, index: &str, file: &str) -> Result<String, AllocError> {
    match index.rsplit_once('/') {
        Some((folder, _name)) if !file.starts_with('/') => format!(in alloc; "{folder}/{file}"),
        _ => String::from_str(alloc, file),
    }
}

/// Returns the organisation that runs groups from the register of a file.
fn organisation_of(
    rt: &HostRuntime,
    path: &str,
    file: &str,
    runner: Runner,
) -> Result<Organisation, Failure> {
    let accepted = accepted_at(rt, file)?;
    match lacking(rt, path, file, &runner.groups, &accepted) {
        Some(why) => Err(why),
        None => Ok(Organisation::of(accepted, runner.groups)),
    }
}

/// Returns the failure of a register that lacks one of these groups.
fn lacking(
    rt: &HostRuntime,
    path: &str,
    file: &str,
    groups: &BTreeSet<Name>,
    accepted: &Accepted,
) -> Option<Failure> {
    let lacks = groups
        .iter()
        .find(|name| accepted.group_named(**name).is_none())?;
    let group = str::from_utf8(lacks.as_bytes()).unwrap_or("");
    Some(format!(in rt.alloc(); "{path}: {file} has no group {group}"))
}

/// Returns the line of a good tree.
fn size_text(alloc: Global, tree: &OrganisationTree) -> Result<String, AllocError> {
    let registers = tree.all.len();
    let mut groups: usize = 0;
    for organisation in &tree.all {
        groups = groups.saturating_add(organisation.groups.len());
    }
    let seams = seams(alloc, &tree.all)?.len();
    format!(in alloc; "registers {registers}\tgroups {groups}\tseams {seams}\n")
}

/// Returns the lines of faults.
fn faults_text(
    alloc: Global,
    tree: &OrganisationTree,
    faults: &[TreeFault],
) -> Result<Vec<u8>, AllocError> {
    let mut text = Vec::new(alloc);
    for fault in faults {
        push_fault(&mut text, tree, fault)?;
    }
    Ok(text)
}

/// Appends the line of a fault, and after it those of a seam.
fn push_fault(
    text: &mut Vec<u8>,
    tree: &OrganisationTree,
    fault: &TreeFault,
) -> Result<(), AllocError> {
    match fault {
        TreeFault::RootNotRun => push_zone(text, tree, 0, None, ROOT_NOT_RUN),
        TreeFault::Inside { organisation, row } => {
            push_zone(text, tree, *organisation, Some(*row), INSIDE)
        }
        TreeFault::NobodyRuns { organisation, row } => {
            push_zone(text, tree, *organisation, Some(*row), NOBODY_RUNS)
        }
        TreeFault::BadSeam {
            organisation,
            other,
            lines,
        } => push_seam(text, tree, (*organisation, *other), lines),
        TreeFault::TooManyRows {
            organisation,
            other,
        } => push_pair(text, tree, (*organisation, *other), TOO_MANY_ROWS),
    }
}

/// Appends the line of a seam that isn't good, and after it its own lines.
fn push_seam(
    text: &mut Vec<u8>,
    tree: &OrganisationTree,
    numbers: (usize, usize),
    lines: &[u8],
) -> Result<(), AllocError> {
    push_pair(text, tree, numbers, BAD_SEAM)?;
    text.extend_from_slice(lines)?;
    Ok(())
}

/// Appends the file of an organisation, the zone of a row of its register, or the root, the zone's group, and why.
fn push_zone(
    text: &mut Vec<u8>,
    tree: &OrganisationTree,
    number: usize,
    row: Option<u32>,
    why: &str,
) -> Result<(), AllocError> {
    push_file(text, tree, number)?;
    if let Some(organisation) = tree.all.get(number) {
        if let Some(zone) = zone_of(organisation, row) {
            write_prefix(text, zone.prefix)?;
            text.push(b'\t')?;
            text.extend_from_slice(zone.group.as_bytes())?;
            text.push(b'\t')?;
        }
    }
    push_end(text, why)
}

/// Returns the zone of a row of an organisation's register; the root for None. Zones are in the order of their rows.
fn zone_of(organisation: &Organisation, row: Option<u32>) -> Option<Zone> {
    let zones = organisation.register.register().zones.as_slice();
    let place = match row {
        Some(row) => zones.binary_search_by_key(&row, |zone| zone.row).ok()?,
        None => zones.iter().position(|zone| zone.prefix.len() == 0)?,
    };
    zones.get(place).copied()
}

/// Appends the files of two organisations, and why.
fn push_pair(
    text: &mut Vec<u8>,
    tree: &OrganisationTree,
    numbers: (usize, usize),
    why: &str,
) -> Result<(), AllocError> {
    push_file(text, tree, numbers.0)?;
    push_file(text, tree, numbers.1)?;
    push_end(text, why)
}

/// Appends the file of an organisation and a tab.
fn push_file(text: &mut Vec<u8>, tree: &OrganisationTree, number: usize) -> Result<(), AllocError> {
    if let Some(file) = tree.files.get(number) {
        text.extend_from_slice(file.as_bytes())?;
        text.push(b'\t')?;
    }
    Ok(())
}

/// Appends why, and the end of the line.
fn push_end(text: &mut Vec<u8>, why: &str) -> Result<(), AllocError> {
    text.extend_from_slice(why.as_bytes())?;
    text.push(b'\n')?;
    Ok(())
}
