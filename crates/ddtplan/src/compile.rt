//! `ddtplan compile REGISTER FOLDER`: all configurations of a register in a folder.

use crate::disk_folder::{DiskFolder, carried_out, failed, shown_path};
use crate::foreign::foreign_groups;
use crate::inputs::{Failure, accepted_in, bytes_at, no_memory, print, say};
use crate::rollout::write_step;
use ddt_check::Accepted;
use ddt_deploy::folders::{FileName, Folder, Plan, lines_of, publish};
use ddt_plan_commands::{CompileAsked, ExitStatus};
use ddt_register::{Register, read_register};
use ddt_review::warnings::LostSites;

/// Writes the files, and prints what was done.
pub fn compile(rt: &HostRuntime, asked: &CompileAsked<'_>) -> Result<ExitStatus, Failure> {
    let plan = written(rt, asked)?;
    tell(rt, asked, &plan)
}

/// Writes the files of the register, or of a step, and returns what was done.
fn written(rt: &HostRuntime, asked: &CompileAsked<'_>) -> Result<Plan, Failure> {
    let mut folder = DiskFolder::open(rt, asked.folder)?;
    match &asked.step {
        Some(step) => write_step(rt, asked, step, &mut folder),
        None => published_at(rt, asked, &mut folder),
    }
}

/// Publishes the register at the path.
fn published_at(
    rt: &HostRuntime,
    asked: &CompileAsked<'_>,
    folder: &mut DiskFolder<'_>,
) -> Result<Plan, Failure> {
    let bytes = bytes_at(rt, asked.register)?;
    let accepted = accepted_in(rt, asked.register, &bytes)?;
    published(rt, asked, folder, &accepted, &bytes)
}

/// Publishes a register, which has these bytes.
fn published(
    rt: &HostRuntime,
    asked: &CompileAsked<'_>,
    folder: &mut DiskFolder<'_>,
    accepted: &Accepted,
    bytes: &[u8],
) -> Result<Plan, Failure> {
    if let Some(percent) = asked.max_lost {
        keep_sites(rt, asked, folder, accepted, percent)?;
    }
    let foreign = foreign_groups(rt, &[accepted], asked.foreign.as_slice())?;
    let done = publish(rt.alloc(), accepted, bytes, &foreign, asked.removes, folder);
    carried_out(folder, done)
}

/// Refuses a register that lacks more than so many percent of the sites that the folder's register has.
fn keep_sites(
    rt: &HostRuntime,
    asked: &CompileAsked<'_>,
    folder: &mut DiskFolder<'_>,
    accepted: &Accepted,
    percent: u32,
) -> Result<(), Failure> {
    let Some(before) = register_in(rt, asked.folder, folder)? else {
        return Ok(());
    };
    let lost = LostSites::of(rt.alloc(), &before, accepted.register()).map_err(no_memory)?;
    if lost.exceeds(percent) {
        Err(too_many_lost(rt, asked, lost, percent))
    } else {
        Ok(())
    }
}

/// Why a register is refused that lacks so many sites.
fn too_many_lost(
    rt: &HostRuntime,
    asked: &CompileAsked<'_>,
    lost: LostSites,
    percent: u32,
) -> Failure {
    let (register, LostSites { gone, all }) = (asked.register, lost);
    let path = shown_path(rt, asked.folder, FileName::Register)?;
    format!(in rt.alloc();
        "{register}: {gone} of the {all} sites of {path} are gone, more than {percent} percent"
    )
}

/// The register of the folder at a path, if it has one.
fn register_in(
    rt: &HostRuntime,
    path: &str,
    folder: &mut DiskFolder<'_>,
) -> Result<Option<Register>, Failure> {
    let bytes = match folder.read(rt.alloc(), FileName::Register) {
        Ok(Some(bytes)) => bytes,
        Ok(None) => return Ok(None),
        Err(fault) => return Err(failed(rt, path, FileName::Register, fault)),
    };
    match read_register(rt.alloc(), bytes.as_slice()) {
        Ok(register) => Ok(Some(register)),
        Err(fault) => {
            let path = shown_path(rt, path, FileName::Register).map_err(no_memory)?;
            Err(format!(in rt.alloc(); "{path}: unreadable {fault}"))
        }
    }
}

/// Prints what was done, and why a file was to be removed and wasn't.
fn tell(rt: &HostRuntime, asked: &CompileAsked<'_>, plan: &Plan) -> Result<ExitStatus, Failure> {
    let text = lines_of(rt.alloc(), plan).map_err(no_memory)?;
    let altered = plan.altered.as_slice();
    if !asked.removes || altered.is_empty() {
        return Ok(print(rt, &text, ExitStatus::Answered));
    }
    let end = print(rt, &text, ExitStatus::Different);
    say_altered(rt, asked.folder, altered)?;
    Ok(end)
}

/// Writes why each of these files isn't removed to standard error.
fn say_altered(rt: &HostRuntime, folder: &str, altered: &[FileName]) -> Result<(), Failure> {
    for name in altered {
        let path = shown_path(rt, folder, *name).map_err(no_memory)?;
        let why = format!(in rt.alloc();
            "{path}: not removed: its SHA-256 is not the one in MANIFEST"
        );
        say(rt, why.map_err(no_memory)?.as_str());
    }
    Ok(())
}
