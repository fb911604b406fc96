//! The plan of the changes of a folder. Making it changes nothing.

ghost use Rattle.std.specs.Prelude.{◌≡◌, ◌++◌, map, if◌then◌else◌, IfOk, OnOk};
ghost use Rattle.std.specs.BTreeSet.{contains};
ghost use Rattle.std.specs.Cmp.Lexicographic.{slice_cmp};
ghost use Rattle.std.specs.Ordering.{nat_cmp};
ghost use Rattle.ddt_deploy.specs.Folders.Contents.{Contents};
ghost use Rattle.ddt_deploy.specs.Folders.Wanted.{left_of, manifest_file as manifest_file_of, removals};
ghost use Rattle.ddt_deploy.specs.Folders.Plans.{IsPlan};

use crate::folders::config_files::wanted_files;
use crate::folders::fault::PublishFault;
use crate::folders::file_changes::{Draft, compare, compare_one};
use crate::folders::file_name::FileName;
use crate::folders::folder::Folder;
use crate::folders::gone_files::gone_files;
use crate::folders::manifest::{push_kept, push_lines};
use crate::folders::step::{ListedConfig, NamedFile, Step};
use ddt_check::Accepted;
use ddt_path::{Listed, Name};
use std::alloc::{AllocError, Global};
use std::collections::BTreeSet;

/// The changes of a folder after which it has all configurations of a register.
#[derive(Drop)]
pub struct Plan {
    /// The steps in their order, the manifest last.
    pub steps: Listed<Step>,
    /// The files that stay as they are.
    pub same: Listed<FileName>,
    /// The configurations of groups that are gone, which are left there if no removal is asked for.
    pub left: Listed<FileName>,
    /// The configurations of groups that are gone and that somebody has altered. They are never removed.
    pub altered: Listed<FileName>,
}

/// Returns the changes after which a folder has the register, the configuration of each of its groups that isn't
/// foreign, and a manifest of these. `foreign` has the names of the groups whose servers others run. The configurations
/// are written in the order of prefixes, so that the order of the register's rows doesn't matter. A file that has these
/// bytes already is left alone.
///
/// A configuration that the last manifest lists, of a group that the register lacks or that is foreign, is gone. It is
/// removed if `removes`; otherwise it is left, and the new manifest lists it too. One whose SHA-256 isn't the listed
/// one was altered: it is always left, and the new manifest has its old line. No other file is named. Nothing is
/// changed.
///
/// Refused as Memory if out of memory, and as Failed if a file can't be read.
pub fn plan_for<F: Folder>(
    alloc: Global,
    accepted: &Accepted,
    register: &[u8],
    foreign: &BTreeSet<Name>,
    removes: bool,
    folder: &mut F,
) -> Result<Plan, PublishFault<F::Fault>>
    ensures { (s : Contents) → F.holds folder.old s → F.holds folder.new s
        × IfOk result (IsPlan (λ name. contains (slice_cmp nat_cmp) foreign.now name) accepted.now register.now removes
        s.files) }
{
    let wanted = wanted_files(alloc, accepted, register, foreign)?;
    let gone = gone_files(alloc, accepted, foreign, folder)?;
    let manifest = manifest_file(alloc, &wanted, left(removes, &gone.files), &gone.altered)?;
    let mut draft = Draft {
        steps: Vec::new(alloc),
        same: Vec::new(alloc),
    };
    compare(alloc, folder, &mut draft, wanted)?;
    push_removals(&mut draft.steps, removes, &gone.files)?;
    compare_one(alloc, folder, &mut draft, manifest)?;
    Ok(Plan {
        steps: Listed::of(draft.steps),
        same: Listed::of(draft.same),
        left: names_of(alloc, left(removes, &gone.files))?,
        altered: names_of_listed(alloc, &gone.altered)?,
    })
}

/// Returns the gone files that are left there.
fn left(removes: bool, gone: &[NamedFile]) -> &[NamedFile]
    ensures { result.now ≡ left_of removes gone.now }
{
    if removes { &[] } else { gone }
}

/// Returns the manifest of the wanted files and of those that are left, with the old lines of altered ones.
fn manifest_file(
    alloc: Global,
    wanted: &[NamedFile],
    left: &[NamedFile],
    altered: &[ListedConfig],
) -> Result<NamedFile, AllocError>
    ensures { IfOk result (λ file. file ≡ manifest_file_of (wanted.now ++ left.now) altered.now) }
{
    let mut text = Vec::new(alloc);
    push_lines(&mut text, wanted)?;
    push_lines(&mut text, left)?;
    push_kept(&mut text, altered)?;
    Ok(NamedFile {
        name: FileName::Manifest,
        bytes: Listed::of(text),
    })
}

/// Appends the removal of each gone file, if that is asked for.
fn push_removals(steps: &mut Vec<Step>, removes: bool, gone: &[NamedFile]) -> Result<(), AllocError>
    ensures { OnOk result (steps.new.items ≡ steps.old.items ++ removals removes gone.now) }
{
    if !removes {
        return Ok(());
    }
    for file in gone {
        steps.push(Step::Remove(file.name))?;
    }
    Ok(())
}

fn names_of(alloc: Global, files: &[NamedFile]) -> Result<Listed<FileName>, AllocError>
    ensures { IfOk result (λ names. names ≡ map (λ file. file.name) files.now) }
{
    let mut names = Vec::new(alloc);
    for file in files {
        names.push(file.name)?;
    }
    Ok(Listed::of(names))
}

/// Returns the file names of listed configurations.
fn names_of_listed(alloc: Global, configs: &[ListedConfig]) -> Result<Listed<FileName>, AllocError>
    ensures { IfOk result (λ names. names ≡ map (λ listed. FileName.Config listed.name) configs.now) }
{
    let mut names = Vec::new(alloc);
    for listed in configs {
        names.push(FileName::Config(listed.name))?;
    }
    Ok(Listed::of(names))
}
