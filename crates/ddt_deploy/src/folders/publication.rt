//! Publishes a register to a folder, file by file.

ghost use Rattle.std.specs.Prelude.{◌≡◌, MatchResult, OnOk};
ghost use Rattle.std.specs.BTreeSet.{contains};
ghost use Rattle.std.specs.Cmp.Lexicographic.{slice_cmp};
ghost use Rattle.std.specs.Ordering.{nat_cmp};
ghost use Rattle.ddt_check.specs.Rules.{IsAccepted};
ghost use Rattle.ddt_deploy.specs.Folders.Contents.{Contents, IsAsBefore};
ghost use Rattle.ddt_deploy.specs.Folders.Steps.{name_of, replaced, taken};
ghost use Rattle.ddt_deploy.specs.Folders.Plans.{HasCarriedOut, HasPublished};
ghost use Rattle.ddt_deploy.specs.Folders.Laws.{IsPublished};

use crate::folders::fault::PublishFault;
use crate::folders::folder::Folder;
use crate::folders::plan::{Plan, plan_for};
use crate::folders::step::{NamedFile, Step};
use ddt_check::Accepted;
use ddt_path::Name;
use std::alloc::Global;
use std::collections::BTreeSet;

/// Publishes a register to a folder: itself, the configuration of each of its groups that isn't foreign, and a manifest
/// of these, as `plan_for` plans it. Returns the plan.
///
/// Refused as Memory if out of memory, and then nothing was changed; as Failed if the folder fails at a file. Then each
/// file is the old one or the new one: only the first steps of the plan were taken. A further call takes the rest.
pub fn publish<F: Folder>(
    alloc: Global,
    accepted: &Accepted,
    register: &[u8],
    foreign: &BTreeSet<Name>,
    removes: bool,
    folder: &mut F,
) -> Result<Plan, PublishFault<F::Fault>>
    ensures exact { (s : Contents) → F.holds folder.old s
        → HasPublished F.holds (λ name. contains (slice_cmp nat_cmp) foreign.now name) accepted.now register.now removes
        s result folder.new }
    ensures published { (s : Contents) → F.holds folder.old s → IsAccepted accepted.now → OnOk result
        ((t : Contents) × F.holds folder.new t × IsPublished (λ name. contains (slice_cmp nat_cmp) foreign.now name)
        accepted.now register.now removes s t) }
{
    let plan = plan_for(alloc, accepted, register, foreign, removes, folder)?;
    carry_out(folder, plan.steps.as_slice())?;
    Ok(plan)
}

/// Takes steps, one after the other. A file is written beside its place and then put there, so that it is never half
/// written. Refused as Failed at the first file at which the folder fails, and then no further step is taken.
pub fn carry_out<F: Folder>(folder: &mut F, steps: &[Step]) -> Result<(), PublishFault<F::Fault>>
    ensures { (s : Contents) → F.holds folder.old s → HasCarriedOut F.holds steps.now s result folder.new }
{
    for step in steps {
        match take_step(folder, step) {
            Ok(()) => {}
            Err(fault) => {
                return Err(PublishFault::Failed {
                    name: step.name(),
                    fault,
                });
            }
        }
    }
    Ok(())
}

/// Takes one step. If the folder fails, no file is changed.
fn take_step<F: Folder>(folder: &mut F, step: &Step) -> Result<(), F::Fault>
    ensures { (s : Contents) → F.holds folder.old s → MatchResult result
        (λ _. F.holds folder.new (taken step.now s))
        (λ _. (t : Contents) × F.holds folder.new t × IsAsBefore (name_of step.now) s t) }
{
    match step {
        Step::Add(file) | Step::Change(file) => replace(folder, file),
        Step::Remove(name) => folder.remove(*name),
    }
}

/// Writes a file beside its place, and puts it there.
fn replace<F: Folder>(folder: &mut F, file: &NamedFile) -> Result<(), F::Fault>
    ensures { (s : Contents) → F.holds folder.old s → MatchResult result
        (λ _. F.holds folder.new (replaced file.now s))
        (λ _. (t : Contents) × F.holds folder.new t × IsAsBefore file.now.name s t) }
{
    folder.write_beside(file.name, file.bytes.as_slice())?;
    folder.put_in_place(file.name)
}
