//! The step for each file, by the bytes that are in the folder.

ghost use Rattle.std.specs.Prelude.{◌≡◌, ◌++◌, IfOk, OnOk};
ghost use Rattle.std.specs.Option.{option_map};
ghost use Rattle.ddt_deploy.specs.Folders.Contents.{Contents};
ghost use Rattle.ddt_deploy.specs.Folders.Wanted.{same_for, same_in, step_for, steps_for};

use crate::folders::fault::PublishFault;
use crate::folders::file_name::FileName;
use crate::folders::folder::Folder;
use crate::folders::step::{NamedFile, Step};
use std::alloc::{AllocError, Global};

/// A draft of a plan: the steps, and the files that stay as they are.
#[derive(Drop)]
pub(crate) struct Draft {
    pub steps: Vec<Step>,
    pub same: Vec<FileName>,
}

impl Draft {
    /// Adds the step for a file, by the bytes that are there; a file with the same bytes stays.
    fn decide(&mut self, file: NamedFile, found: Option<Vec<u8>>) -> Result<(), AllocError>
        ensures steps { OnOk result (self.new.steps.items ≡ self.old.steps.items
            ++ step_for file (option_map (λ bytes. bytes.items) found)) }
        ensures same { OnOk result (self.new.same.items ≡ self.old.same.items
            ++ same_for file (option_map (λ bytes. bytes.items) found)) }
    {
        match found {
            None => self.steps.push(Step::Add(file))?,
            Some(bytes) => {
                if bytes.as_slice() == file.bytes.as_slice() {
                    self.same.push(file.name)?;
                } else {
                    self.steps.push(Step::Change(file))?;
                }
            }
        }
        Ok(())
    }
}

/// Returns the bytes of a file of a folder; None if there is none. Refused as Failed if the folder can't be read.
pub fn read_file<F: Folder>(
    alloc: Global,
    folder: &mut F,
    name: &FileName,
) -> Result<Option<Vec<u8>>, PublishFault<F::Fault>>
    ensures { (s : Contents) → F.holds folder.old s → F.holds folder.new s
        × IfOk result (λ found. s.files name.now ≡ option_map (λ bytes. bytes.items) found) }
{
    match folder.read(alloc, *name) {
        Ok(found) => Ok(found),
        Err(fault) => Err(PublishFault::Failed { name: *name, fault }),
    }
}

/// Adds the step for each of these files.
pub(crate) fn compare<F: Folder>(
    alloc: Global,
    folder: &mut F,
    draft: &mut Draft,
    files: Vec<NamedFile>,
) -> Result<(), PublishFault<F::Fault>>
    ensures { (s : Contents) → F.holds folder.old s → F.holds folder.new s
        × OnOk result ((draft.new.steps.items ≡ draft.old.steps.items ++ steps_for s.files files.items)
        × (draft.new.same.items ≡ draft.old.same.items ++ same_in s.files files.items)) }
{
    for file in files {
        compare_one(alloc, folder, draft, file)?;
    }
    Ok(())
}

/// Adds the step for one file.
pub(crate) fn compare_one<F: Folder>(
    alloc: Global,
    folder: &mut F,
    draft: &mut Draft,
    file: NamedFile,
) -> Result<(), PublishFault<F::Fault>>
    ensures { (s : Contents) → F.holds folder.old s → F.holds folder.new s
        × OnOk result ((draft.new.steps.items ≡ draft.old.steps.items ++ step_for file (s.files file.name))
        × (draft.new.same.items ≡ draft.old.same.items ++ same_for file (s.files file.name))) }
{
    let found = read_file(alloc, folder, &file.name)?;
    draft.decide(file, found)?;
    Ok(())
}
