//! The files of a step, written to a folder.

use crate::folders::{
    Draft, FileName, Folder, NamedFile, Plan, PublishFault, carry_out, compare_one,
};
use crate::rollout::files::ConfigFile;
use ddt_path::Listed;
use std::alloc::Global;

/// Writes the files that aren't in a folder as they are to be, and returns what was done. The other files there stay.
///
/// Refused as Memory if out of memory, and then nothing was changed; as Failed if the folder fails at a file.
pub fn write_files<F: Folder>(
    alloc: Global,
    folder: &mut F,
    files: Vec<ConfigFile>,
) -> Result<Plan, PublishFault<F::Fault>> {
    let mut draft = Draft {
        steps: Vec::new(alloc),
        same: Vec::new(alloc),
    };
    for file in files {
        compare_one(alloc, folder, &mut draft, named_file(file))?;
    }
    carry_out(folder, draft.steps.as_slice())?;
    Ok(Plan {
        steps: Listed::of(draft.steps),
        same: Listed::of(draft.same),
        left: Listed::of(Vec::new(alloc)),
        altered: Listed::of(Vec::new(alloc)),
    })
}

/// Returns a group's configuration as a file of the folder.
fn named_file(file: ConfigFile) -> NamedFile {
    let ConfigFile { group, bytes } = file;
    NamedFile {
        name: FileName::Config(group),
        bytes: Listed::of(bytes),
    }
}
