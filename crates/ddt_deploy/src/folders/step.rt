//! A step: the change of one file of a folder.

ghost use Rattle.std.specs.Prelude.{◌≡◌};
ghost use Rattle.ddt_deploy.specs.Folders.Steps.{name_of};

use crate::folders::file_name::FileName;
use ddt_path::{Listed, Name};

/// A file: its name and its bytes.
#[derive(Drop)]
pub struct NamedFile {
    pub name: FileName,
    pub bytes: Listed<u8>,
}

/// The configuration of a group as a manifest lists it.
#[derive(Drop)]
pub struct ListedConfig {
    pub name: Name,
    /// Its SHA-256 in 64 hexadecimal digits.
    pub digits: Listed<u8>,
}

/// The change of one file.
#[derive(Drop)]
pub enum Step {
    /// The file is written, and wasn't there before.
    Add(NamedFile),
    /// The file is written in place of one with other bytes.
    Change(NamedFile),
    /// The file is removed.
    Remove(FileName),
}

impl Step {
    /// Returns the name of the file.
    pub fn name(&self) -> FileName
        ensures { result ≡ name_of self.now }
    {
        match self {
            Step::Add(file) | Step::Change(file) => file.name,
            Step::Remove(name) => *name,
        }
    }
}
