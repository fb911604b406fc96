//! The names of the program's files in a folder.

ghost use Rattle.std.specs.Prelude.{◌≡◌, ◌++◌, IfOk, OnOk};
ghost use Rattle.ddt_deploy.specs.Folders.Names.{beside_text, file_text, IsPlain};

use ddt_path::Name;
use std::alloc::{AllocError, Global};

/// A file of a folder with configurations. The folder may have other files, which have no such name.
#[derive(Clone, Copy, Debug, PartialEq, Eq)]
pub enum FileName {
    /// `register.csv`: the register from which the configurations were made.
    Register,
    /// `NAME.toml`: the configuration of the group of that name.
    Config(Name),
    /// `MANIFEST`: the SHA-256 of each other file.
    Manifest,
}

impl FileName {
    /// Returns the name in the folder. It can't be a path elsewhere: it has no `/`, and is neither `.` nor `..`.
    pub fn text(self, alloc: Global) -> Result<Vec<u8>, AllocError>
        ensures written { IfOk result (λ text. text.items ≡ file_text self) }
        ensures plain { OnOk result (IsPlain (file_text self)) }
    {
        let mut text = Vec::new(alloc);
        self.push(&mut text)?;
        Ok(text)
    }

    /// Returns the name of the file beside it, which is written first and then put in its place: its own name, a dot, a
    /// mark of the caller's choice and `.new`. It can't be a path elsewhere either.
    pub fn text_beside(self, alloc: Global, mark: Name) -> Result<Vec<u8>, AllocError>
        ensures written { IfOk result (λ text. text.items ≡ beside_text self mark) }
        ensures plain { OnOk result (IsPlain (beside_text self mark)) }
    {
        let mut text = self.text(alloc)?;
        text.push(b'.')?;
        text.extend_from_slice(mark.as_bytes())?;
        text.extend_from_slice(b".new")?;
        Ok(text)
    }

    /// Appends the name.
    pub fn push(self, text: &mut Vec<u8>) -> Result<(), AllocError>
        ensures written { OnOk result (text.new.items ≡ text.old.items ++ file_text self) }
        ensures plain { IsPlain (file_text self) }
    {
        match self {
            FileName::Register => text.extend_from_slice(b"register.csv"),
            FileName::Config(name) => {
                text.extend_from_slice(name.as_bytes())?;
                text.extend_from_slice(b".toml")
            }
            FileName::Manifest => text.extend_from_slice(b"MANIFEST"),
        }
    }
}
