//! The trait of a folder to which configurations are published.

ghost use Rattle.std.specs.Prelude.{◌≡◌};

use crate::folders::file_name::FileName;
use std::alloc::Global;

/// A folder. Contracts speak of its contents if they are known. Of a folder on a disk nothing is known, since others
/// may write there.
pub trait Folder {
    ghost use Rattle.std.specs.Prelude.{List, ℕ, Option, Some, MatchResult, IfOk};
    ghost use Rattle.std.specs.Option.{option_map};
    ghost use Rattle.ddt_deploy.specs.Folders.Contents.{Contents, placed, removed, with_beside};

    /// The fault of a call.
    type Fault: Drop;

    /// What is known of a folder: that it holds these files, and was touched so.
    ghost holds: { Self → Contents → Type 0 };

    /// Returns the bytes of a file; None if there is none.
    fn read(&mut self, alloc: Global, name: FileName) -> Result<Option<Vec<u8>>, Self::Fault>
        ensures { (s : Contents) → holds self.old s → holds self.new s
            × IfOk result (λ found. s.files name ≡ option_map (λ bytes. bytes.items) found) };

    /// Writes the file beside that of this name. If that fails, the file beside may have any bytes.
    fn write_beside(&mut self, name: FileName, bytes: &[u8]) -> Result<(), Self::Fault>
        ensures { (s : Contents) → holds self.old s → MatchResult result
            (λ _. holds self.new (with_beside name (Some bytes.now) s))
            (λ _. (left : Option (List ℕ)) × holds self.new (with_beside name left s)) };

    /// Puts the file beside that of this name in its place. If that fails, nothing changes.
    fn put_in_place(&mut self, name: FileName) -> Result<(), Self::Fault>
        ensures { (s : Contents) → holds self.old s → MatchResult result
            (λ _. holds self.new (placed name s)) (λ _. holds self.new s) };

    /// Removes a file. If that fails, nothing changes.
    fn remove(&mut self, name: FileName) -> Result<(), Self::Fault>
        ensures { (s : Contents) → holds self.old s → MatchResult result
            (λ _. holds self.new (removed name s)) (λ _. holds self.new s) };
}
