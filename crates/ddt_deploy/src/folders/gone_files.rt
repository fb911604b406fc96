//! The configurations in a folder whose groups are gone.

ghost use Rattle.std.specs.Prelude.{◌≡◌, ◌&&◌, ◌++◌, not, [], false, Some, IfOk, OnOk, unwrap_or};
ghost use Rattle.std.specs.BTreeMap.{get};
ghost use Rattle.std.specs.BTreeSet.{contains};
ghost use Rattle.std.specs.Cmp.Lexicographic.{slice_cmp};
ghost use Rattle.std.specs.Option.{is_some, option_map};
ghost use Rattle.std.specs.Ordering.{nat_cmp};
ghost use Rattle.ddt_deploy.specs.Folders.Contents.{Contents};
ghost use Rattle.ddt_deploy.specs.Folders.Manifest.{AreConfigsIn};
ghost use Rattle.ddt_deploy.specs.Folders.Wanted.{altered_if, gone_if, AreGoneFiles};

use crate::folders::fault::PublishFault;
use crate::folders::file_changes::read_file;
use crate::folders::file_name::FileName;
use crate::folders::folder::Folder;
use crate::folders::manifest::{configs_in, digits_of};
use crate::folders::step::{ListedConfig, NamedFile};
use ddt_check::Accepted;
use ddt_compile::locators_by_name;
use ddt_path::{Listed, LocatorSet, Name};
use std::alloc::{AllocError, Global};
use std::collections::{BTreeMap, BTreeSet};

/// The configurations of groups that are gone.
#[derive(Drop)]
pub(crate) struct GoneFiles {
    /// Those whose bytes are as the last manifest lists them.
    pub files: Vec<NamedFile>,
    /// Those that somebody has altered since, as the manifest lists them.
    pub altered: Vec<ListedConfig>,
}

impl GoneFiles {
    /// Adds a listed configuration, which has these bytes now.
    fn add(&mut self, alloc: Global, listed: ListedConfig, bytes: Vec<u8>) -> Result<(), AllocError>
        ensures files { OnOk result (self.new.files.items ≡ self.old.files.items
            ++ gone_if false listed (Some bytes.items)) }
        ensures altered { OnOk result (self.new.altered.items ≡ self.old.altered.items
            ++ altered_if false listed (Some bytes.items)) }
    {
        let digits = digits_of(alloc, &bytes)?;
        if digits.as_bytes() == listed.digits.as_slice() {
            self.files.push(NamedFile {
                name: FileName::Config(listed.name),
                bytes: Listed::of(bytes),
            })?;
        } else {
            self.altered.push(listed)?;
        }
        Ok(())
    }
}

/// Returns the configurations that the last manifest lists, that are still there, and whose groups the register lacks
/// or are foreign, in the order of their names. Refused as Memory if out of memory, or as Failed if the folder can't be
/// read.
pub(crate) fn gone_files<F: Folder>(
    alloc: Global,
    accepted: &Accepted,
    foreign: &BTreeSet<Name>,
    folder: &mut F,
) -> Result<GoneFiles, PublishFault<F::Fault>>
    ensures { (s : Contents) → F.holds folder.old s → F.holds folder.new s
        × IfOk result (λ gone. AreGoneFiles (λ name. contains (slice_cmp nat_cmp) foreign.now name) accepted.now s.files
        gone.files.items gone.altered.items) }
{
    let manifest = read_file(alloc, folder, &FileName::Manifest)?;
    let listed = listed_last(alloc, manifest)?;
    let groups = locators_by_name(alloc, accepted)?;
    let mut gone = GoneFiles {
        files: Vec::new(alloc),
        altered: Vec::new(alloc),
    };
    for (name, digits) in listed {
        let is_ours = is_our_group(&groups, foreign, name);
        let listed = ListedConfig { name, digits };
        add_gone(alloc, folder, &mut gone, is_ours, listed)?;
    }
    Ok(gone)
}

/// Returns whether a name is that of one of these groups, and isn't foreign.
fn is_our_group(groups: &BTreeMap<Name, LocatorSet>, foreign: &BTreeSet<Name>, name: Name) -> bool
    ensures { result ≡ (is_some (get (slice_cmp nat_cmp) groups.now name)
        && not (contains (slice_cmp nat_cmp) foreign.now name)) }
{
    groups.contains_key(&name) && !foreign.contains(&name)
}

/// Returns the configurations that the last manifest lists; none if there is no manifest.
fn listed_last(
    alloc: Global,
    manifest: Option<Vec<u8>>,
) -> Result<BTreeMap<Name, Listed<u8>>, AllocError>
    ensures { IfOk result (AreConfigsIn (unwrap_or (option_map (λ bytes. bytes.items) manifest) [])) }
{
    match manifest {
        Some(bytes) => configs_in(alloc, &bytes),
        None => configs_in(alloc, &[]),
    }
}

/// Adds a listed configuration, if its group isn't one of ours and the file is there.
fn add_gone<F: Folder>(
    alloc: Global,
    folder: &mut F,
    gone: &mut GoneFiles,
    is_ours: bool,
    listed: ListedConfig,
) -> Result<(), PublishFault<F::Fault>>
    ensures { (s : Contents) → F.holds folder.old s → F.holds folder.new s
        × OnOk result ((gone.new.files.items ≡ gone.old.files.items
        ++ gone_if is_ours listed (s.files (FileName.Config listed.name)))
        × (gone.new.altered.items ≡ gone.old.altered.items
        ++ altered_if is_ours listed (s.files (FileName.Config listed.name)))) }
{
    if is_ours {
        return Ok(());
    }
    if let Some(bytes) = read_file(alloc, folder, &FileName::Config(listed.name))? {
        gone.add(alloc, listed, bytes)?;
    }
    Ok(())
}
