//! The groups whose configuration changes in more than the order of rows.

ghost use Rattle.std.specs.Prelude.{◌≡◌, IfOk};
ghost use Rattle.std.specs.Option.{option_map};
ghost use Rattle.ddt_plan.specs.Groups.{AreGroupChanges};
ghost use Rattle.ddt_plan.specs.Versions.{kind_of as kind_of_versions};

use crate::config_comparison::is_same_config;
use crate::versions::{Versions, versions_by_name};
use ddt_check::Accepted;
use ddt_path::Name;
use std::alloc::{AllocError, Global};

/// How the configuration of a group changes.
#[derive(Clone, Copy, Debug, PartialEq, Eq)]
pub enum GroupChangeKind {
    /// Only the later register has the group.
    Added,
    /// Only the earlier register has the group.
    Removed,
    /// Both have it, and its configurations aren't the same.
    Changed,
}

/// A group whose configuration changes.
#[derive(Clone, Copy, Debug, PartialEq, Eq)]
pub struct GroupChange {
    /// The name of the group.
    pub name: Name,
    pub kind: GroupChangeKind,
}

/// The groups whose servers need another configuration in a later register than in an earlier one, in the order of
/// their names, none twice. A configuration is what `ddt_compile` makes. Two are the same if they have the same kind,
/// the same locators in the same order, and the same authorities, each with the same children or the same sites (RFC
/// 8111, section 4). The order of authorities, of children and of sites, which is that of the rows, doesn't matter.
///
/// Fails only if out of memory.
pub fn group_changes(
    alloc: Global,
    before: &Accepted,
    after: &Accepted,
) -> Result<Vec<GroupChange>, AllocError>
    ensures { IfOk result (λ changes. AreGroupChanges before.now after.now changes.items) }
{
    versions_by_name(alloc, before, after)?
        .into_iter()
        .filter_map(|(name, versions)| change_of(name, versions))
        .collect(alloc)
}

fn change_of(name: Name, versions: Versions) -> Option<GroupChange>
    ensures { result ≡ option_map (λ kind. record { name = name; kind = kind }) (kind_of_versions versions) }
{
    let kind = kind_of(versions)?;
    Some(GroupChange { name, kind })
}

fn kind_of(versions: Versions) -> Option<GroupChangeKind>
    ensures { result ≡ kind_of_versions versions }
{
    match versions {
        Versions::Before(_) => Some(GroupChangeKind::Removed),
        Versions::After(_) => Some(GroupChangeKind::Added),
        Versions::Both(before, after) => {
            if is_same_config(before, after) {
                None
            } else {
                Some(GroupChangeKind::Changed)
            }
        }
    }
}
