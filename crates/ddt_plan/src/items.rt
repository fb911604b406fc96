//! The rows that differ between two registers: zones and sites by their prefixes, groups by their names.

ghost use Rattle.std.specs.Prelude.{IfOk};
ghost use Rattle.ddt_plan.specs.Changes.{are_same_servers};
ghost use Rattle.ddt_plan.specs.Items.{AreItemChanges, AreTableChanges, serving_group_at, etrs_at, group_servers_at, is_same_serving_group, are_same_group_servers};
ghost use Rattle.ddt_plan.specs.Tables.{AreServingGroups, HasPutRows};

use crate::pairs_by_key::{Pair, changes_of, put};
use crate::versions::Which;
use ddt_check::Accepted;
use ddt_path::{LocatorSet, Name, Prefix, Role};
use std::alloc::{AllocError, Global};
use std::collections::BTreeMap;

/// The group that serves a zone.
#[derive(Clone, Copy, Debug, PartialEq, Eq)]
pub struct ServingGroup {
    /// Whether DDT nodes or Map-Servers serve the zone.
    pub kind: Role,
    /// The name of the group.
    pub group: Name,
}

/// The servers of a group.
#[derive(Clone, Copy, Debug, PartialEq, Eq)]
pub struct GroupServers {
    /// Whether they are DDT nodes or Map-Servers.
    pub kind: Role,
    /// Their locators, 1 to 8, in the order of the group's row.
    pub locators: LocatorSet,
}

/// A zone, a site or a group that differs between two registers.
#[derive(Clone, Copy, Debug, PartialEq, Eq)]
pub struct ItemChange<K, V> {
    /// The prefix of the zone or the site, or the name of the group.
    pub key: K,
    /// What the earlier register has under the key; None if the item is new.
    pub before: Option<V>,
    /// What the later register has under the key; None if the item is gone.
    pub after: Option<V>,
}

/// The zones, the sites and the groups that differ between two registers, each list in the order of its keys.
#[derive(Debug, Drop)]
pub struct ItemChanges {
    /// The zones that are new, are gone, or are served by another group or by a group of another kind.
    pub zones: Vec<ItemChange<Prefix, ServingGroup>>,
    /// The sites that are new, are gone, or have other ETRs (at most 8, in the order of the site's row).
    pub sites: Vec<ItemChange<Prefix, LocatorSet>>,
    /// The groups that are new, are gone, or have another kind or other locators.
    pub groups: Vec<ItemChange<Name, GroupServers>>,
}

/// The zones, the sites and the groups that differ between two registers, each of them once. One differs if only one of
/// the registers has its prefix or its name, or if both have it with another kind, another group, or other locators or
/// ETRs. The order of rows is no difference, but the order of the locators or ETRs in a row is. A zone whose group has
/// the same name and kind in both doesn't differ; if the locators of that group differ, it is in the list of groups.
///
/// Takes n log n steps for n rows. Fails only if out of memory.
pub fn item_changes(
    alloc: Global,
    before: &Accepted,
    after: &Accepted,
) -> Result<ItemChanges, AllocError>
    ensures { IfOk result (λ changes. AreItemChanges before.now after.now changes) }
{
    Ok(ItemChanges {
        zones: changed_zones(alloc, before, after)?,
        sites: changed_sites(alloc, before, after)?,
        groups: changed_groups(alloc, before, after)?,
    })
}

/// The groups that serve each zone in two registers, by the zone's EID-prefix. A prefix that is no zone of either
/// register is no key. Fails only if out of memory.
pub fn serving_groups(
    alloc: Global,
    before: &Accepted,
    after: &Accepted,
) -> Result<BTreeMap<Prefix, Pair<ServingGroup>>, AllocError>
    ensures { IfOk result (λ groups. AreServingGroups before.now after.now groups) }
{
    let old = put_zones(BTreeMap::new(alloc), Which::Earlier, before)?;
    put_zones(old, Which::Later, after)
}

/// The zones that differ.
fn changed_zones(
    alloc: Global,
    before: &Accepted,
    after: &Accepted,
) -> Result<Vec<ItemChange<Prefix, ServingGroup>>, AllocError>
    ensures { IfOk result (λ changes. AreTableChanges is_same_serving_group
        (serving_group_at before.now) (serving_group_at after.now) changes.items) }
{
    let old = put_zones(BTreeMap::new(alloc), Which::Earlier, before)?;
    let both = put_zones(old, Which::Later, after)?;
    changes_of(alloc, both)
}

/// The sites that differ.
fn changed_sites(
    alloc: Global,
    before: &Accepted,
    after: &Accepted,
) -> Result<Vec<ItemChange<Prefix, LocatorSet>>, AllocError>
    ensures { IfOk result (λ changes. AreTableChanges are_same_servers
        (etrs_at before.now) (etrs_at after.now) changes.items) }
{
    let old = put_sites(BTreeMap::new(alloc), Which::Earlier, before)?;
    let both = put_sites(old, Which::Later, after)?;
    changes_of(alloc, both)
}

/// The groups that differ.
fn changed_groups(
    alloc: Global,
    before: &Accepted,
    after: &Accepted,
) -> Result<Vec<ItemChange<Name, GroupServers>>, AllocError>
    ensures { IfOk result (λ changes. AreTableChanges are_same_group_servers
        (group_servers_at before.now) (group_servers_at after.now) changes.items) }
{
    let old = put_groups(BTreeMap::new(alloc), Which::Earlier, before)?;
    let both = put_groups(old, Which::Later, after)?;
    changes_of(alloc, both)
}

/// Puts the group that serves each zone of a register under the zone's prefix.
fn put_zones(
    table: BTreeMap<Prefix, Pair<ServingGroup>>,
    which: Which,
    accepted: &Accepted,
) -> Result<BTreeMap<Prefix, Pair<ServingGroup>>, AllocError>
    ensures { IfOk result (λ put. HasPutRows which (serving_group_at accepted.now) table put) }
{
    let mut all = table;
    for zone in accepted.register().zones.as_slice() {
        let serving = ServingGroup {
            kind: zone.kind,
            group: zone.group,
        };
        put(&mut all, which, zone.prefix, serving)?;
    }
    Ok(all)
}

/// Puts the ETRs of each site of a register under the site's prefix.
fn put_sites(
    table: BTreeMap<Prefix, Pair<LocatorSet>>,
    which: Which,
    accepted: &Accepted,
) -> Result<BTreeMap<Prefix, Pair<LocatorSet>>, AllocError>
    ensures { IfOk result (λ put. HasPutRows which (etrs_at accepted.now) table put) }
{
    let mut all = table;
    for site in accepted.register().sites.as_slice() {
        let etrs = LocatorSet::of_few(site.etrs.as_slice());
        put(&mut all, which, site.prefix, etrs)?;
    }
    Ok(all)
}

/// Puts the servers of each group of a register under the group's name.
fn put_groups(
    table: BTreeMap<Name, Pair<GroupServers>>,
    which: Which,
    accepted: &Accepted,
) -> Result<BTreeMap<Name, Pair<GroupServers>>, AllocError>
    ensures { IfOk result (λ put. HasPutRows which (group_servers_at accepted.now) table put) }
{
    let mut all = table;
    for group in accepted.register().groups.as_slice() {
        let servers = GroupServers {
            kind: group.kind,
            locators: LocatorSet::of_few(group.locators.as_slice()),
        };
        put(&mut all, which, group.name, servers)?;
    }
    Ok(all)
}
