//! Whether a change puts a referral out of date that a Map-Resolver may have cached (RFC 8111, section 6).

ghost use Rattle.std.specs.Prelude.{◌≡◌, ◌==◌, ◌&&◌, not, [], length, unwrap_or, IfOk};
ghost use Rattle.std.specs.Ordering.{nat_cmp};
ghost use Rattle.std.specs.Cmp.Lexicographic.{slice_cmp};
ghost use Rattle.std.specs.BTreeMap.{get};
ghost use Rattle.ddt_plan_commands.specs.Referrals.{
  HasZoneServers,
  has_outdated as has_outdated_of,
  is_outdated as is_outdated_of,
};

use crate::effects::are_same_servers;
use ddt_check::Accepted;
use ddt_compile::locators_by_name;
use ddt_path::{LocatorSet, Name, Prefix};
use std::alloc::{AllocError, Global};
use std::collections::BTreeMap;

/// Whether a zone other than the root is gone, or has other servers. Fails only if out of memory.
pub(crate) fn has_outdated(
    alloc: Global,
    before: &Accepted,
    after: &Accepted,
) -> Result<bool, AllocError>
    ensures { IfOk result (λ outdated. outdated ≡ has_outdated_of before.now after.now) }
{
    let old = zone_servers(alloc, before)?;
    let new = zone_servers(alloc, after)?;
    for zone in before.register().zones.as_slice() {
        if is_outdated_at(zone.prefix, &old, &new) {
            return Ok(true);
        }
    }
    Ok(false)
}

/// Whether a referral to a zone is out of date; none is to the root.
fn is_outdated_at(
    prefix: Prefix,
    old: &BTreeMap<Prefix, LocatorSet>,
    new: &BTreeMap<Prefix, LocatorSet>,
) -> bool
    ensures { result ≡ (not (length prefix == 0) && is_outdated_of (get (slice_cmp nat_cmp) old.now prefix)
        (get (slice_cmp nat_cmp) new.now prefix)) }
{
    prefix.len() != 0 && is_outdated(old.get(&prefix).copied(), new.get(&prefix).copied())
}

fn is_outdated(before: Option<LocatorSet>, after: Option<LocatorSet>) -> bool
    ensures { result ≡ is_outdated_of before after }
{
    match (before, after) {
        (None, _) => false,
        (Some(_), None) => true,
        (Some(before), Some(after)) => !are_same_servers(&before, &after),
    }
}

/// The locators of the servers of each zone, by its prefix.
fn zone_servers(
    alloc: Global,
    accepted: &Accepted,
) -> Result<BTreeMap<Prefix, LocatorSet>, AllocError>
    ensures { IfOk result (λ servers. HasZoneServers servers accepted.now) }
{
    let groups = locators_by_name(alloc, accepted)?;
    let mut servers = BTreeMap::new(alloc);
    for zone in accepted.register().zones.as_slice() {
        if !servers.contains_key(&zone.prefix) {
            servers.insert(zone.prefix, servers_of(&groups, zone.group))?;
        }
    }
    Ok(servers)
}

/// The locators of a group; none where no group has the name.
fn servers_of(groups: &BTreeMap<Name, LocatorSet>, group: Name) -> LocatorSet
    ensures { result ≡ unwrap_or (get (slice_cmp nat_cmp) groups.now group) [] }
{
    match groups.get(&group) {
        Some(locators) => *locators,
        None => LocatorSet::none(),
    }
}
