//! The number of waits for which servers still serve the zones that they lose.

ghost use Rattle.std.specs.Prelude.{◌≡◌, ◌≤◌, ℕ, List, IfOk, OnOk, length, is_some};
ghost use Rattle.std.specs.List.{filter};
ghost use Rattle.std.specs.Ordering.{nat_cmp};
ghost use Rattle.std.specs.Cmp.Lexicographic.{slice_cmp};
ghost use Rattle.std.specs.BTreeMap.{get};
ghost use Rattle.ddt_path.specs.Covers.{is_same_path};
ghost use Rattle.ddt_deploy.specs.Rollout.Waits.{AreWaits, fronts, lost_in, lost_kind, put_if, waits_at as waits_at_of};

use crate::rollout::config_at_stage::Waits;
use ddt_check::Accepted;
use ddt_path::{Prefix, Role};
use ddt_plan::{Pair, ServingGroup, serving_groups};
use std::alloc::{AllocError, Global};
use std::collections::BTreeMap;

/// The group that serves each zone in two registers, by the zone's prefix.
type ServingGroups = BTreeMap<Prefix, Pair<ServingGroup>>;

/// Returns the number of waits of 1,440 minutes and 2 seconds for which each zone stays served that its group loses, by
/// its prefix. The first wait is for the referrals that were given before the zone's parent changed. A lost zone inside
/// a lost zone has one more, since until then the servers of the outer one refer to it. A zone of Map-Servers has one
/// for the MS-ACKs that they give, which are cached as long (RFC 8111, section 6.4.1).
pub(crate) fn waits_of(
    alloc: Global,
    before: &Accepted,
    after: &Accepted,
) -> Result<Waits, AllocError>
    ensures { IfOk result (λ kept. AreWaits before.now after.now kept) }
{
    let groups = serving_groups(alloc, before, after)?;
    let mut waits = BTreeMap::new(alloc);
    for zone in before.register().zones.as_slice() {
        put_waits(&mut waits, &groups, zone.prefix)?;
    }
    Ok(waits)
}

/// Puts the number of waits of the zone of a prefix into the map, if its group loses it.
fn put_waits(waits: &mut Waits, groups: &ServingGroups, prefix: Prefix) -> Result<(), AllocError>
    ensures { OnOk result ((p : List ℕ) → get (slice_cmp nat_cmp) waits.new p
        ≡ put_if (waits_at_of (lost_in groups.now) prefix) (is_same_path prefix p) (get (slice_cmp nat_cmp) waits.old p)) }
{
    match waits_at(groups, prefix) {
        Some(count) => {
            waits.insert(prefix, count)?;
            Ok(())
        }
        None => Ok(()),
    }
}

/// Returns the number of waits for which the zone of a prefix stays served; None if no group loses it.
fn waits_at(groups: &ServingGroups, prefix: Prefix) -> Option<u32>
    ensures { result ≡ waits_at_of (lost_in groups.now) prefix }
{
    let kind = lost_zone(groups, prefix)?;
    Some(count_around(groups, prefix) + u32::from(kind == Role::Ms))
}

/// Returns the number of lost zones that cover a prefix.
fn count_around(groups: &ServingGroups, prefix: Prefix) -> u32
    ensures count { result ≡ length (filter (λ q. is_some (lost_in groups.now q)) (fronts prefix)) }
    ensures bound { result ≤ 162 }
{
    let mut count = 0u32;
    for len in 0..prefix.len() + 1 {
        count += u32::from(lost_zone(groups, prefix.front(len)).is_some());
    }
    count
}

/// Returns the kind of the zone of a prefix, if its group loses it.
fn lost_zone(groups: &ServingGroups, prefix: Prefix) -> Option<Role>
    ensures { result ≡ lost_in groups.now prefix }
{
    match groups.get(&prefix) {
        Some(serving) => kind_of_lost(serving.before, serving.after),
        None => None,
    }
}

/// Returns the kind of a zone, if its group loses it, by the groups that serve it in both registers.
fn kind_of_lost(earlier: Option<ServingGroup>, later: Option<ServingGroup>) -> Option<Role>
    ensures { result ≡ lost_kind earlier later }
{
    let earlier = earlier?;
    match later {
        Some(later) => {
            if later.group == earlier.group {
                None
            } else {
                Some(earlier.kind)
            }
        }
        None => Some(earlier.kind),
    }
}
