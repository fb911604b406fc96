//! Which groups delegate to which: a zone is delegated by the group of the zone directly above it to its own.

ghost use Rattle.std.specs.Prelude.{◌≡◌, ◌||◌, ◌&&◌, not, false, List, ℕ, IfOk, OnOk};
ghost use Rattle.std.specs.Ordering.{nat_cmp};
ghost use Rattle.std.specs.Cmp.Lexicographic.{slice_cmp};
ghost use Rattle.std.specs.BTreeSet.{contains};
ghost use Rattle.std.specs.Option.{option_map_or};
ghost use Rattle.ddt_path.specs.Names.{is_same_name};
ghost use Rattle.ddt_review.specs.Warnings.Found.{IsTree, HasUsual, HasHosts, HasGuests, pair_cmp};
ghost use Rattle.ddt_review.specs.Warnings.Warnings.{delegation_of as delegation_of_zone, is_same_pair};

use crate::warnings::zone_tree::ZoneTree;
use ddt_path::Name;
use ddt_register::Zone;
use std::alloc::{AllocError, Global};
use std::collections::BTreeSet;

/// The group that delegates, and the one to which it does.
pub type Delegation = (Name, Name);

/// Which groups delegate more than one zone to which.
#[derive(Drop)]
pub struct Delegations {
    /// The pairs of which the first delegates more than one zone to the second.
    pub usual: BTreeSet<Delegation>,
    /// The groups that delegate more than one zone to some other group.
    pub hosts: BTreeSet<Name>,
    /// The groups to which some other group delegates more than one zone.
    pub guests: BTreeSet<Name>,
}

/// The group of the zone directly above a zone, and the zone's own group; None for the root.
pub fn delegation_of(tree: &ZoneTree, zone: &Zone) -> Option<Delegation>
    requires { IsTree tree.now }
    ensures { result ≡ delegation_of_zone tree.now.register.now zone.now }
{
    match tree.zone_above(zone) {
        Some(above) => Some((above.group, zone.group)),
        None => None,
    }
}

/// Which groups delegate to which. Fails only if out of memory.
pub fn delegations_of(alloc: Global, tree: &ZoneTree) -> Result<Delegations, AllocError>
    requires { IsTree tree.now }
    ensures usual { IfOk result (λ found. HasUsual tree.now.register.now found.usual) }
    ensures hosts { IfOk result (λ found. HasHosts tree.now.register.now found.hosts) }
    ensures guests { IfOk result (λ found. HasGuests tree.now.register.now found.guests) }
{
    let usual = usual_of(alloc, tree)?;
    let mut hosts = BTreeSet::new(alloc);
    let mut guests = BTreeSet::new(alloc);
    for zone in tree.register.zones.as_slice() {
        mark_home(&mut hosts, &mut guests, &usual, delegation_of(tree, zone))?;
    }
    Ok(Delegations {
        usual,
        hosts,
        guests,
    })
}

/// The pairs of groups of which the first delegates more than one zone to the second.
fn usual_of(alloc: Global, tree: &ZoneTree) -> Result<BTreeSet<Delegation>, AllocError>
    requires { IsTree tree.now }
    ensures { IfOk result (HasUsual tree.now.register.now) }
{
    let mut seen = BTreeSet::new(alloc);
    let mut usual = BTreeSet::new(alloc);
    for zone in tree.register.zones.as_slice() {
        note(&mut seen, &mut usual, delegation_of(tree, zone))?;
    }
    Ok(usual)
}

/// Adds a pair, if there is one, to those seen, and to the usual ones if it was seen before.
fn note(
    seen: &mut BTreeSet<Delegation>,
    usual: &mut BTreeSet<Delegation>,
    pair: Option<Delegation>,
) -> Result<(), AllocError>
    ensures seen { OnOk result ((k : List ℕ × List ℕ) → contains pair_cmp seen.new k
        ≡ (contains pair_cmp seen.old k || option_map_or (is_same_pair k) pair false)) }
    ensures usual { OnOk result ((k : List ℕ × List ℕ) → contains pair_cmp usual.new k
        ≡ (contains pair_cmp usual.old k
        || (contains pair_cmp seen.old k && option_map_or (is_same_pair k) pair false))) }
{
    let Some(pair) = pair else {
        return Ok(());
    };
    mark_pair(usual, pair, seen.contains(&pair))?;
    seen.insert(pair)?;
    Ok(())
}

/// Marks a pair if the mark is wanted.
fn mark_pair(
    pairs: &mut BTreeSet<Delegation>,
    pair: Delegation,
    is_wanted: bool,
) -> Result<(), AllocError>
    ensures { OnOk result ((k : List ℕ × List ℕ) → contains pair_cmp pairs.new k
        ≡ (contains pair_cmp pairs.old k || (is_wanted && is_same_pair k pair))) }
{
    if is_wanted {
        pairs.insert(pair)?;
    }
    Ok(())
}

/// Whether a pair is of two different groups, and the first delegates more than one zone to the second.
fn are_at_home(usual: &BTreeSet<Delegation>, pair: &Delegation) -> bool
    ensures { result ≡ (not (is_same_name pair.now.0 pair.now.1) && contains pair_cmp usual.now pair.now) }
{
    pair.0 != pair.1 && usual.contains(pair)
}

/// Marks both groups of a pair, if there is one, if they are different and the first delegates more than one zone to
/// the second.
fn mark_home(
    hosts: &mut BTreeSet<Name>,
    guests: &mut BTreeSet<Name>,
    usual: &BTreeSet<Delegation>,
    pair: Option<Delegation>,
) -> Result<(), AllocError>
    ensures hosts { OnOk result ((n : List ℕ) → contains (slice_cmp nat_cmp) hosts.new n
        ≡ (contains (slice_cmp nat_cmp) hosts.old n
        || option_map_or (λ d. (not (is_same_name d.0 d.1) && contains pair_cmp usual.now d) && is_same_name n d.0)
        pair false)) }
    ensures guests { OnOk result ((n : List ℕ) → contains (slice_cmp nat_cmp) guests.new n
        ≡ (contains (slice_cmp nat_cmp) guests.old n
        || option_map_or (λ d. (not (is_same_name d.0 d.1) && contains pair_cmp usual.now d) && is_same_name n d.1)
        pair false)) }
{
    let Some(pair) = pair else {
        return Ok(());
    };
    let is_wanted = are_at_home(usual, &pair);
    mark(hosts, pair.0, is_wanted)?;
    mark(guests, pair.1, is_wanted)
}

/// Marks a name if the mark is wanted.
fn mark(names: &mut BTreeSet<Name>, name: Name, is_wanted: bool) -> Result<(), AllocError>
    ensures { OnOk result ((n : List ℕ) → contains (slice_cmp nat_cmp) names.new n
        ≡ (contains (slice_cmp nat_cmp) names.old n || (is_wanted && is_same_name n name))) }
{
    if is_wanted {
        names.insert(name)?;
    }
    Ok(())
}

impl Delegations {
    /// Whether a group delegates at most one zone to another, though it delegates more than one zone to some other
    /// group, and a third group delegates more than one zone to the other.
    pub fn is_stranger(&self, pair: &Delegation) -> bool
        ensures { result ≡ (not (is_same_name pair.now.0 pair.now.1) && (not (contains pair_cmp self.now.usual pair.now)
            && (contains (slice_cmp nat_cmp) self.now.hosts pair.now.0
            && contains (slice_cmp nat_cmp) self.now.guests pair.now.1))) }
    {
        pair.0 != pair.1
            && (!self.usual.contains(pair)
                && (self.hosts.contains(&pair.0) && self.guests.contains(&pair.1)))
    }
}
