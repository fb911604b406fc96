//! What one register has at a prefix: the outcome of the whole prefix, or the zone and the site around it and the items
//! strictly below it. These are consecutive in the order of prefixes, so they are slices and nothing is copied.

ghost use Rattle.std.specs.Prelude.{◌≡◌, ◌==◌, ◌&&◌, ℕ, ◌<◌, false, true, List, length, find, IfOk};
ghost use Rattle.std.specs.List.{filter};
ghost use Rattle.std.specs.Option.{option_or};
ghost use Rattle.ddt_path.specs.Covers.{covers, is_strictly_below, is_same_path};
ghost use Rattle.ddt_plan.specs.Blocks.{keys_of, is_undivided, half as half_of};
ghost use Rattle.ddt_plan.specs.Differing.{AreSides, IsNext};
ghost use Rattle.ddt_plan.specs.Fast.{AreInOrder, AreBelow, AreItemsOf, IsDivision, IsSide, delegations_of, delegation_at, states_of, state_at, outcome_from, outcome_in as outcome_in_of, outcome_of_site as outcome_of_site_of};

use crate::prefix_halves::half;
use crate::servers::servers_of;
use ddt_check::{Accepted, assign};
use ddt_compile::locators_by_name;
use ddt_path::{LocatorSet, Outcome, Prefix, Prefixed, Role, longest_match};
use std::alloc::{AllocError, Global};

/// A zone, with the servers that it is delegated to.
#[derive(Clone, Copy, Debug, PartialEq, Eq)]
pub struct Delegation {
    pub prefix: Prefix,
    /// Whether they are DDT nodes or Map-Servers.
    pub role: Role,
    pub servers: LocatorSet,
}

/// The part of a site that decides what its block is assigned.
#[derive(Clone, Copy, Debug, PartialEq, Eq)]
pub struct SiteState {
    pub prefix: Prefix,
    /// Whether it has an ETR.
    pub is_registered: bool,
}

/// The zones and the sites of a register, in the order of their prefixes.
#[derive(Drop)]
pub struct SortedItems {
    pub zones: Vec<Delegation>,
    pub sites: Vec<SiteState>,
}

/// What one register has at a prefix.
#[derive(Clone, Copy)]
pub enum Side<'a> {
    /// All identifiers in it are assigned this.
    Settled(Outcome),
    /// A zone or a site is strictly below it.
    Divided(Division<'a>),
}

/// The zone and the site around a prefix, and the zones and the sites strictly below it.
#[derive(Clone, Copy)]
pub struct Division<'a> {
    /// The longest zone that covers it.
    pub zone: Option<Delegation>,
    /// The longest site that covers it.
    pub site: Option<SiteState>,
    pub zones: &'a [Delegation],
    pub sites: &'a [SiteState],
}

/// What two registers have at a prefix.
#[derive(Clone, Copy)]
pub struct Sides<'a> {
    pub before: Side<'a>,
    pub after: Side<'a>,
    /// The prefixes strictly below it at which they differ, in order.
    pub differing: &'a [Prefix],
}

impl Prefixed for Delegation {
    ghost path = { λ zone. zone.prefix };

    fn prefix(&self) -> Prefix {
        self.prefix
    }
}

impl Prefixed for SiteState {
    ghost path = { λ site. site.prefix };

    fn prefix(&self) -> Prefix {
        self.prefix
    }
}

/// The zones and the sites of an accepted register, in the order of their prefixes.
pub fn sort_items(alloc: Global, accepted: &Accepted) -> Result<SortedItems, AllocError>
    ensures { IfOk result (λ items. AreItemsOf accepted.now items) }
{
    let mut zones = delegations(alloc, accepted)?;
    let mut sites = site_states(alloc, accepted)?;
    zones.sort_unstable_by_key(|zone| zone.prefix);
    sites.sort_unstable_by_key(|site| site.prefix);
    Ok(SortedItems { zones, sites })
}

/// What an accepted register has at a prefix.
pub fn side_at<'a>(accepted: &Accepted, items: &'a SortedItems, at: Prefix) -> Side<'a>
    requires { AreItemsOf accepted.now items.now }
    ensures { IsSide accepted.now at result }
{
    let _register = accepted.register();
    let zones = items.zones.as_slice();
    let sites = items.sites.as_slice();
    let zones_below = items_below(zones, at);
    let sites_below = items_below(sites, at);
    if are_empty(zones_below, sites_below) {
        return Side::Settled(assign(accepted, at.inner()));
    }
    Side::Divided(Division {
        zone: longest_match(zones, at).copied(),
        site: longest_match(sites, at).copied(),
        zones: zones_below,
        sites: sites_below,
    })
}

/// What two registers have at the two halves of a prefix.
pub fn sides_of_both_below<'a>(
    before: &Accepted,
    after: &Accepted,
    whole: Prefix,
    lower: Prefix,
    upper: Prefix,
    sides: &Sides<'a>,
) -> (Sides<'a>, Sides<'a>)
    requires sides { AreSides before.now after.now whole sides.now }
    requires lower { lower ≡ half_of false whole }
    requires upper { upper ≡ half_of true whole }
    ensures { AreSides before.now after.now lower result.0 × AreSides before.now after.now upper result.1 }
{
    let (old_low, old_high) = sides_at_halves(before, whole, &sides.before);
    let (new_low, new_high) = sides_at_halves(after, whole, &sides.after);
    let low = Sides {
        before: old_low,
        after: new_low,
        differing: items_below(sides.differing, lower),
    };
    let high = Sides {
        before: old_high,
        after: new_high,
        differing: items_below(sides.differing, upper),
    };
    (low, high)
}

/// What a register has at the two halves of a prefix.
fn sides_at_halves<'a>(accepted: &Accepted, whole: Prefix, side: &Side<'a>) -> (Side<'a>, Side<'a>)
    requires side { IsSide accepted.now whole side.now }
    ensures { IsSide accepted.now (half_of false whole) result.0 × IsSide accepted.now (half_of true whole) result.1 }
{
    match side {
        Side::Settled(outcome) => (Side::Settled(*outcome), Side::Settled(*outcome)),
        Side::Divided(division) => sides_below(accepted, whole, division),
    }
}

/// What a register has at the two halves of a prefix that is divided.
pub fn sides_below<'a>(
    accepted: &Accepted,
    whole: Prefix,
    division: &Division<'a>,
) -> (Side<'a>, Side<'a>)
    requires division { IsDivision accepted.now whole division.now }
    ensures { IsSide accepted.now (half_of false whole) result.0 × IsSide accepted.now (half_of true whole) result.1 }
{
    let low = side_below(accepted, whole, division, false);
    let high = side_below(accepted, whole, division, true);
    (low, high)
}

/// What a register has at one half of a prefix that is divided.
fn side_below<'a>(
    accepted: &Accepted,
    whole: Prefix,
    division: &Division<'a>,
    upper: bool,
) -> Side<'a>
    requires division { IsDivision accepted.now whole division.now }
    ensures { IsSide accepted.now (half_of upper whole) result }
{
    side_inside(accepted, division, half(whole, upper))
}

/// What a register has at a prefix strictly below one that is divided, with no zone and no site between the two.
pub fn side_inside<'a>(accepted: &Accepted, division: &Division<'a>, at: Prefix) -> Side<'a>
    requires { (q : List ℕ) × IsDivision accepted.now q division.now × IsNext accepted.now q at }
    ensures { IsSide accepted.now at result }
{
    let _register = accepted.register();
    let zone = item_at(division.zones, at, division.zone);
    let site = item_at(division.sites, at, division.site);
    let zones = items_below(division.zones, at);
    let sites = items_below(division.sites, at);
    side_from_items(accepted, at, zone, site, zones, sites)
}

/// What a register has at a prefix, by the zone and the site around it and the items strictly below it. All shorter
/// prefixes that cover it are divided.
fn side_from_items<'a>(
    accepted: &Accepted,
    at: Prefix,
    zone: Option<Delegation>,
    site: Option<SiteState>,
    zones: &'a [Delegation],
    sites: &'a [SiteState],
) -> Side<'a>
    requires zone { zone ≡ delegation_at accepted.now at }
    requires site { site ≡ state_at accepted.now at }
    requires zones { AreBelow (λ z. z.prefix) (delegations_of accepted.now) at zones.now }
    requires sites { AreBelow (λ s. s.prefix) (states_of accepted.now) at sites.now }
    requires fronts { (f : List ℕ) → covers f at ≡ true → length f < length at
        → is_undivided (keys_of accepted.now) f ≡ false }
    ensures { IsSide accepted.now at result }
{
    let (_register, _inside) = (accepted.register(), at.inner());
    if are_empty(zones, sites) {
        return Side::Settled(outcome_at(zone, site, at));
    }
    Side::Divided(Division {
        zone,
        site,
        zones,
        sites,
    })
}

fn are_empty(zones: &[Delegation], sites: &[SiteState]) -> bool
    ensures { result ≡ ((length zones.now == 0) && (length sites.now == 0)) }
{
    zones.is_empty() && sites.is_empty()
}

/// What a block is assigned, by its zone and its site.
fn outcome_at(zone: Option<Delegation>, site: Option<SiteState>, block: Prefix) -> Outcome
    ensures { result ≡ outcome_from zone site block }
{
    match zone {
        Some(zone) => outcome_in(zone, site, block),
        None => Outcome::Hole { prefix: block },
    }
}

fn outcome_in(zone: Delegation, site: Option<SiteState>, block: Prefix) -> Outcome
    ensures { result ≡ outcome_in_of zone zone.role site block }
{
    match (zone.role, site) {
        (Role::Ms, Some(site)) => outcome_of_site(zone.servers, site, block),
        _ => Outcome::Hole { prefix: block },
    }
}

fn outcome_of_site(servers: LocatorSet, site: SiteState, block: Prefix) -> Outcome
    ensures { result ≡ outcome_of_site_of servers block site }
{
    if site.is_registered {
        Outcome::Registered {
            prefix: site.prefix,
            servers,
        }
    } else {
        Outcome::NotRegistered {
            prefix: block,
            servers,
        }
    }
}

/// The zones of a register, with their servers.
fn delegations(alloc: Global, accepted: &Accepted) -> Result<Vec<Delegation>, AllocError>
    ensures { IfOk result (λ zones. zones.items ≡ delegations_of accepted.now) }
{
    let servers = locators_by_name(alloc, accepted)?;
    let mut zones = Vec::new(alloc);
    for zone in accepted.register().zones.as_slice() {
        zones.push(Delegation {
            prefix: zone.prefix,
            role: zone.kind,
            servers: servers_of(&servers, zone.group),
        })?;
    }
    Ok(zones)
}

/// The states of a register's sites.
fn site_states(alloc: Global, accepted: &Accepted) -> Result<Vec<SiteState>, AllocError>
    ensures { IfOk result (λ sites. sites.items ≡ states_of accepted.now) }
{
    let mut sites = Vec::new(alloc);
    for site in accepted.register().sites.as_slice() {
        sites.push(SiteState {
            prefix: site.prefix,
            is_registered: !site.etrs.as_slice().is_empty(),
        })?;
    }
    Ok(sites)
}

/// The item of this prefix, else the one above.
fn item_at<T: Prefixed + Copy>(items: &[T], at: Prefix, above: Option<T>) -> Option<T>
    requires { AreInOrder T.path items.now }
    ensures { result ≡ option_or (find (λ item. is_same_path (T.path item) at) items.now) above }
{
    match item_of_prefix(items, at) {
        Some(item) => Some(item),
        None => above,
    }
}

/// The item of exactly this prefix, if there is one. The items are in the order of their prefixes.
pub fn item_of_prefix<T: Prefixed + Copy>(items: &[T], at: Prefix) -> Option<T>
    requires { AreInOrder T.path items.now }
    ensures { result ≡ find (λ item. is_same_path (T.path item) at) items.now }
{
    let first = items.partition_point(|item| item.prefix() < at);
    if first == items.len() {
        return None;
    }
    let item = items[first];
    if item.prefix() == at {
        Some(item)
    } else {
        None
    }
}

/// The items strictly below a prefix: of those after it in order, the ones that it covers come first.
pub fn items_below<T: Prefixed>(items: &[T], at: Prefix) -> &[T]
    requires { AreInOrder T.path items.now }
    ensures { result.now ≡ filter (λ item. is_strictly_below (T.path item) at) items.now }
{
    let first = items.partition_point(|item| item.prefix() <= at);
    let (_before, behind) = items.split_at(first);
    let count = behind.partition_point(|item| at.covers(item.prefix()));
    let (below, _after) = behind.split_at(count);
    below
}
