//! The zones of a register that differ from those of another, and the sites that differ between both.

ghost use Rattle.std.specs.Prelude.{◌≡◌, Option};
ghost use Rattle.ddt_report.specs.Pictures.Differences.{difference_of as difference_of_zone};

use ddt_path::{Listed, Locator, Name, Prefix};
use ddt_register::{Register, Site, Zone};
use std::alloc::{AllocError, Global};
use std::collections::{BTreeMap, BTreeSet};

/// How a zone differs from that of its prefix in the other register.
#[derive(Clone, Copy, Debug, PartialEq, Eq)]
pub(crate) enum ZoneDifference {
    /// There is no such zone.
    Missing,
    /// This group serves it there: another one than here, or one of another kind.
    Moved(Name),
    /// Its group has other locators there.
    Locators,
}

/// How a zone differs from that of its prefix in the other register, if it does.
fn difference_of(zone: Zone, there: Option<Zone>, has_same_locators: bool) -> Option<ZoneDifference>
    ensures { result ≡ difference_of_zone zone there has_same_locators }
{
    let Some(there) = there else {
        return Some(ZoneDifference::Missing);
    };
    if there.group != zone.group || there.kind != zone.kind {
        return Some(ZoneDifference::Moved(there.group));
    }
    if has_same_locators {
        None
    } else {
        Some(ZoneDifference::Locators)
    }
}

/// The zones of a register that differ from another one, by their prefixes.
pub(crate) type ZoneDifferences = BTreeMap<Prefix, ZoneDifference>;

/// How a register differs from another one.
#[derive(Drop)]
pub(crate) struct Differences {
    pub zones: ZoneDifferences,
    /// The prefixes of the sites that only one of both has, or that have other ETRs.
    pub sites: Vec<Prefix>,
}

impl Differences {
    /// How a register differs from another one. Fails only if out of memory.
    pub(crate) fn of(
        alloc: Global,
        register: &Register,
        other: &Register,
    ) -> Result<Differences, AllocError> {
        Ok(Differences {
            zones: zones_that_differ(alloc, register, other)?,
            sites: sites_that_differ(alloc, register, other)?,
        })
    }
}

fn zones_that_differ(
    alloc: Global,
    register: &Register,
    other: &Register,
) -> Result<ZoneDifferences, AllocError> {
    let there = zones_by_prefix(alloc, other)?;
    let same = groups_with_same_locators(alloc, register, other)?;
    let mut zones = BTreeMap::new(alloc);
    for zone in register.zones.as_slice() {
        let found = there.get(&zone.prefix).copied();
        if let Some(difference) = difference_of(*zone, found, same.contains(&zone.group)) {
            zones.insert(zone.prefix, difference)?;
        }
    }
    Ok(zones)
}

fn zones_by_prefix(
    alloc: Global,
    register: &Register,
) -> Result<BTreeMap<Prefix, Zone>, AllocError> {
    let mut zones = BTreeMap::new(alloc);
    for zone in register.zones.as_slice() {
        zones.insert(zone.prefix, *zone)?;
    }
    Ok(zones)
}

/// The groups that have the same locators in both registers, in the same order.
fn groups_with_same_locators(
    alloc: Global,
    register: &Register,
    other: &Register,
) -> Result<BTreeSet<Name>, AllocError> {
    let places = group_places(alloc, other)?;
    let groups = other.groups.as_slice();
    let mut same = BTreeSet::new(alloc);
    for group in register.groups.as_slice() {
        if let Some(place) = places.get(&group.name)
            && let Some(there) = groups.get(*place)
            && there.locators.as_slice() == group.locators.as_slice()
        {
            same.insert(group.name)?;
        }
    }
    Ok(same)
}

fn group_places(alloc: Global, register: &Register) -> Result<BTreeMap<Name, usize>, AllocError> {
    let mut places = BTreeMap::new(alloc);
    for (place, group) in register.groups.as_slice().iter().enumerate() {
        places.insert(group.name, place)?;
    }
    Ok(places)
}

/// The sites of a register by their prefixes, each with its place.
fn site_places(alloc: Global, sites: &[Site]) -> Result<BTreeMap<Prefix, usize>, AllocError> {
    let mut places = BTreeMap::new(alloc);
    for (place, site) in sites.iter().enumerate() {
        places.insert(site.prefix, place)?;
    }
    Ok(places)
}

fn sites_that_differ(
    alloc: Global,
    register: &Register,
    other: &Register,
) -> Result<Vec<Prefix>, AllocError> {
    let here = register.sites.as_slice();
    let there = other.sites.as_slice();
    let mut differ = Vec::new(alloc);
    push_other_sites(&mut differ, here, there, true)?;
    push_other_sites(&mut differ, there, here, false)?;
    Ok(differ)
}

/// Adds the sites that the others lack, and, if asked for, those that have other ETRs there.
fn push_other_sites(
    differ: &mut Vec<Prefix>,
    sites: &[Site],
    others: &[Site],
    with_changed: bool,
) -> Result<(), AllocError> {
    let places = site_places(*differ.allocator(), others)?;
    for site in sites {
        let is_other = match places.get(&site.prefix) {
            Some(place) => with_changed && etrs_at(others, *place) != site.etrs.as_slice(),
            None => true,
        };
        if is_other {
            differ.push(site.prefix)?;
        }
    }
    Ok(())
}

/// The ETRs of the site at a place.
fn etrs_at(sites: &[Site], place: usize) -> &[Locator] {
    match sites.get(place) {
        Some(site) => site.etrs.as_slice(),
        None => &[],
    }
}
