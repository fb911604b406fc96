//! The zones and sites of a register by their prefixes and its groups by their names, and whether it lacks an item of
//! another register.

ghost use Rattle.std.specs.Prelude.{◌≡◌, ℕ, List, find, IfOk};
ghost use Rattle.std.specs.Option.{option_map};
ghost use Rattle.std.specs.Ordering.{nat_cmp};
ghost use Rattle.std.specs.Cmp.Lexicographic.{slice_cmp};
ghost use Rattle.std.specs.BTreeMap.{get};
ghost use Rattle.ddt_register.specs.declared.register.Register.{Register as ARegister};
ghost use Rattle.ddt_check.specs.Zones.{group_named};
ghost use Rattle.ddt_organisations.specs.Seam.Joined.{zone_at, site_at, lacks_zone as lacks_zone_of, lacks_site as lacks_site_of, lacks_group as lacks_group_of, servers_of};

use ddt_check::Accepted;
use ddt_path::{LocatorSet, Name, Prefix, Role};
use ddt_register::{Group, Site, Zone};
use std::alloc::{AllocError, Global};
use std::collections::BTreeMap;

/// The servers of a group.
#[derive(Clone, Copy, Debug)]
pub struct Servers {
    pub kind: Role,
    pub locators: LocatorSet,
}

/// The first zone of each prefix. Fails only if out of memory.
pub fn zones_by_prefix(
    alloc: Global,
    accepted: &Accepted,
) -> Result<BTreeMap<Prefix, Zone>, AllocError>
    ensures { IfOk result (λ known. (p : List ℕ) → get (slice_cmp nat_cmp) known p ≡ zone_at accepted.now p) }
{
    let mut known = BTreeMap::new(alloc);
    for zone in accepted.register().zones.as_slice() {
        if !known.contains_key(&zone.prefix) {
            known.insert(zone.prefix, *zone)?;
        }
    }
    Ok(known)
}

/// The ETRs of the first site of each prefix, at most 8. Fails only if out of memory.
pub fn etrs_by_prefix(
    alloc: Global,
    accepted: &Accepted,
) -> Result<BTreeMap<Prefix, LocatorSet>, AllocError>
    ensures { IfOk result (λ known. (p : List ℕ)
        → get (slice_cmp nat_cmp) known p ≡ option_map (λ s. s.etrs) (site_at accepted.now p)) }
{
    let mut known = BTreeMap::new(alloc);
    for site in accepted.register().sites.as_slice() {
        if !known.contains_key(&site.prefix) {
            known.insert(site.prefix, LocatorSet::of_few(site.etrs.as_slice()))?;
        }
    }
    Ok(known)
}

/// The servers of the first group of each name. Fails only if out of memory.
pub fn servers_by_name(
    alloc: Global,
    accepted: &Accepted,
) -> Result<BTreeMap<Name, Servers>, AllocError>
    ensures { IfOk result (λ known. (name : List ℕ)
        → get (slice_cmp nat_cmp) known name ≡ option_map servers_of (group_named accepted.now name)) }
{
    let mut known = BTreeMap::new(alloc);
    for group in accepted.register().groups.as_slice() {
        if !known.contains_key(&group.name) {
            let locators = LocatorSet::of_few(group.locators.as_slice());
            let servers = Servers {
                kind: group.kind,
                locators,
            };
            known.insert(group.name, servers)?;
        }
    }
    Ok(known)
}

/// Whether a register lacks a zone, by its zones.
pub fn lacks_zone(known: &BTreeMap<Prefix, Zone>, zone: &Zone) -> bool
    ensures { (r : ARegister) → ((p : List ℕ) → get (slice_cmp nat_cmp) known.now p ≡ zone_at r p)
        → result ≡ lacks_zone_of r zone.now }
{
    match known.get(&zone.prefix) {
        Some(own) => own.kind != zone.kind || own.group != zone.group,
        None => true,
    }
}

/// Whether a register lacks a site, by the ETRs of its sites.
pub fn lacks_site(known: &BTreeMap<Prefix, LocatorSet>, site: &Site) -> bool
    ensures { (r : ARegister) → ((p : List ℕ)
        → get (slice_cmp nat_cmp) known.now p ≡ option_map (λ s. s.etrs) (site_at r p))
        → result ≡ lacks_site_of r site.now }
{
    match known.get(&site.prefix) {
        Some(etrs) => etrs.as_slice() != site.etrs.as_slice(),
        None => true,
    }
}

/// Whether a register lacks a group, by the servers of its groups.
pub fn lacks_group(known: &BTreeMap<Name, Servers>, group: &Group) -> bool
    ensures { (r : ARegister) → ((name : List ℕ)
        → get (slice_cmp nat_cmp) known.now name ≡ option_map servers_of (group_named r name))
        → result ≡ lacks_group_of r group.now }
{
    match known.get(&group.name) {
        Some(own) => own.kind != group.kind || own.locators.as_slice() != group.locators.as_slice(),
        None => true,
    }
}
