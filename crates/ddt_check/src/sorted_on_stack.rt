//! The rules that need a sorted list. Each sorts an array of entries in its stack frame: 4,096 entries if these are
//! enough, else 65,535, the most rows of a register. Nothing is allocated, and no item is moved.

ghost use Rattle.std.specs.Prelude.{◌≡◌, ◌≤◌, length};
ghost use Rattle.ddt_check.specs.Rules.{IsLeastRow, broken};
ghost use Rattle.ddt_check.specs.Sorted.{AreZoneRows, AreGroupRows};

use crate::entries::{SortEntry, sort_items};
use crate::fault::Rule;
use crate::rules::duplicates::duplicate;
use crate::rules::{sites, zones};
use ddt_register::{Group, Register, Site, Zone};

/// The number of entries in a small stack frame.
const FEW: usize = 4_096;

/// The number of entries in a large stack frame: the most rows of a register. A function with such a frame is never
/// inlined, because its caller would then reserve the frame on each call.
const MANY: usize = 65_535;

/// The least rows that break the rules DuplicateZone, BelowMapServer and SiteOutside. That of SiteOutside is the least
/// one only if the other two rules are kept.
#[derive(Clone, Copy)]
pub struct ZoneRows {
    pub duplicate: Option<u32>,
    pub below: Option<u32>,
    pub outside: Option<u32>,
}

/// The least rows that break the rules UnknownGroup, Role and DuplicateGroup.
#[derive(Clone, Copy)]
pub struct GroupRows {
    pub unknown: Option<u32>,
    pub role: Option<u32>,
    pub duplicate: Option<u32>,
}

fn zone_rows_by<'a>(entries: &mut [SortEntry<'a, Zone>], register: &'a Register) -> ZoneRows
    requires { length register.now.zones ≤ length entries.old }
    ensures { AreZoneRows register.now result }
{
    let zones = register.zones.as_slice();
    let entries = &mut entries[..zones.len()];
    sort_items(entries, zones);
    ZoneRows {
        duplicate: duplicate(entries),
        below: zones::below_map_server(entries),
        outside: sites::outside(register.sites.as_slice(), entries),
    }
}

fn zone_rows_of_few(register: &Register) -> ZoneRows
    requires { length register.now.zones ≤ 4096 }
    ensures { AreZoneRows register.now result }
{
    let Some(first) = register.zones.as_slice().first() else {
        return zone_rows_by(&mut [], register);
    };
    let mut entries = [SortEntry::of(first); FEW];
    zone_rows_by(&mut entries, register)
}

#[inline(never)]
fn zone_rows_of_many(register: &Register) -> ZoneRows
    requires { length register.now.zones ≤ 65535 }
    ensures { AreZoneRows register.now result }
{
    let Some(first) = register.zones.as_slice().first() else {
        return zone_rows_by(&mut [], register);
    };
    let mut entries = [SortEntry::of(first); MANY];
    zone_rows_by(&mut entries, register)
}

/// The least rows that break the rules that need the zones sorted by their prefixes.
pub fn zone_rows(register: &Register) -> ZoneRows
    ensures { AreZoneRows register.now result }
{
    if register.zones.as_slice().len() <= FEW {
        zone_rows_of_few(register)
    } else {
        zone_rows_of_many(register)
    }
}

fn duplicate_site_by<'a>(entries: &mut [SortEntry<'a, Site>], register: &'a Register) -> Option<u32>
    requires { length register.now.sites ≤ length entries.old }
    ensures { IsLeastRow (broken register.now Rule.DuplicateSite) result }
{
    let sites = register.sites.as_slice();
    let entries = &mut entries[..sites.len()];
    sort_items(entries, sites);
    duplicate(entries)
}

fn duplicate_site_of_few(register: &Register) -> Option<u32>
    requires { length register.now.sites ≤ 4096 }
    ensures { IsLeastRow (broken register.now Rule.DuplicateSite) result }
{
    let Some(first) = register.sites.as_slice().first() else {
        return duplicate_site_by(&mut [], register);
    };
    let mut entries = [SortEntry::of(first); FEW];
    duplicate_site_by(&mut entries, register)
}

#[inline(never)]
fn duplicate_site_of_many(register: &Register) -> Option<u32>
    requires { length register.now.sites ≤ 65535 }
    ensures { IsLeastRow (broken register.now Rule.DuplicateSite) result }
{
    let Some(first) = register.sites.as_slice().first() else {
        return duplicate_site_by(&mut [], register);
    };
    let mut entries = [SortEntry::of(first); MANY];
    duplicate_site_by(&mut entries, register)
}

/// The least row of a site whose prefix an earlier one has.
pub fn duplicate_site(register: &Register) -> Option<u32>
    ensures { IsLeastRow (broken register.now Rule.DuplicateSite) result }
{
    if register.sites.as_slice().len() <= FEW {
        duplicate_site_of_few(register)
    } else {
        duplicate_site_of_many(register)
    }
}

fn group_rows_by<'a>(entries: &mut [SortEntry<'a, Group>], register: &'a Register) -> GroupRows
    requires { length register.now.groups ≤ length entries.old }
    ensures { AreGroupRows register.now result }
{
    let groups = register.groups.as_slice();
    let entries = &mut entries[..groups.len()];
    sort_items(entries, groups);
    let wrong = zones::of_wrong_groups(register.zones.as_slice(), entries);
    GroupRows {
        unknown: wrong.unknown,
        role: wrong.role,
        duplicate: duplicate(entries),
    }
}

fn group_rows_of_few(register: &Register) -> GroupRows
    requires { length register.now.groups ≤ 4096 }
    ensures { AreGroupRows register.now result }
{
    let Some(first) = register.groups.as_slice().first() else {
        return group_rows_by(&mut [], register);
    };
    let mut entries = [SortEntry::of(first); FEW];
    group_rows_by(&mut entries, register)
}

#[inline(never)]
fn group_rows_of_many(register: &Register) -> GroupRows
    requires { length register.now.groups ≤ 65535 }
    ensures { AreGroupRows register.now result }
{
    let Some(first) = register.groups.as_slice().first() else {
        return group_rows_by(&mut [], register);
    };
    let mut entries = [SortEntry::of(first); MANY];
    group_rows_by(&mut entries, register)
}

/// The least rows that break the rules that need the groups sorted by their names.
pub fn group_rows(register: &Register) -> GroupRows
    ensures { AreGroupRows register.now result }
{
    if register.groups.as_slice().len() <= FEW {
        group_rows_of_few(register)
    } else {
        group_rows_of_many(register)
    }
}
