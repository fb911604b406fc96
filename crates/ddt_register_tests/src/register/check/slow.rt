//! The rules by plain bodies that compare pairs of items: the reference for the fast ones.

ghost use Rattle.std.specs.Prelude.{◌≡◌};
ghost use Rattle.std.specs.List.{list_any};
ghost use Rattle.std.specs.Option.{option_copied};
ghost use Rattle.ddt_register.specs.Rows.{first_row as first_row_of};
ghost use Rattle.ddt_check.specs.Zones.{is_ms as is_ms_of, zone_of as zone_of_path, group_named as group_of_name};
ghost use Rattle.ddt_check.specs.Rules.{earlier_zone, earlier_group};
ghost use Rattle.ddt_check.specs.Rules.{is_root as is_root_zone, is_wrong_root as is_wrong_root_of, is_duplicate_zone as is_duplicate_zone_of};
ghost use Rattle.ddt_check.specs.Rules.{is_of_unknown_group as is_of_unknown, is_of_other_role as is_of_other, is_below_map_server as is_below};
ghost use Rattle.ddt_check.specs.Rules.{is_duplicate_site as is_duplicate_site_of, is_outside as is_outside_of, has_too_many_etrs as has_too_many};
ghost use Rattle.ddt_check.specs.Rules.{has_wrong_locators as has_wrong, share as share_of, is_duplicate_group as is_duplicate_group_of};

use ddt_check::{Fault, Rule};
use ddt_path::{Locator, MOST_LOCATORS, Name, Prefix, Role, are_distinct, longest_match};
use ddt_register::{Group, Register, Site, Zone};

/// The rules in the order of their numbers, written out here so that nothing of the code decides what is compared.
pub const RULES: &[Rule] = &[
    Rule::NoRoot,
    Rule::DuplicateZone,
    Rule::DuplicateSite,
    Rule::UnknownGroup,
    Rule::Role,
    Rule::Locators,
    Rule::BelowMapServer,
    Rule::SiteOutside,
    Rule::TooManyEtrs,
    Rule::DuplicateGroup,
];

/// The broken rule of least number, with the least row that breaks it.
pub fn first_fault(register: &Register) -> Option<Fault> {
    for &rule in RULES {
        if let Some(row) = first_row(register, rule) {
            return Some(Fault { rule, row });
        }
    }
    None
}

fn first_row(register: &Register, rule: Rule) -> Option<u32> {
    match rule {
        Rule::NoRoot if has_root(register) => wrong_root(register),
        Rule::NoRoot => Some(0),
        Rule::DuplicateZone => duplicate_zone(register),
        Rule::DuplicateSite => duplicate_site(register),
        Rule::UnknownGroup => of_unknown_group(register),
        Rule::Role => of_other_role(register),
        Rule::Locators => wrong_locators(register),
        Rule::BelowMapServer => below_map_server(register),
        Rule::SiteOutside => outside(register),
        Rule::TooManyEtrs => too_many_etrs(register),
        Rule::DuplicateGroup => duplicate_group(register),
    }
}

fn is_ms(role: Role) -> bool
    ensures { result ≡ is_ms_of role }
{
    match role {
        Role::Node => false,
        Role::Ms => true,
    }
}

/// The longest zone that covers a prefix; of equal ones the first.
fn zone_of(register: &Register, x: Prefix) -> Option<Zone>
    ensures { result ≡ zone_of_path register.now x }
{
    longest_match(register.zones.as_slice(), x).copied()
}

/// The first group row of a name.
fn group_named(register: &Register, name: Name) -> Option<&Group>
    ensures { option_copied result ≡ group_of_name register.now name }
{
    register.groups.as_slice().iter().find(|g| g.name == name)
}

fn is_root(z: &Zone) -> bool
    ensures { result ≡ is_root_zone z.now }
{
    z.prefix.len() == 0
}

/// Whether a zone covers everything.
fn has_root(register: &Register) -> bool
    ensures { result ≡ list_any is_root_zone register.now.zones }
{
    register.zones.as_slice().iter().any(|z| is_root(z))
}

fn is_after_root(register: &Register, z: &Zone) -> bool
    ensures { result ≡ earlier_zone register.now z.now is_root_zone }
{
    let zones = register.zones.as_slice();
    zones.iter().any(|y| y.row < z.row && is_root(y))
}

fn is_wrong_root(register: &Register, z: &Zone) -> bool
    ensures { result ≡ is_wrong_root_of register.now z.now }
{
    is_root(z) && (is_ms(z.kind) || is_after_root(register, z))
}

/// The least row of a root of Map-Servers, or of a root after the first.
fn wrong_root(register: &Register) -> Option<u32>
    ensures { result ≡ first_row_of (λ z. z.row) (is_wrong_root_of register.now) register.now.zones }
{
    let zones = register.zones.as_slice();
    zones
        .iter()
        .find(|z| is_wrong_root(register, z))
        .map(|z| z.row)
}

fn is_duplicate_zone(register: &Register, z: &Zone) -> bool
    ensures { result ≡ is_duplicate_zone_of register.now z.now }
{
    let zones = register.zones.as_slice();
    zones.iter().any(|y| y.row < z.row && y.prefix == z.prefix)
}

/// The least row of a zone whose prefix an earlier one has.
fn duplicate_zone(register: &Register) -> Option<u32>
    ensures { result ≡ first_row_of (λ z. z.row) (is_duplicate_zone_of register.now) register.now.zones }
{
    let zones = register.zones.as_slice();
    zones
        .iter()
        .find(|z| is_duplicate_zone(register, z))
        .map(|z| z.row)
}

fn is_of_unknown_group(register: &Register, z: &Zone) -> bool
    ensures { result ≡ is_of_unknown register.now z.now }
{
    group_named(register, z.group).is_none()
}

/// The least row of a zone whose group has no row.
fn of_unknown_group(register: &Register) -> Option<u32>
    ensures { result ≡ first_row_of (λ z. z.row) (is_of_unknown register.now) register.now.zones }
{
    let zones = register.zones.as_slice();
    zones
        .iter()
        .find(|z| is_of_unknown_group(register, z))
        .map(|z| z.row)
}

fn is_of_other_role(register: &Register, z: &Zone) -> bool
    ensures { result ≡ is_of_other register.now z.now }
{
    match group_named(register, z.group) {
        Some(group) => group.kind != z.kind,
        None => false,
    }
}

/// The least row of a zone whose group is of the other kind.
fn of_other_role(register: &Register) -> Option<u32>
    ensures { result ≡ first_row_of (λ z. z.row) (is_of_other register.now) register.now.zones }
{
    let zones = register.zones.as_slice();
    zones
        .iter()
        .find(|z| is_of_other_role(register, z))
        .map(|z| z.row)
}

fn is_below_map_server(register: &Register, z: &Zone) -> bool
    ensures { result ≡ is_below register.now z.now }
{
    let zones = register.zones.as_slice();
    zones.iter().any(|y| is_ms(y.kind) && y.prefix.covers(z.prefix) && !z.prefix.covers(y.prefix))
}

/// The least row of a zone strictly below a zone of Map-Servers.
fn below_map_server(register: &Register) -> Option<u32>
    ensures { result ≡ first_row_of (λ z. z.row) (is_below register.now) register.now.zones }
{
    let zones = register.zones.as_slice();
    zones
        .iter()
        .find(|z| is_below_map_server(register, z))
        .map(|z| z.row)
}

fn is_duplicate_site(register: &Register, s: &Site) -> bool
    ensures { result ≡ is_duplicate_site_of register.now s.now }
{
    let sites = register.sites.as_slice();
    sites.iter().any(|t| t.row < s.row && t.prefix == s.prefix)
}

/// The least row of a site whose prefix an earlier one has.
fn duplicate_site(register: &Register) -> Option<u32>
    ensures { result ≡ first_row_of (λ s. s.row) (is_duplicate_site_of register.now) register.now.sites }
{
    let sites = register.sites.as_slice();
    sites
        .iter()
        .find(|s| is_duplicate_site(register, s))
        .map(|s| s.row)
}

fn is_outside(register: &Register, s: &Site) -> bool
    ensures { result ≡ is_outside_of register.now s.now }
{
    match zone_of(register, s.prefix) {
        Some(z) => !is_ms(z.kind),
        None => true,
    }
}

/// The least row of a site whose longest covering zone isn't of Map-Servers.
fn outside(register: &Register) -> Option<u32>
    ensures { result ≡ first_row_of (λ s. s.row) (is_outside_of register.now) register.now.sites }
{
    let sites = register.sites.as_slice();
    sites
        .iter()
        .find(|s| is_outside(register, s))
        .map(|s| s.row)
}

fn has_too_many_etrs(s: &Site) -> bool
    ensures { result ≡ has_too_many s.now }
{
    s.etrs.as_slice().len() > MOST_LOCATORS
}

/// The least row of a site with more than 8 ETRs.
fn too_many_etrs(register: &Register) -> Option<u32>
    ensures { result ≡ first_row_of (λ s. s.row) has_too_many register.now.sites }
{
    let sites = register.sites.as_slice();
    sites.iter().find(|s| has_too_many_etrs(s)).map(|s| s.row)
}

/// Whether a locator of the one list is one of the other.
fn share(first: &[Locator], second: &[Locator]) -> bool
    ensures { result ≡ share_of first.now second.now }
{
    first.iter().any(|l| second.contains(l))
}

fn shares_with_earlier(register: &Register, g: &Group) -> bool
    ensures { result ≡ earlier_group register.now g.now (λ h. share_of h.locators g.now.locators) }
{
    let groups = register.groups.as_slice();
    groups.iter().any(|h| h.row < g.row && share(h.locators.as_slice(), g.locators.as_slice()))
}

fn has_wrong_locators(register: &Register, g: &Group) -> bool
    ensures { result ≡ has_wrong register.now g.now }
{
    let locators = g.locators.as_slice();
    (locators.is_empty() || locators.len() > MOST_LOCATORS)
        || (!are_distinct(locators) || shares_with_earlier(register, g))
}

/// The least row of a group whose locators are none, or above 8, or not all new.
fn wrong_locators(register: &Register) -> Option<u32>
    ensures { result ≡ first_row_of (λ g. g.row) (has_wrong register.now) register.now.groups }
{
    let groups = register.groups.as_slice();
    groups
        .iter()
        .find(|g| has_wrong_locators(register, g))
        .map(|g| g.row)
}

fn is_duplicate_group(register: &Register, g: &Group) -> bool
    ensures { result ≡ is_duplicate_group_of register.now g.now }
{
    let groups = register.groups.as_slice();
    groups.iter().any(|h| h.row < g.row && h.name == g.name)
}

/// The least row of a group whose name an earlier one has.
fn duplicate_group(register: &Register) -> Option<u32>
    ensures { result ≡ first_row_of (λ g. g.row) (is_duplicate_group_of register.now) register.now.groups }
{
    let groups = register.groups.as_slice();
    groups
        .iter()
        .find(|g| is_duplicate_group(register, g))
        .map(|g| g.row)
}
