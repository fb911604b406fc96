//! One configuration for each group of an accepted register.

ghost use Rattle.std.specs.Prelude.{◌≡◌, ℕ, List, true, false, map, IfOk, IfSome};
ghost use Rattle.std.specs.Option.{option_map};
ghost use Rattle.std.specs.List.{All, Contains};
ghost use Rattle.std.specs.Ordering.{nat_cmp, eq_by_cmp};
ghost use Rattle.std.specs.Cmp.Lexicographic.{slice_cmp};
ghost use Rattle.ddt_path.specs.declared.record.Role.TheVariants.{Ms};
ghost use Rattle.ddt_register.specs.declared.group.Group.{Group as AGroup};
ghost use Rattle.ddt_check.specs.Rules.{IsAccepted};
ghost use Rattle.ddt_config.specs.Table.{outline};
ghost use Rattle.ddt_compile.specs.GroupConfig.{group_config as group_config_of, config_named, sites_of, authority_of, authorities_of, is_wanted as is_wanted_of};
ghost use Rattle.ddt_compile.specs.laws.Statements.{IsHonestConfig, HasRoom};
ghost use Rattle.ddt_compile.specs.Lists.{list_at};
ghost use Rattle.ddt_compile.specs.Sorted.{AreSortedOf, HasLocatorsOf};

use crate::children::children_of_zone;
use crate::lists_by_key::{append, take};
use crate::locators::locators_by_name;
use crate::sites::sites_by_zone;
use crate::sorted_zones::sorted_zones;
use crate::wanted::is_wanted;
use ddt_check::Accepted;
use ddt_config::{Authority, Content, ServerConfig, SiteEntry};
use ddt_path::{Listed, LocatorSet, Name, Prefix, Role};
use ddt_register::{Group, Zone};
use std::alloc::{AllocError, Global};
use std::collections::BTreeMap;

/// The configuration of each group, in the order of the groups' rows. Its authorities are the group's zones in the
/// order of their rows. One of DDT nodes holds the zones strictly below it with no zone between, each with its kind and
/// its group's locators; one of Map-Servers holds the sites that it covers, with their ETRs (RFC 8111, section 4). From
/// its configuration alone a server answers each identifier as an honest server of the register does. Each has room
/// in a server: its authorities with all that they hold are fewer than 1,048,576. Fails only if out of memory.
pub fn compile(alloc: Global, accepted: &Accepted) -> Result<Listed<ServerConfig>, AllocError>
    ensures each { IfOk result (λ configs. map outline configs ≡ map (group_config_of accepted.now)
        accepted.now.groups) }
    ensures honest { IfOk result (λ configs. All (λ c. IsHonestConfig accepted.now (outline c)) configs) }
    ensures room { IfOk result (λ configs. All (λ c. HasRoom (outline c)) configs) }
{
    let mut authorities = authorities_by_group(alloc, accepted, &None)?;
    let mut configs = Vec::new(alloc);
    for group in accepted.register().groups.as_slice() {
        configs.push(group_config(alloc, accepted, group, &mut authorities))?;
    }
    Ok(Listed::of(configs))
}

/// The configuration of the group of this name alone; None if and only if no group has it. No other is compiled.
/// Fails only if out of memory.
pub fn compile_group(
    alloc: Global,
    accepted: &Accepted,
    name: Name,
) -> Result<Option<ServerConfig>, AllocError>
    ensures found { IfOk result (λ found. option_map outline found ≡ config_named accepted.now name) }
    ensures honest { IfOk result (λ found. IfSome found (λ c. IsHonestConfig accepted.now (outline c))) }
    ensures room { IfOk result (λ found. IfSome found (λ c. HasRoom (outline c))) }
{
    match accepted.group_named(name) {
        Some(group) => {
            let mut authorities = authorities_by_group(alloc, accepted, &Some(name))?;
            let config = group_config(alloc, accepted, group, &mut authorities);
            Ok(Some(config))
        }
        None => Ok(None),
    }
}

/// The configuration of a group. Its authorities are removed from the map.
fn group_config(
    alloc: Global,
    accepted: &Accepted,
    group: &Group,
    authorities: &mut BTreeMap<Name, Vec<Authority>>,
) -> ServerConfig
    requires accepted { IsAccepted accepted.now }
    requires group { Contains accepted.now.groups group.now }
    requires own { list_at (slice_cmp nat_cmp) authorities.old group.now.name ≡ authorities_of accepted.now group.now }
    ensures config { outline result ≡ group_config_of accepted.now group.now }
    ensures others { (name : List ℕ) → eq_by_cmp (slice_cmp nat_cmp) group.now.name name ≡ false
        → list_at (slice_cmp nat_cmp) authorities.new name ≡ list_at (slice_cmp nat_cmp) authorities.old name }
{
    ServerConfig {
        name: group.name,
        role: group.kind,
        locators: LocatorSet::of_few(group.locators.as_slice()),
        authorities: take(authorities, alloc, &group.name),
    }
}

/// The authorities of each group that is wanted, by its name, each list in the order of the zones' rows.
fn authorities_by_group(
    alloc: Global,
    accepted: &Accepted,
    only: &Option<Name>,
) -> Result<BTreeMap<Name, Vec<Authority>>, AllocError>
    ensures { IfOk result (λ lists. (g : AGroup) → is_wanted_of only.now g.name ≡ true
        → list_at (slice_cmp nat_cmp) lists g.name ≡ authorities_of accepted.now g) }
{
    let zones = accepted.register().zones.as_slice();
    let sorted = sorted_zones(alloc, zones)?;
    let sets = locators_by_name(alloc, accepted)?;
    let mut sites = sites_by_zone(alloc, accepted, &sorted, only)?;
    let mut lists = BTreeMap::new(alloc);
    for zone in zones {
        if is_wanted(only, zone.group) {
            let authority = authority(alloc, accepted, &sets, &sorted, &mut sites, zone)?;
            append(&mut lists, alloc, zone.group, authority)?;
        }
    }
    Ok(lists)
}

/// A zone with the zones that it delegates, or with its sites, which are removed from the map.
fn authority(
    alloc: Global,
    accepted: &Accepted,
    sets: &BTreeMap<Name, LocatorSet>,
    sorted: &[Zone],
    sites: &mut BTreeMap<Prefix, Vec<SiteEntry>>,
    zone: &Zone,
) -> Result<Authority, AllocError>
    requires sets { HasLocatorsOf sets.now accepted.now }
    requires sorted { AreSortedOf accepted.now sorted.now }
    requires own { zone.now.kind ≡ Ms
        → list_at (slice_cmp nat_cmp) sites.old zone.now.prefix ≡ sites_of accepted.now zone.now }
    ensures authority { IfOk result (λ authority. authority ≡ authority_of accepted.now zone.now) }
    ensures others { (p : List ℕ) → eq_by_cmp (slice_cmp nat_cmp) zone.now.prefix p ≡ false
        → list_at (slice_cmp nat_cmp) sites.new p ≡ list_at (slice_cmp nat_cmp) sites.old p }
{
    match zone.kind {
        Role::Node => {
            let children = children_of_zone(alloc, accepted, sets, sorted, zone)?;
            Ok(Authority {
                prefix: zone.prefix,
                content: Content::Children(children),
            })
        }
        Role::Ms => {
            let own = take(sites, alloc, &zone.prefix);
            Ok(Authority {
                prefix: zone.prefix,
                content: Content::Sites(own),
            })
        }
    }
}
