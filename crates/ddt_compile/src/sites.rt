//! The sites of each zone of Map-Servers: those that it covers.

ghost use Rattle.std.specs.Prelude.{◌≡◌, ◌≤◌, ◌&&◌, true, length, IfOk};
ghost use Rattle.std.specs.List.{Contains, list_any};
ghost use Rattle.std.specs.Ordering.{nat_cmp};
ghost use Rattle.std.specs.Cmp.Lexicographic.{slice_cmp};
ghost use Rattle.ddt_path.specs.declared.record.Role.TheVariants.{Ms};
ghost use Rattle.ddt_register.specs.declared.zone.Zone.{Zone as AZone};
ghost use Rattle.ddt_path.specs.Locators.{most_locators};
ghost use Rattle.ddt_check.specs.Zones.{is_ms};
ghost use Rattle.ddt_compile.specs.GroupConfig.{sites_of, entry_of, is_wanted as is_wanted_of};
ghost use Rattle.ddt_compile.specs.Lists.{list_at};
ghost use Rattle.ddt_compile.specs.Sorted.{AreSortedOf};

use crate::lists_by_key::append;
use crate::sorted_zones::holder;
use crate::wanted::is_wanted;
use ddt_check::Accepted;
use ddt_config::SiteEntry;
use ddt_path::{LocatorSet, Name, Prefix, Role};
use ddt_register::{Site, Zone};
use std::alloc::{AllocError, Global};
use std::collections::BTreeMap;

/// The sites of each zone whose group is wanted, by its prefix, each list in the order of their rows. A zone of DDT
/// nodes has none.
pub fn sites_by_zone(
    alloc: Global,
    accepted: &Accepted,
    sorted: &[Zone],
    only: &Option<Name>,
) -> Result<BTreeMap<Prefix, Vec<SiteEntry>>, AllocError>
    requires { AreSortedOf accepted.now sorted.now }
    ensures { IfOk result (λ lists. (z : AZone) → Contains accepted.now.zones z → z.kind ≡ Ms
        → is_wanted_of only.now z.group ≡ true → list_at (slice_cmp nat_cmp) lists z.prefix ≡ sites_of accepted.now z) }
{
    let register = accepted.register();
    let mut lists = BTreeMap::new(alloc);
    if !are_sites_wanted(register.zones.as_slice(), only) {
        return Ok(lists);
    }
    for site in register.sites.as_slice() {
        if let Some(zone) = holder(sorted, site) {
            if is_wanted(only, zone.group) {
                append(&mut lists, alloc, zone.prefix, entry(site))?;
            }
        }
    }
    Ok(lists)
}

/// Whether a zone of Map-Servers is of a group that is wanted.
fn are_sites_wanted(zones: &[Zone], only: &Option<Name>) -> bool
    ensures { result ≡ list_any (λ z. is_ms z.kind && is_wanted_of only.now z.group) zones.now }
{
    zones
        .iter()
        .any(|z| z.kind == Role::Ms && is_wanted(only, z.group))
}

/// The entry of a site, which has at most 8 ETRs.
fn entry(site: &Site) -> SiteEntry
    requires { length site.now.etrs ≤ most_locators }
    ensures { result ≡ entry_of site.now }
{
    SiteEntry {
        prefix: site.prefix,
        etrs: LocatorSet::of_few(site.etrs.as_slice()),
    }
}
