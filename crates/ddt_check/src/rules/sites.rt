//! The rules TooManyEtrs and SiteOutside. The number of ETRs is a test of each site alone. Whether a site is
//! outside is read off zones that are sorted by their prefixes, then by their rows.

ghost use Rattle.std.specs.Prelude.{◌≡◌, ◌==◌, ◌&&◌, ◌||◌, nat_lt, IsPermutation, map};
ghost use Rattle.std.specs.Ordering.{nat_cmp, is_le};
ghost use Rattle.std.specs.Cmp.Lexicographic.{slice_cmp};
ghost use Rattle.ddt_path.specs.Covers.{covers};
ghost use Rattle.ddt_register.specs.declared.register.Register.{Register as ARegister};
ghost use Rattle.ddt_check.specs.Rules.{IsLeastRow, broken};
ghost use Rattle.ddt_check.specs.Rules.{is_outside as is_outside_of, has_too_many_etrs as has_too_many};
ghost use Rattle.ddt_check.specs.Zones.{is_ms as is_ms_of};
ghost use Rattle.ddt_check.specs.Order.{AreZonesInOrder};
ghost use Rattle.ddt_check.specs.Sorted.{IsRuleKept};

use crate::entries::SortEntry;
use crate::fault::Rule;
use crate::rules::least_row;
use ddt_path::{MOST_LOCATORS, Role};
use ddt_register::{Register, Site, Zone};

fn has_too_many_etrs(s: &Site) -> bool
    ensures { result ≡ has_too_many s.now }
{
    s.etrs.as_slice().len() > MOST_LOCATORS
}

/// The least row of a site with more than 8 ETRs.
pub fn too_many_etrs(register: &Register) -> Option<u32>
    ensures { IsLeastRow (broken register.now Rule.TooManyEtrs) result }
{
    least_row(register.sites.as_slice(), |s| has_too_many_etrs(s))
}

/// Whether a zone is of Map-Servers and covers a site.
fn is_right(z: &Zone, s: &Site) -> bool
    ensures { result ≡ (is_ms_of z.now.kind && covers z.now.prefix s.now.prefix) }
{
    z.kind == Role::Ms && z.prefix.covers(s.prefix)
}

/// Whether a zone sorts at or before the site's prefix, by their numbers and, if these are equal, by their prefixes.
fn is_up_to_by_front(zone: &SortEntry<Zone>, site: &SortEntry<Site>) -> bool
    ensures { result ≡ (nat_lt zone.now.front site.now.front || (zone.now.front == site.now.front
        && is_le (slice_cmp nat_cmp zone.now.item.now.prefix site.now.item.now.prefix))) }
{
    zone.front < site.front || (zone.front == site.front && zone.item.prefix <= site.item.prefix)
}

/// Whether a zone sorts at or before the site's prefix.
fn is_up_to(zone: &SortEntry<Zone>, site: &SortEntry<Site>) -> bool
    ensures { result ≡ is_le (slice_cmp nat_cmp zone.now.item.now.prefix site.now.item.now.prefix) }
{
    is_up_to_by_front(zone, site)
}

/// Whether the longest zone that covers a site isn't one of Map-Servers. It reads the last zone that sorts at or before
/// the site's prefix. This is right if each prefix has one zone and no zone is below one of Map-Servers.
fn is_outside(zones: &[SortEntry<Zone>], s: &Site) -> bool
    requires { AreZonesInOrder (map (λ e. e.item.now) zones.now) }
    ensures { (r : ARegister) → IsPermutation r.zones (map (λ e. e.item.now) zones.now)
        → IsRuleKept r Rule.DuplicateZone
        → IsRuleKept r Rule.BelowMapServer
        → result ≡ is_outside_of r s.now }
{
    let site = SortEntry::of(s);
    let after = zones.partition_point(|zone| is_up_to(zone, &site));
    if after == 0 {
        return true;
    }
    !is_right(zones[after - 1].item, s)
}

/// The least row of a site whose longest covering zone isn't of Map-Servers.
pub fn outside(sites: &[Site], zones: &[SortEntry<Zone>]) -> Option<u32>
    requires { AreZonesInOrder (map (λ e. e.item.now) zones.now) }
    ensures { (r : ARegister) → IsPermutation r.sites sites.now
        → IsPermutation r.zones (map (λ e. e.item.now) zones.now)
        → IsRuleKept r Rule.DuplicateZone → IsRuleKept r Rule.BelowMapServer
        → IsLeastRow (broken r Rule.SiteOutside) result }
{
    least_row(sites, |s| is_outside(zones, s))
}
