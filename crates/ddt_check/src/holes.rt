//! The least specific free prefix, by trial of each length: the prefix of a delegation hole (RFC 8111, section 7.1.2),
//! and of the part of a site that a server answers is not registered (section 7.2).

ghost use Rattle.std.specs.Prelude.{◌≡◌, ◌&&◌};
ghost use Rattle.std.specs.List.{list_any};
ghost use Rattle.ddt_path.specs.Path.{xeid_path};
ghost use Rattle.ddt_path.specs.Covers.{is_strictly_below as strictly_below, overlaps as overlap, covers as cover};
ghost use Rattle.ddt_path.specs.Free.{overlaps_none as overlaps_none_of, hole_of};
ghost use Rattle.ddt_check.specs.Assignment.{prefixes_in, prefixes_inside, part_of_site as part_of_site_at};

use ddt_path::{Prefix, Role, Xeid};
use ddt_register::{Register, Site, Zone};

/// What lies inside a prefix, and what a free prefix in it stays clear of.
#[derive(Clone, Copy, Debug, PartialEq, Eq)]
pub enum Inside {
    /// The zones strictly below the prefix.
    ZonesBelow,
    /// The sites that the prefix covers.
    SitesWithin,
    /// The sites strictly below the prefix.
    SitesBelow,
}

/// The hole of an identifier inside a zone: of the prefixes that cover the identifier, from the zone's length
/// upwards, the first that overlaps nothing in the zone. Where none is left, the identifier alone.
pub fn hole_in(register: &Register, zone: &Zone, x: Xeid) -> Prefix
    ensures { result ≡ hole_of zone.now.prefix (prefixes_in register.now zone.now zone.now.kind) (xeid_path x) }
{
    let inside = match zone.kind {
        Role::Node => Inside::ZonesBelow,
        Role::Ms => Inside::SitesWithin,
    };
    free_part(register, zone.prefix, inside, x)
}

/// The part of a site around an identifier: of the prefixes that cover the identifier, from the site's length upwards,
/// the first that overlaps no site inside it. Where none is left, the identifier alone.
pub fn part_of_site(register: &Register, site: &Site, x: Xeid) -> Prefix
    ensures { result ≡ part_of_site_at register.now site.now (xeid_path x) }
{
    free_part(register, site.prefix, Inside::SitesBelow, x)
}

fn free_part(register: &Register, authority: Prefix, inside: Inside, x: Xeid) -> Prefix
    ensures { result ≡ hole_of authority (prefixes_inside register.now authority inside) (xeid_path x) }
{
    let (shortest, longest) = (authority.len(), x.path_len());
    for len in shortest..longest {
        let part = Prefix::cut(x, len);
        if overlaps_none(register, authority, inside, part) {
            return part;
        }
    }
    Prefix::host(x)
}

/// Whether a part overlaps nothing of what lies inside a prefix.
fn overlaps_none(register: &Register, authority: Prefix, inside: Inside, part: Prefix) -> bool
    ensures { result ≡ overlaps_none_of (prefixes_inside register.now authority inside) part }
{
    match inside {
        Inside::ZonesBelow => !overlaps_zone_below(register, authority, part),
        Inside::SitesWithin => !overlaps_site_within(register, authority, part),
        Inside::SitesBelow => !overlaps_site_below(register, authority, part),
    }
}

fn overlaps_zone_below(register: &Register, authority: Prefix, part: Prefix) -> bool
    ensures { result ≡ list_any (λ y. strictly_below y.prefix authority && overlap y.prefix part) register.now.zones }
{
    let zones = register.zones.as_slice();
    zones.iter().any(|y| y.prefix.is_strictly_below(authority) && y.prefix.overlaps(part))
}

fn overlaps_site_within(register: &Register, authority: Prefix, part: Prefix) -> bool
    ensures { result ≡ list_any (λ s. cover authority s.prefix && overlap s.prefix part) register.now.sites }
{
    let sites = register.sites.as_slice();
    sites
        .iter()
        .any(|s| authority.covers(s.prefix) && s.prefix.overlaps(part))
}

fn overlaps_site_below(register: &Register, authority: Prefix, part: Prefix) -> bool
    ensures { result ≡ list_any (λ s. strictly_below s.prefix authority && overlap s.prefix part) register.now.sites }
{
    let sites = register.sites.as_slice();
    sites.iter().any(|s| s.prefix.is_strictly_below(authority) && s.prefix.overlaps(part))
}
