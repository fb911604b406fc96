//! What longest match over an accepted register assigns to an identifier.

ghost use Rattle.std.specs.Prelude.{◌≡◌};
ghost use Rattle.ddt_path.specs.Path.{xeid_path};
ghost use Rattle.ddt_check.specs.Zones.{locators_of as locators_of_name};
ghost use Rattle.ddt_path.specs.Free.{hole_of};
ghost use Rattle.ddt_check.specs.Assignment.{assignment, assigned_in, assigned_site, prefixes_in};
ghost use Rattle.ddt_path.specs.declared.record.Outcome.TheVariants.{Hole};

use crate::accepted::Accepted;
use crate::holes::{hole_in, part_of_site};
use crate::lookup::{locators_of, site_of, zone_of};
use ddt_path::{LocatorSet, Name, Outcome, Prefix, Role, Xeid};
use ddt_register::{Site, Zone};

/// The Map-Servers, or the hole, that the register assigns to an identifier (RFC 8111, section 7.3: what following
/// referrals from the root has to end in). It allocates nothing.
pub fn assign(accepted: &Accepted, x: Xeid) -> Outcome
    ensures { result ≡ assignment accepted.now (xeid_path x) }
{
    match zone_of(accepted.register(), Prefix::host(x)) {
        Some(zone) => assign_in(accepted, zone, x),
        None => Outcome::Hole {
            prefix: Prefix::cut(x, 0),
        },
    }
}

fn assign_in(accepted: &Accepted, zone: Zone, x: Xeid) -> Outcome
    ensures { result ≡ assigned_in accepted.now zone zone.kind (xeid_path x) }
{
    match zone.kind {
        Role::Node => hole(accepted, zone, x),
        Role::Ms => match site_of(accepted.register(), Prefix::host(x)) {
            Some(site) => assign_site(accepted, zone, site, x),
            None => hole(accepted, zone, x),
        },
    }
}

fn hole(accepted: &Accepted, zone: Zone, x: Xeid) -> Outcome
    ensures { result ≡ Hole (hole_of zone.prefix (prefixes_in accepted.now zone zone.kind) (xeid_path x)) }
{
    Outcome::Hole {
        prefix: hole_in(accepted.register(), &zone, x),
    }
}

fn assign_site(accepted: &Accepted, zone: Zone, site: &Site, x: Xeid) -> Outcome
    ensures { result ≡ assigned_site accepted.now zone site.now (xeid_path x) }
{
    let servers = servers_of(accepted, zone.group);
    if site.etrs.as_slice().is_empty() {
        Outcome::NotRegistered {
            prefix: part_of_site(accepted.register(), site, x),
            servers,
        }
    } else {
        Outcome::Registered {
            prefix: site.prefix,
            servers,
        }
    }
}

/// The locators of a group, of which an accepted register has at most 8.
pub fn servers_of(accepted: &Accepted, group: Name) -> LocatorSet
    ensures { result ≡ locators_of_name accepted.now group }
{
    LocatorSet::of_few(locators_of(accepted.register(), group))
}
