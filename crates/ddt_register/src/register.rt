//! The register: three lists, whose items stand in rows of their own.

ghost use Rattle.std.specs.Prelude.{◌≡◌, ◌↔◌, ◌&&◌, true, IsTrue, IsSome, IfSome};
ghost use Rattle.ddt_register.specs.Ranges.{is_in_range};
ghost use Rattle.ddt_register.specs.Rows.{are_rows as are_rows_of, rise, zone_rows, site_rows, group_rows, are_apart as are_apart_of};

use crate::group::Group;
use crate::item::items_in_range;
use crate::row_order::{are_apart, are_rising};
use crate::site::Site;
use crate::zone::Zone;
use ddt_path::Listed;

/// How many rows a register has at most.
pub const MOST_ROWS: u32 = 65_535;

/// Zones, sites and server groups. Rows rise within each list, and no row stands twice. The numbers of all items are in
/// the ranges of their types.
#[derive(Debug, Drop)]
pub struct Register {
    pub zones: Listed<Zone>,
    pub sites: Listed<Site>,
    pub groups: Listed<Group>,
    pub ghost rows: { are_rows_of zones sites groups ≡ true },
    pub ghost in_range: { is_in_range zones sites groups ≡ true },
}

impl Register {
    /// The register of these items; None where a row is 0 or above 65,535, where rows don't rise within a list, or
    /// where a row stands in two lists. It allocates nothing.
    pub fn of(zones: Vec<Zone>, sites: Vec<Site>, groups: Vec<Group>) -> Option<Register>
        ensures only { IsSome result ↔ IsTrue (are_rows_of zones.items sites.items groups.items) }
        ensures items { IfSome result (λ r. (r.zones ≡ zones.items) × (r.sites ≡ sites.items)
            × (r.groups ≡ groups.items)) }
    {
        if !are_rows(&zones, &sites, &groups) {
            return None;
        }
        Some(Register::of_rows(zones, sites, groups))
    }

    /// The register of items whose rows are such. It allocates nothing.
    pub(crate) fn of_rows(zones: Vec<Zone>, sites: Vec<Site>, groups: Vec<Group>) -> Register
        requires { are_rows_of zones.items sites.items groups.items ≡ true }
        ensures zones { result.zones ≡ zones.items }
        ensures sites { result.sites ≡ sites.items }
        ensures groups { result.groups ≡ groups.items }
    {
        items_in_range(&zones);
        items_in_range(&sites);
        items_in_range(&groups);
        Register {
            zones: Listed::of(zones),
            sites: Listed::of(sites),
            groups: Listed::of(groups),
        }
    }
}

fn are_rows(zones: &[Zone], sites: &[Site], groups: &[Group]) -> bool
    ensures { result ≡ are_rows_of zones.now sites.now groups.now }
{
    are_all_rising(zones, sites, groups) && are_all_apart(zones, sites, groups)
}

fn are_all_rising(zones: &[Zone], sites: &[Site], groups: &[Group]) -> bool
    ensures { result ≡ (rise 0 (zone_rows zones.now)
        && (rise 0 (site_rows sites.now) && rise 0 (group_rows groups.now))) }
{
    are_rising(zones) && are_rising(sites) && are_rising(groups)
}

/// Whether no row of one of the three lists, which rise, stands in another.
fn are_all_apart(zones: &[Zone], sites: &[Site], groups: &[Group]) -> bool
    requires zones { IsTrue (rise 0 (zone_rows zones.now)) }
    requires sites { IsTrue (rise 0 (site_rows sites.now)) }
    requires groups { IsTrue (rise 0 (group_rows groups.now)) }
    ensures { result ≡ (are_apart_of (zone_rows zones.now) (site_rows sites.now)
        && (are_apart_of (zone_rows zones.now) (group_rows groups.now) && are_apart_of (site_rows sites.now)
        (group_rows groups.now))) }
{
    are_apart(zones, sites) && are_apart(zones, groups) && are_apart(sites, groups)
}
