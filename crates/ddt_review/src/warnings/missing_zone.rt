//! Sites of a register that are in no zone of Map-Servers because a zone of an earlier register is missing.

ghost use Rattle.std.specs.Prelude.{◌≡◌, List, ℕ, IfOk};
ghost use Rattle.std.specs.Option.{option_copied};
ghost use Rattle.std.specs.Ordering.{nat_cmp};
ghost use Rattle.std.specs.Cmp.Lexicographic.{slice_cmp};
ghost use Rattle.std.specs.BTreeSet.{contains};
ghost use Rattle.ddt_review.specs.Warnings.Found.{IsTree};
ghost use Rattle.ddt_review.specs.Warnings.Missing.{lost_zone as lost_zone_of, has_zone, zoneless_site as zoneless_site_of, zoneless as zoneless_of};

use crate::warnings::zone_tree::ZoneTree;
use ddt_check::Accepted;
use ddt_path::{Prefix, Role};
use ddt_register::{Register, Site, Zone};
use std::alloc::{AllocError, Global};
use std::collections::BTreeSet;

/// A site whose zone is missing.
#[derive(Clone, Copy, Debug, PartialEq, Eq)]
pub struct ZonelessSite {
    /// The row of the site.
    pub row: u32,
    /// The prefix of the zone.
    pub zone: Prefix,
}

/// The sites in these rows of a register, in order, that are in a zone of Map-Servers of an earlier register while the
/// later one has no zone of that prefix. Fails only if out of memory.
pub fn zoneless_sites(
    alloc: Global,
    before: &Accepted,
    after: &Register,
    rows: &BTreeSet<u32>,
) -> Result<Vec<ZonelessSite>, AllocError>
    ensures { IfOk result (λ found. found.items ≡ zoneless_of before.now after.now (contains nat_cmp rows.now)) }
{
    let tree = ZoneTree::of(alloc, before)?;
    let kept = zone_prefixes(alloc, after.zones.as_slice())?;
    let mut zoneless = Vec::new(alloc);
    for site in after.sites.as_slice() {
        if let Some(found) = zoneless_site(&tree, &kept, rows, site) {
            zoneless.push(found)?;
        }
    }
    Ok(zoneless)
}

/// A site with the zone that is missing; None if its zone isn't missing, or if the site is in none of these rows.
fn zoneless_site(
    tree: &ZoneTree,
    kept: &BTreeSet<Prefix>,
    rows: &BTreeSet<u32>,
    site: &Site,
) -> Option<ZonelessSite>
    requires { IsTree tree.now }
    ensures { result ≡ zoneless_site_of tree.now.register.now (contains (slice_cmp nat_cmp) kept.now)
        (contains nat_cmp rows.now) site.now }
{
    let zone = lost_zone(tree, kept, site.prefix)?;
    rows.contains(&site.row).then_some(ZonelessSite {
        row: site.row,
        zone: zone.prefix,
    })
}

/// The longest zone that covers a prefix, if it is of Map-Servers and has none of these prefixes.
fn lost_zone<'a>(tree: &ZoneTree<'a>, kept: &BTreeSet<Prefix>, prefix: Prefix) -> Option<&'a Zone>
    requires { IsTree tree.now }
    ensures { option_copied result
        ≡ lost_zone_of tree.now.register.now (contains (slice_cmp nat_cmp) kept.now) prefix }
{
    let zone = tree.zone_of(prefix)?;
    if zone.kind == Role::Ms && !kept.contains(&zone.prefix) {
        Some(zone)
    } else {
        None
    }
}

/// The prefixes of some zones. Fails only if out of memory.
fn zone_prefixes(alloc: Global, zones: &[Zone]) -> Result<BTreeSet<Prefix>, AllocError>
    ensures { IfOk result (λ kept. (p : List ℕ) → contains (slice_cmp nat_cmp) kept p ≡ has_zone zones.now p) }
{
    let mut prefixes = BTreeSet::new(alloc);
    for zone in zones {
        prefixes.insert(zone.prefix)?;
    }
    Ok(prefixes)
}
