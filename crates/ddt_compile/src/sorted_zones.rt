//! The zones directly below a zone, and the zone that holds a site, by the zones in the order of their prefixes. In
//! this order the zones that a zone covers follow it directly.

ghost use Rattle.std.specs.Prelude.{◌≡◌, ◌<◌, ◌≤◌, true, false, length, IsPermutation, IfOk, MatchOption};
ghost use Rattle.std.specs.List.{filter, Contains};
ghost use Rattle.std.specs.List.Sorted.{IsPartitionPoint};
ghost use Rattle.std.specs.Ordering.{nat_cmp, is_le};
ghost use Rattle.std.specs.Cmp.Lexicographic.{slice_cmp};
ghost use Rattle.ddt_path.specs.Covers.{covers};
ghost use Rattle.ddt_path.specs.declared.record.Role.TheVariants.{Ms};
ghost use Rattle.ddt_register.specs.declared.register.Register.{Register as ARegister};
ghost use Rattle.ddt_check.specs.Order.{AreZonesInOrder};
ghost use Rattle.ddt_check.specs.Zones.{is_direct_child};
ghost use Rattle.ddt_compile.specs.Sorted.{AreSortedOf, IsEndOf};

use ddt_path::Prefix;
use ddt_register::{Site, Zone};
use std::alloc::{AllocError, Global};

/// The zones in the order of their prefixes, then of their rows.
pub fn sorted_zones(alloc: Global, zones: &[Zone]) -> Result<Vec<Zone>, AllocError>
    ensures same { IfOk result (λ sorted. IsPermutation zones.now sorted.items) }
    ensures order { IfOk result (λ sorted. AreZonesInOrder sorted.items) }
{
    let mut sorted = Vec::from_slice(alloc, zones)?;
    sorted.sort_unstable_by_key(|z| (z.prefix, z.row));
    Ok(sorted)
}

/// The number of zones that sort at or before a prefix.
fn count_up_to(sorted: &[Zone], prefix: Prefix) -> usize
    requires { AreZonesInOrder sorted.now }
    ensures within { result ≤ length sorted.now }
    ensures point { IsPartitionPoint (λ z. is_le (slice_cmp nat_cmp z.prefix prefix) ≡ true)
        (λ z. is_le (slice_cmp nat_cmp z.prefix prefix) ≡ false) sorted.now result }
{
    sorted.partition_point(|z| z.prefix <= prefix)
}

/// The place after a zone and all zones that it covers.
fn end_of(sorted: &[Zone], at: usize) -> usize
    requires order { AreZonesInOrder sorted.now }
    requires at { at < length sorted.now }
    ensures { IsEndOf sorted.now at result }
{
    let prefix = sorted[at].prefix;
    let behind = &sorted[at + 1..];
    at + 1 + behind.partition_point(|z| prefix.covers(z.prefix))
}

/// The zones strictly below a zone with no zone between, in the order of their prefixes. The zones that these cover are
/// skipped.
fn directly_below(alloc: Global, sorted: &[Zone], zone: &Zone) -> Result<Vec<Zone>, AllocError>
    requires { AreZonesInOrder sorted.now }
    ensures { IfOk result (λ found. (r : ARegister) → AreSortedOf r sorted.now
        → found.items ≡ filter (is_direct_child r zone.now) sorted.now) }
{
    let mut found = Vec::new(alloc);
    let mut at = count_up_to(sorted, zone.prefix);
    while at < sorted.len() {
        let next = sorted[at];
        if !zone.prefix.covers(next.prefix) {
            return Ok(found);
        }
        found.push(next)?;
        at = end_of(sorted, at);
    }
    Ok(found)
}

/// The zones strictly below a zone with no zone between, in the order of their rows.
pub fn zones_directly_below(
    alloc: Global,
    sorted: &[Zone],
    zone: &Zone,
) -> Result<Vec<Zone>, AllocError>
    requires { AreZonesInOrder sorted.now }
    ensures { IfOk result (λ found. (r : ARegister) → AreSortedOf r sorted.now
        → found.items ≡ filter (is_direct_child r zone.now) r.zones) }
{
    let mut found = directly_below(alloc, sorted, zone)?;
    found.sort_unstable_by_key(|z| z.row);
    Ok(found)
}

/// The zone of Map-Servers that covers a site of an accepted register: the last zone that sorts at or before the site's
/// prefix.
pub fn holder(sorted: &[Zone], site: &Site) -> Option<Zone>
    requires { AreZonesInOrder sorted.now }
    ensures { (r : ARegister) → AreSortedOf r sorted.now → Contains r.sites site.now
        → MatchOption result ⊥ (λ z. Contains r.zones z × (z.kind ≡ Ms) × (covers z.prefix site.now.prefix ≡ true)) }
{
    let after = count_up_to(sorted, site.prefix);
    if after == 0 {
        return None;
    }
    Some(sorted[after - 1])
}
