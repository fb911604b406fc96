//! The warnings of sites.

ghost use Rattle.std.specs.Prelude.{◌≡◌, ◌<◌, ◌&&◌, drop, length, IfSome};
ghost use Rattle.ddt_path.specs.Covers.{covers};
ghost use Rattle.ddt_path.specs.Path.{address_path};
ghost use Rattle.std.specs.List.{Contains, count_by};
ghost use Rattle.ddt_path.specs.Locators.{is_same_locator, lists};
ghost use Rattle.std.specs.Option.{option_copied};
ghost use Rattle.ddt_review.specs.Warnings.Found.{IsWarningFound, IsReasoned, IsOfServer};
ghost use Rattle.ddt_review.specs.Warnings.Index.{IsIndex, register_of, resolvers_of};
ghost use Rattle.ddt_review.specs.Warnings.Named.{IsTrueFinding};
ghost use Rattle.ddt_review.specs.Warnings.UnreachableReason.{is_unreachable};
ghost use Rattle.ddt_review.specs.Warnings.Warnings.{site_has, is_repeated as is_repeated_of, is_server, is_inside_site as is_inside_site_of, is_in_other_region, len_above as len_above_of, are_near as are_near_sites, is_odd as is_odd_site, have_one_group as have_one_group_of};

use crate::warnings::has_warnings::{HasWarnings, first_found};
use crate::warnings::index::Index;
use crate::warnings::kind::Kind;
use crate::warnings::neighbouring_sites::neighbours;
use crate::warnings::servers::address;
use crate::warnings::unreachable_locators::{is_out_of_reach, unreachable_reason};
use crate::warnings::warning::Finding;
use ddt_path::{Locator, Prefix, Xeid};
use ddt_register::{Site, Zone};

impl HasWarnings for Site {
    ghost items_of = { λ r. r.sites };

    ghost has = { site_has };

    fn find(&self, index: &Index, kind: Kind) -> Option<Finding> {
        let etrs = self.etrs.as_slice();
        match kind {
            Kind::UnreachableEtr => first_found(etrs, |l| unreachable_etr(index, *l)),
            Kind::RepeatedEtr => first_found(etrs, |l| repeated_etr(self, *l)),
            Kind::EtrIsServer => first_found(etrs, |l| etr_is_server(index, *l)),
            Kind::EtrIsResolver => first_found(etrs, |l| etr_is_resolver(index, *l)),
            Kind::EtrInsideSite => first_found(etrs, |l| etr_inside_site(self, *l)),
            Kind::SiteInOtherRegion => in_other_region(index, self),
            _ => None,
        }
    }
}

/// Whether an ETR can't be reached from elsewhere.
fn unreachable_etr(index: &Index, etr: Locator) -> Option<Finding>
    requires { IsIndex index.now }
    ensures found { IsWarningFound (is_unreachable (register_of index.now) etr) Kind.UnreachableEtr result }
    ensures named { IfSome result (IsReasoned Finding.UnreachableEtr etr) }
{
    let reason = unreachable_reason(etr)?;
    is_out_of_reach(index.is_rig, Some(reason)).then_some(Finding::UnreachableEtr { etr, reason })
}

/// Whether an ETR occurs more than once in a site, which has at most 8.
fn repeated_etr(site: &Site, etr: Locator) -> Option<Finding>
    ensures found { IsWarningFound (is_repeated_of site.now.etrs etr) Kind.RepeatedEtr result }
    ensures named { IfSome result (λ f. f ≡ Finding.RepeatedEtr etr) }
{
    is_repeated(site.etrs.as_slice(), etr).then_some(Finding::RepeatedEtr { etr })
}

fn is_repeated(etrs: &[Locator], etr: Locator) -> bool
    ensures { result ≡ is_repeated_of etrs.now etr }
{
    times(etrs, etr) > 1
}

/// The number of times that a locator occurs in a list.
fn times(etrs: &[Locator], etr: Locator) -> usize
    ensures { result ≡ count_by (λ l. is_same_locator l etr) etrs.now }
{
    etrs.iter().filter(|l| **l == etr).count()
}

/// Whether an ETR is a locator of a group.
fn etr_is_server(index: &Index, etr: Locator) -> Option<Finding>
    requires { IsIndex index.now }
    ensures found { IsWarningFound (is_server (register_of index.now) etr) Kind.EtrIsServer result }
    ensures named { IfSome result (IsOfServer (register_of index.now) etr) }
{
    let group = *index.servers.get(&address(etr))?;
    Some(Finding::EtrIsServer { etr, group })
}

/// Whether an ETR is a known Map-Resolver's address.
fn etr_is_resolver(index: &Index, etr: Locator) -> Option<Finding>
    requires { IsIndex index.now }
    ensures found { IsWarningFound (lists (resolvers_of index.now) etr) Kind.EtrIsResolver result }
    ensures named { IfSome result (λ f. f ≡ Finding.EtrIsResolver etr) }
{
    let is_known = index.known.contains(&address(etr));
    is_known.then_some(Finding::EtrIsResolver { etr })
}

/// Whether an ETR's address is inside its own site's EID-prefix.
fn etr_inside_site(site: &Site, etr: Locator) -> Option<Finding>
    ensures found { IsWarningFound (is_inside_site_of site.now etr) Kind.EtrInsideSite result }
    ensures named { IfSome result (λ f. f ≡ Finding.EtrInsideSite etr) }
{
    is_inside_site(site, etr).then_some(Finding::EtrInsideSite { etr })
}

/// Whether a site's EID-prefix covers an address, in whichever instance, and not its whole family.
fn is_inside_site(site: &Site, etr: Locator) -> bool
    ensures { result ≡ is_inside_site_of site.now etr }
{
    site.prefix.len() > 33 && covers_address(site.prefix, etr)
}

/// Whether a prefix covers an address in its own instance.
fn covers_address(prefix: Prefix, address: Locator) -> bool
    ensures { 32 < length prefix → result ≡ covers (drop 32 prefix) (address_path address) }
{
    let iid = prefix.inner().iid;
    prefix.covers_xeid(Xeid { iid, address })
}

/// Whether the sites just before and just after a site are near and served by one group, and the site by another.
fn in_other_region(index: &Index, site: &Site) -> Option<Finding>
    requires index { IsIndex index.now }
    requires member { Contains (register_of index.now).sites site.now }
    ensures found { IsWarningFound (is_in_other_region (register_of index.now) site.now) Kind.SiteInOtherRegion
        result }
    ensures named { IfSome result
        (IsTrueFinding (register_of index.now) (resolvers_of index.now) site.now.row) }
{
    let (before, behind) = neighbours(index.order.as_slice(), site)?;
    is_other(index, site, before, behind).then_some(Finding::SiteInOtherRegion {
        before: before.row,
        behind: behind.row,
    })
}

/// Whether two sites are near and served by one group, and a third one by another.
fn is_other(index: &Index, site: &Site, before: &Site, behind: &Site) -> bool
    requires { IsIndex index.now }
    ensures { result ≡ (are_near_sites (register_of index.now) site.now before.now behind.now
        && is_odd_site (register_of index.now) site.now before.now behind.now) }
{
    are_near(index, site, before, behind) && is_odd(index, site, before, behind)
}

/// Whether two sites are of one instance and family, and share more digits than the zone has that is directly above a
/// third site's zone.
fn are_near(index: &Index, site: &Site, before: &Site, behind: &Site) -> bool
    requires { IsIndex index.now }
    ensures { result ≡ are_near_sites (register_of index.now) site.now before.now behind.now }
{
    before.prefix.longest_common(behind.prefix).len() > len_above(index, site).max(32)
}

/// The number of digits of the zone directly above a site's own zone; 0 if that is the root.
fn len_above(index: &Index, site: &Site) -> u8
    requires { IsIndex index.now }
    ensures { result ≡ len_above_of (register_of index.now) site.now }
{
    let Some(zone) = index.tree.zone_of(site.prefix) else {
        return 0;
    };
    match index.tree.zone_above(zone) {
        Some(above) => above.prefix.len(),
        None => 0,
    }
}

/// Whether one group serves two sites, and another one the third.
fn is_odd(index: &Index, site: &Site, before: &Site, behind: &Site) -> bool
    requires { IsIndex index.now }
    ensures { result ≡ is_odd_site (register_of index.now) site.now before.now behind.now }
{
    let first = index.tree.zone_of(before.prefix);
    have_one_group(first, index.tree.zone_of(behind.prefix))
        && !have_one_group(index.tree.zone_of(site.prefix), first)
}

fn have_one_group(first: Option<&Zone>, second: Option<&Zone>) -> bool
    ensures { result ≡ have_one_group_of (option_copied first.entry) (option_copied second.entry) }
{
    match (first, second) {
        (Some(first), Some(second)) => first.group == second.group,
        _ => false,
    }
}
