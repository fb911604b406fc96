//! The warnings of groups.

ghost use Rattle.std.specs.Prelude.{◌≡◌, IfSome};
ghost use Rattle.std.specs.Option.{option_copied};
ghost use Rattle.ddt_check.specs.Zones.{site_of};
ghost use Rattle.ddt_review.specs.Warnings.Found.{IsWarningFound, IsReasoned, IsOfSiteOver};
ghost use Rattle.ddt_review.specs.Warnings.Index.{IsIndex, register_of};
ghost use Rattle.ddt_review.specs.Warnings.UnreachableReason.{is_unreachable};
ghost use Rattle.ddt_review.specs.Warnings.Warnings.{group_has, is_inside_eids as is_inside_eids_of, is_named as is_named_of, eid_path};

use crate::warnings::by_prefix::longest;
use crate::warnings::has_warnings::{HasWarnings, first_found};
use crate::warnings::index::Index;
use crate::warnings::kind::Kind;
use crate::warnings::unreachable_locators::{is_out_of_reach, unreachable_reason};
use crate::warnings::warning::Finding;
use ddt_path::{Locator, Prefix, Xeid};
use ddt_register::{Group, Site};

impl HasWarnings for Group {
    ghost items_of = { λ r. r.groups };

    ghost has = { λ r resolvers. group_has r };

    fn find(&self, index: &Index, kind: Kind) -> Option<Finding> {
        let locators = self.locators.as_slice();
        match kind {
            Kind::UnreachableLocator => first_found(locators, |l| unreachable_locator(index, *l)),
            Kind::LocatorInsideEids => first_found(locators, |l| locator_inside_eids(index, *l)),
            Kind::GroupWithoutZone => {
                (!is_named(index, self)).then_some(Finding::GroupWithoutZone)
            }
            _ => None,
        }
    }
}

/// Whether a locator can't be reached from elsewhere.
fn unreachable_locator(index: &Index, locator: Locator) -> Option<Finding>
    requires { IsIndex index.now }
    ensures found { IsWarningFound (is_unreachable (register_of index.now) locator) Kind.UnreachableLocator result }
    ensures named { IfSome result (IsReasoned Finding.UnreachableLocator locator) }
{
    let reason = unreachable_reason(locator)?;
    is_out_of_reach(index.is_rig, Some(reason)).then_some(Finding::UnreachableLocator {
        locator,
        reason,
    })
}

/// Whether a site covers a locator, as an identifier of instance 0.
fn locator_inside_eids(index: &Index, locator: Locator) -> Option<Finding>
    requires { IsIndex index.now }
    ensures found { IsWarningFound (is_inside_eids_of (register_of index.now) locator) Kind.LocatorInsideEids result }
    ensures named { IfSome result (IsOfSiteOver (register_of index.now) locator) }
{
    let site = site_over(index, locator)?;
    Some(Finding::LocatorInsideEids {
        locator,
        site: site.row,
    })
}

/// The longest site that covers a locator, as an identifier of instance 0.
fn site_over<'a>(index: &Index<'a>, locator: Locator) -> Option<&'a Site>
    requires { IsIndex index.now }
    ensures { option_copied result ≡ site_of (register_of index.now) (eid_path locator) }
{
    let identifier = Xeid {
        iid: 0,
        address: locator,
    };
    longest(&index.sites, Prefix::host(identifier))
}

/// Whether a zone names the group.
fn is_named(index: &Index, group: &Group) -> bool
    requires { IsIndex index.now }
    ensures { result ≡ is_named_of (register_of index.now) group.now }
{
    index.named.contains(&group.name)
}
