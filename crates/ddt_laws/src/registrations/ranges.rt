//! Laws of ranges: the numbers of keyed sites are in the ranges of their types. Each function does nothing.

ghost use Rattle.std.specs.Prelude.{IsTrue};
ghost use Rattle.std.specs.List.{list_all};
ghost use Rattle.ddt_register.specs.Ranges.{are_locators};
ghost use Rattle.ddt_laws.specs.Registrations.Ranges.{are_ranked, is_keyed_in_range, are_keyed_in_range};

use ddt_foreign::Ranked;
use ddt_path::Locator;
use ddt_registrar::{KeyedSite, Registration};

/// Locators are in range.
fn locators_in_range(locators: &[Locator])
    ensures { IsTrue (are_locators locators.now) }
{
    for locator in locators {
        let _width = locator.width();
    }
}

/// The addresses of ETRs are in range.
fn etrs_in_range(etrs: &[Ranked])
    ensures { IsTrue (are_ranked etrs.now) }
{
    for etr in etrs {
        let _width = etr.address.width();
    }
}

/// Registrations are in range.
fn registrations_in_range(live: &[Registration])
    ensures { IsTrue (list_all (λ g. are_ranked g.etrs) live.now) }
{
    for registration in live {
        etrs_in_range(registration.etrs.as_slice());
    }
}

/// A keyed site is in range.
fn site_in_range(site: &KeyedSite)
    ensures { IsTrue (is_keyed_in_range site.now) }
{
    locators_in_range(site.configured.as_slice());
    registrations_in_range(site.live.as_slice());
}

/// All keyed sites are in range.
pub fn keyed_sites_are_in_range(sites: &[KeyedSite])
    ensures { IsTrue (are_keyed_in_range sites.now) }
{
    for site in sites {
        site_in_range(site);
    }
}
