//! The settings of a Map-Resolver.

ghost use Rattle.std.specs.Prelude.{◌≡◌};
ghost use Rattle.std.specs.List.{list_any};
ghost use Rattle.toml.specs.View.{table_view};
ghost use Rattle.ddt_config.specs.Settings.Rlocs.{is_allowed};
ghost use Rattle.ddt_config.specs.Settings.Table.{settings_in, checked_roots, checked_listen, is_wildcard as is_wildcard_of};
ghost use Rattle.ddt_config.specs.Settings.Reading.{Reads};

use crate::settings::fault::{Key, SettingsFault};
use crate::settings::members::{locators_at, prefixes_at};
use crate::settings::rloc_prefix::RlocPrefix;
use ddt_path::{Listed, Locator, LocatorSet, are_distinct};
use std::alloc::Global;
use toml::Table;

/// The settings of a Map-Resolver.
#[derive(Debug, Drop)]
pub struct Settings {
    /// The locators of the root's servers, 1 to 8.
    pub roots: LocatorSet,
    /// The locators where it listens for ITRs: at least one, each once, and no wildcard.
    pub listen: Listed<Locator>,
    /// The prefixes of the RLOCs of the ITRs that may ask.
    pub allow: Listed<RlocPrefix>,
}

impl Settings {
    /// Whether an ITR may ask from this address: a prefix in `allow` covers it.
    pub fn allows(&self, locator: Locator) -> bool
        ensures { result ≡ is_allowed self.now.allow locator }
    {
        self.allow
            .as_slice()
            .iter()
            .any(|prefix| prefix.covers(locator))
    }

    /// Reads the settings in a table.
    pub(crate) fn read(alloc: Global, table: &Table) -> Result<Settings, SettingsFault>
        ensures { Reads (settings_in (table_view table.now)) result }
    {
        let roots = locators_at(alloc, table, Key::Roots)?;
        let roots = check_roots(roots.as_slice())?;
        let listen = locators_at(alloc, table, Key::Listen)?;
        check_listen(listen.as_slice())?;
        let allow = prefixes_at(alloc, table, Key::Allow)?;
        Ok(Settings {
            roots,
            listen,
            allow,
        })
    }
}

/// The root's servers as a set. Refused as 4 Count unless they are 1 to 8.
fn check_roots(roots: &[Locator]) -> Result<LocatorSet, SettingsFault>
    ensures { result ≡ checked_roots roots.now }
{
    match LocatorSet::of(roots) {
        Some(set) if !roots.is_empty() => Ok(set),
        _ => Err(SettingsFault::Count(Key::Roots)),
    }
}

/// Refuses locators to listen at: none as 4 Count, a wildcard as 5 Wildcard, one twice as 6 Twice.
fn check_listen(listen: &[Locator]) -> Result<(), SettingsFault>
    ensures { result ≡ checked_listen listen.now }
{
    if listen.is_empty() {
        return Err(SettingsFault::Count(Key::Listen));
    }
    if have_wildcard(listen) {
        return Err(SettingsFault::Wildcard);
    }
    if are_distinct(listen) {
        Ok(())
    } else {
        Err(SettingsFault::Twice)
    }
}

/// Whether one of the locators is 0.0.0.0 or ::.
fn have_wildcard(locators: &[Locator]) -> bool
    ensures { result ≡ list_any is_wildcard_of locators.now }
{
    locators.iter().any(|locator| is_wildcard(*locator))
}

/// Whether the locator is 0.0.0.0 or ::.
fn is_wildcard(locator: Locator) -> bool
    ensures { result ≡ is_wildcard_of locator }
{
    match locator {
        Locator::V4(number) => number == 0,
        Locator::V6(number) => number == 0,
    }
}
