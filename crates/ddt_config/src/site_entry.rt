//! A site of a Map-Server (RFC 8111, section 4), and its table.

ghost use Rattle.toml.specs.Data.{table};
ghost use Rattle.ddt_config.specs.Table.{site_in};
ghost use Rattle.ddt_config.specs.Shaped.{fits};
ghost use Rattle.ddt_config.specs.Writing.{written_site, IsSiteSpelled};

use crate::config_item::ConfigItem;
use crate::fault::{ConfigFault, Key};
use crate::members::{are_locators_at, locators_at, prefix_in};
use crate::values::{Written, array_value, prefix_value, put};
use ddt_path::{Listed, Locator, LocatorSet, Prefix, Prefixed, Role};
use std::alloc::{AllocError, Global};
use std::marker::Model;
use toml::{Table, Value};

/// A site of a Map-Server. The longest site that covers an XEID decides the answer.
#[derive(Clone, Copy, Debug)]
pub struct SiteEntry {
    pub prefix: Prefix,
    /// The locators of its registered ETRs, 0 to 8.
    pub etrs: LocatorSet,
}

impl Prefixed for SiteEntry {
    ghost path = { λ s. s.prefix };

    fn prefix(&self) -> Prefix {
        self.prefix
    }
}

/// A site in its table, with any number of ETRs. Contracts see it as a site.
#[derive(Debug, Drop)]
pub struct SiteDraft {
    pub prefix: Prefix,
    pub etrs: Listed<Locator>,
}

impl Model for SiteDraft {
    ghost use Rattle.ddt_config.specs.declared.site_entry.SiteEntry.{SiteEntry as SiteValue};

    ghost Value = { SiteValue };

    ghost view = { λ s. record { prefix = s.prefix; etrs = s.etrs } };
}

impl Prefixed for SiteDraft {
    ghost path = { λ s. s.prefix };

    fn prefix(&self) -> Prefix {
        self.prefix
    }
}

impl ConfigItem for SiteDraft {
    type Finished = SiteEntry;

    ghost item_in = { λ _ ms. site_in ms };

    ghost has_room = { λ s. fits s.etrs };

    ghost finished = { λ s. s };

    fn read(alloc: Global, _role: Role, table: &Table) -> Result<SiteDraft, ConfigFault> {
        let prefix = prefix_in(table)?;
        let etrs = locators_at(alloc, table, Key::Etrs)?;
        Ok(SiteDraft { prefix, etrs })
    }

    fn is_read(_role: Role, table: &Table) -> bool {
        prefix_in(table).is_ok() && are_locators_at(table, Key::Etrs)
    }

    fn finish(&self, _alloc: Global) -> Result<SiteEntry, AllocError> {
        Ok(SiteEntry {
            prefix: self.prefix,
            etrs: LocatorSet::of_few(self.etrs.as_slice()),
        })
    }
}

impl Written for SiteEntry {
    ghost written = { λ s. table (written_site s) };

    ghost is_spelled = { IsSiteSpelled };

    fn write(&self, alloc: Global) -> Result<Value, AllocError> {
        let mut table = Table::new(alloc);
        let prefix = prefix_value(alloc, self.prefix)?;
        put(alloc, &mut table, Key::Prefix, prefix)?;
        let etrs = array_value(alloc, self.etrs.as_slice())?;
        put(alloc, &mut table, Key::Etrs, etrs)?;
        Ok(Value::Table(table))
    }
}
