//! The settings of a server: the ITRs that may ask it.

ghost use Rattle.std.specs.Prelude.{◌≡◌, []};
ghost use Rattle.toml.specs.View.{table_view};
ghost use Rattle.ddt_config.specs.Settings.Rlocs.{is_allowed};
ghost use Rattle.ddt_config.specs.Settings.Table.{server_settings_in};
ghost use Rattle.ddt_config.specs.Settings.Reading.{Reads};

use crate::settings::fault::{Key, SettingsFault};
use crate::settings::members::prefixes_at;
use crate::settings::rloc_prefix::RlocPrefix;
use ddt_path::{Listed, Locator};
use std::alloc::Global;
use toml::Table;

/// The settings of a server.
#[derive(Debug, Drop)]
pub struct ServerSettings {
    /// The prefixes of the RLOCs that may ask a Map-Server as ITRs do, with the bit D clear.
    pub allow: Listed<RlocPrefix>,
}

impl ServerSettings {
    /// The settings that allow no ITR.
    pub fn none(alloc: Global) -> ServerSettings
        ensures { result.allow ≡ [] }
    {
        ServerSettings {
            allow: Listed::of(Vec::new(alloc)),
        }
    }

    /// Whether an ITR may ask from this address: a prefix in `allow` covers it.
    pub fn allows(&self, locator: Locator) -> bool
        ensures { result ≡ is_allowed self.now.allow locator }
    {
        self.allow
            .as_slice()
            .iter()
            .any(|prefix| prefix.covers(locator))
    }

    /// Reads the settings of a server from a table. It has `allow`, an array of the texts of prefixes of RLOCs, which
    /// may be missing. Other keys are ignored. Refused as 2 Field, 3 Value and 7 Memory, as `from_table` refuses that
    /// key.
    pub fn from_table(alloc: Global, table: &Table) -> Result<ServerSettings, SettingsFault>
        ensures { Reads (server_settings_in (table_view table.now)) result }
    {
        let allow = prefixes_at(alloc, table, Key::Allow)?;
        Ok(ServerSettings { allow })
    }
}
