//! A configuration from the text of its file, and its summary.

use crate::fault_texts::{fault_text, seal_text};
use crate::texts::Message;
use crate::toml_table::{table_of, text_of};
use crate::unknown_keys::{UnknownKey, unknown_in_configuration};
use ddt_config::digest::{Seal, SealFault, check_seal, seal_in};
use ddt_config::{ConfigFault, PlacedFault, ServerConfig, read_table};
use ddt_node::has_room_for;
use std::alloc::Global;
use std::fmt;
use toml::Table;

/// A configuration, with its summary and its unknown keys.
#[derive(Drop)]
pub struct LoadedConfiguration {
    pub config: ServerConfig,
    pub summary: ConfigurationSummary,
    /// The first 16 unknown keys of the file.
    pub unknown: Vec<UnknownKey>,
}

/// The summary of a configuration: its counts and its digest.
#[derive(Clone, Copy)]
pub struct ConfigurationSummary {
    pub seal: Seal,
    /// Whether the file contains the seal.
    is_sealed: bool,
}

impl fmt::Display for ConfigurationSummary {
    fn fmt<W: fmt::Write>(&self, f: &mut fmt::Formatter<W>) -> fmt::Result {
        let counts = self.seal.counts;
        let authorities = if counts.authorities == 1 {
            "authority"
        } else {
            "authorities"
        };
        let children = if counts.children == 1 {
            "child"
        } else {
            "children"
        };
        let sites = if counts.sites == 1 { "site" } else { "sites" };
        write!(f, "{} {authorities}, ", counts.authorities)?;
        write!(f, "{} {children}, ", counts.children)?;
        write!(f, "{} {sites}, ", counts.sites)?;
        if !self.is_sealed {
            return write!(f, "no digest");
        }
        write!(f, "digest ")?;
        for byte in &self.seal.digest {
            write!(f, "{byte:02x}")?;
        }
        Ok(())
    }
}

/// The configuration in the bytes of a file. Refuses what `configuration_in` refuses, and bytes that aren't a TOML text
/// with a key.
pub fn configuration_of(alloc: Global, bytes: &[u8]) -> Result<LoadedConfiguration, Message> {
    let text = text_of(alloc, bytes)?;
    configuration_in(alloc, text, table_of(alloc, text)?)
}

/// The configuration of a text and its table. Refuses a table that is no configuration, one that has no room in a
/// server, and one whose seal isn't its own. A configuration without a seal is good, too.
pub fn configuration_in(
    alloc: Global,
    text: &str,
    table: Table,
) -> Result<LoadedConfiguration, Message> {
    let unknown = match unknown_in_configuration(alloc, text, &table) {
        Ok(unknown) => unknown,
        Err(refused) => return Err(Err(refused)),
    };
    let said = seal_in(&table);
    match sealed_config(alloc, table, said) {
        Ok((config, seal)) => Ok(LoadedConfiguration {
            config,
            summary: ConfigurationSummary {
                seal,
                is_sealed: matches!(said, Ok(Some(_))),
            },
            unknown,
        }),
        Err(why) => Err(why),
    }
}

/// The configuration of a table, with its seal.
fn sealed_config(
    alloc: Global,
    table: Table,
    said: Result<Option<Seal>, SealFault>,
) -> Result<(ServerConfig, Seal), Message> {
    let config = config_of(alloc, table)?;
    let checked = match said {
        Ok(said) => check_seal(alloc, said, &config),
        Err(fault) => Err(fault),
    };
    match checked {
        Ok(seal) => Ok((config, seal)),
        Err(fault) => Err(seal_text(alloc, fault)),
    }
}

/// The configuration of a table.
fn config_of(alloc: Global, table: Table) -> Result<ServerConfig, Message> {
    match read_table(alloc, table) {
        Ok(config) if !has_room_for(&config) => {
            let fault = PlacedFault::of_whole(ConfigFault::Shape);
            Err(fault_text(alloc, &fault))
        }
        Ok(config) => Ok(config),
        Err(fault) => Err(fault_text(alloc, &fault)),
    }
}
