//! The settings of a resolver or a server from the text of their file.

use crate::fault_texts::settings_text;
use crate::texts::Message;
use crate::toml_table::{table_of, text_of};
use crate::unknown_keys::{refuse_unknown, unknown_in_server_settings, unknown_in_settings};
use ddt_config::settings::{ServerSettings, Settings, from_table};
use std::alloc::Global;
use toml::Table;

/// The settings of a resolver in the bytes of a file. Refuses what `settings_in` refuses, and bytes that aren't a TOML
/// text with a key.
pub fn settings_of(alloc: Global, bytes: &[u8]) -> Result<Settings, Message> {
    let text = text_of(alloc, bytes)?;
    settings_in(alloc, text, &table_of(alloc, text)?)
}

/// The settings of a server in the bytes of a file. Refuses what `server_settings_in` refuses, and bytes that aren't a
/// TOML text with a key.
pub fn server_settings_of(alloc: Global, bytes: &[u8]) -> Result<ServerSettings, Message> {
    let text = text_of(alloc, bytes)?;
    server_settings_in(alloc, text, &table_of(alloc, text)?)
}

/// The settings of a resolver in a text and its table. Refuses an unknown key, and a table that has no settings.
pub fn settings_in(alloc: Global, text: &str, table: &Table) -> Result<Settings, Message> {
    refuse_unknown(alloc, unknown_in_settings(alloc, text, table))?;
    match from_table(alloc, table) {
        Ok(settings) => Ok(settings),
        Err(fault) => Err(settings_text(alloc, &fault)),
    }
}

/// The settings of a server in a text and its table. Refuses an unknown key, and a table that has no settings.
pub fn server_settings_in(
    alloc: Global,
    text: &str,
    table: &Table,
) -> Result<ServerSettings, Message> {
    refuse_unknown(alloc, unknown_in_server_settings(alloc, text, table))?;
    match ServerSettings::from_table(alloc, table) {
        Ok(settings) => Ok(settings),
        Err(fault) => Err(settings_text(alloc, &fault)),
    }
}
