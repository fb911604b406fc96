//! Reads the locators or the prefixes of RLOCs at a key of the top table.

ghost use Rattle.std.specs.Prelude.{◌≡◌, map};
ghost use Rattle.std.specs.Option.{option_map};
ghost use Rattle.toml.specs.Data.{get_member};
ghost use Rattle.toml.specs.View.{view, table_view};
ghost use Rattle.ddt_path.specs.Steps.{IsReadAs};
ghost use Rattle.ddt_config.specs.Settings.Table.{key_text, each, text_of, array_of, locator_of, rlocs_of, locators_in, prefixes_in};
ghost use Rattle.ddt_config.specs.Settings.Reading.{Reads, ReportsValue};

use crate::settings::fault::{Key, SettingsFault};
use crate::settings::rloc_prefix::{RlocPrefix, parse_rloc_prefix};
use ddt_path::{Listed, Locator};
use ddt_text::parse_locator;
use std::alloc::Global;
use toml::{Table, Value};

fn value_at<'t>(table: &'t Table, key: Key) -> Option<&'t Value>
    ensures { option_map (λ v. view v.now) result ≡ get_member (key_text key) (table_view table.now) }
{
    table.get(key.text())
}

fn array_in<'t>(value: &'t Value, key: Key) -> Result<&'t [Value], SettingsFault>
    ensures { IsReadAs (λ vs. map view vs.now) result (array_of key (view value.now)) }
{
    match value.as_array() {
        Some(values) => Ok(values.as_slice()),
        None => Err(SettingsFault::Field(key)),
    }
}

fn text_in<'t>(value: &'t Value, key: Key) -> Result<&'t str, SettingsFault>
    ensures { IsReadAs (λ t. t.now) result (text_of key (view value.now)) }
{
    match value.as_str() {
        Some(text) => Ok(text),
        None => Err(SettingsFault::Field(key)),
    }
}

/// The fault of a text that isn't of its key's form: 3 Value with the text, or 7 Memory.
fn bad_value(alloc: Global, key: Key, text: &[u8]) -> SettingsFault
    ensures { ReportsValue key text.now result }
{
    match Vec::from_slice(alloc, text) {
        Ok(text) => SettingsFault::Value(key, Listed::of(text)),
        Err(_refused) => SettingsFault::Memory,
    }
}

fn locator_in(alloc: Global, value: &Value, key: Key) -> Result<Locator, SettingsFault>
    ensures { Reads (locator_of key (view value.now)) result }
{
    let text = text_in(value, key)?;
    match parse_locator(text.as_bytes()) {
        Ok(locator) => Ok(locator),
        Err(_fault) => Err(bad_value(alloc, key, text.as_bytes())),
    }
}

/// Reads the locators at a required key, any number of them.
pub(crate) fn locators_at(
    alloc: Global,
    table: &Table,
    key: Key,
) -> Result<Listed<Locator>, SettingsFault>
    ensures { Reads (locators_in key (table_view table.now)) result }
{
    let value = value_at(table, key).ok_or(SettingsFault::Field(key))?;
    let values = array_in(value, key)?;
    read_locators(alloc, values, key)
}

fn read_locators(
    alloc: Global,
    values: &[Value],
    key: Key,
) -> Result<Listed<Locator>, SettingsFault>
    ensures { Reads (each (locator_of key) (map view values.now)) result }
{
    let mut locators = Vec::with_capacity(alloc, values.len())?;
    for value in values {
        let locator = locator_in(alloc, value, key)?;
        locators.push(locator)?;
    }
    Ok(Listed::of(locators))
}

fn rlocs_in(alloc: Global, value: &Value, key: Key) -> Result<RlocPrefix, SettingsFault>
    ensures { Reads (rlocs_of key (view value.now)) result }
{
    let text = text_in(value, key)?;
    match parse_rloc_prefix(alloc, text.as_bytes()) {
        Ok(Ok(prefix)) => Ok(prefix),
        Ok(Err(_fault)) => Err(bad_value(alloc, key, text.as_bytes())),
        Err(_refused) => Err(SettingsFault::Memory),
    }
}

/// Reads the prefixes of RLOCs at a key; none if the key is missing.
pub(crate) fn prefixes_at(
    alloc: Global,
    table: &Table,
    key: Key,
) -> Result<Listed<RlocPrefix>, SettingsFault>
    ensures { Reads (prefixes_in key (table_view table.now)) result }
{
    match value_at(table, key) {
        Some(value) => {
            let values = array_in(value, key)?;
            read_prefixes(alloc, values, key)
        }
        None => Ok(Listed::of(Vec::new(alloc))),
    }
}

fn read_prefixes(
    alloc: Global,
    values: &[Value],
    key: Key,
) -> Result<Listed<RlocPrefix>, SettingsFault>
    ensures { Reads (each (rlocs_of key) (map view values.now)) result }
{
    let mut prefixes = Vec::with_capacity(alloc, values.len())?;
    for value in values {
        let prefix = rlocs_in(alloc, value, key)?;
        prefixes.push(prefix)?;
    }
    Ok(Listed::of(prefixes))
}
