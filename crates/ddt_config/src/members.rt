//! Reads the value at a key of a table: a text, an array, a name, a role, a prefix or locators.

ghost use Rattle.std.specs.Prelude.{◌≡◌, map, is_ok};
ghost use Rattle.std.specs.List.{list_all};
ghost use Rattle.std.specs.Option.{option_map};
ghost use Rattle.toml.specs.Data.{get_member};
ghost use Rattle.toml.specs.View.{view, table_view};
ghost use Rattle.ddt_path.specs.Steps.{IsReadAs};
ghost use Rattle.ddt_config.specs.Table.{key_text, each, text_of, array_of, table_of, text_at as text_at_of, array_at as array_at_of, array_or_none as array_or_none_of, texts_at as texts_at_of, tables_at as tables_at_of, is_text_value, is_table_value, locator_of, name_in as name_of, role_in as role_of_table, role_of as role_of_text, path_in, locators_in};
ghost use Rattle.ddt_config.specs.Reading.{Reads};
ghost use Rattle.ddt_config.specs.Place.{those_of, no_locator as no_locator_of, wrong_text as wrong_text_of};

use crate::fault::{ConfigFault, Key};
use ddt_path::{Listed, Locator, Name, Prefix, Role};
use ddt_text::{parse_locator, parse_prefix};
use std::alloc::Global;
use toml::{Table, Value};

fn value_at<'t>(table: &'t Table, key: Key) -> Option<&'t Value>
    ensures { option_map (λ v. view v.now) result ≡ get_member (key_text key) (table_view table.now) }
{
    table.get(key.text())
}

fn text_in<'t>(value: &'t Value, key: Key) -> Result<&'t str, ConfigFault>
    ensures { IsReadAs (λ t. t.now) result (text_of key (view value.now)) }
{
    value.as_str().ok_or(ConfigFault::Field(key))
}

/// The value as a table. Refused as 2 Field of the key if it is no table.
pub fn table_in<'t>(value: &'t Value, key: Key) -> Result<&'t Table, ConfigFault>
    ensures { IsReadAs (λ t. table_view t.now) result (table_of key (view value.now)) }
{
    value.as_table().ok_or(ConfigFault::Field(key))
}

fn text_at<'t>(table: &'t Table, key: Key) -> Result<&'t str, ConfigFault>
    ensures { IsReadAs (λ t. t.now) result (text_at_of key (table_view table.now)) }
{
    let value = value_at(table, key).ok_or(ConfigFault::Field(key))?;
    text_in(value, key)
}

fn array_in<'t>(value: &'t Value, key: Key) -> Result<&'t [Value], ConfigFault>
    ensures { IsReadAs (λ vs. map view vs.now) result (array_of key (view value.now)) }
{
    match value.as_array() {
        Some(values) => Ok(values.as_slice()),
        None => Err(ConfigFault::Field(key)),
    }
}

fn array_at<'t>(table: &'t Table, key: Key) -> Result<&'t [Value], ConfigFault>
    ensures { IsReadAs (λ vs. map view vs.now) result (array_at_of key (table_view table.now)) }
{
    let value = value_at(table, key).ok_or(ConfigFault::Field(key))?;
    array_in(value, key)
}

fn array_or_none<'t>(table: &'t Table, key: Key) -> Result<&'t [Value], ConfigFault>
    ensures { IsReadAs (λ vs. map view vs.now) result (array_or_none_of key (get_member (key_text key)
        (table_view table.now))) }
{
    match value_at(table, key) {
        Some(value) => array_in(value, key),
        None => Ok(&[]),
    }
}

fn are_texts(values: &[Value]) -> bool
    ensures { result ≡ list_all (λ v. is_text_value (view v)) values.now }
{
    values.iter().all(|value| value.is_str())
}

fn are_tables(values: &[Value]) -> bool
    ensures { result ≡ list_all (λ v. is_table_value (view v)) values.now }
{
    values.iter().all(|value| value.is_table())
}

/// The array of texts at a key.
fn texts_at<'t>(table: &'t Table, key: Key) -> Result<&'t [Value], ConfigFault>
    ensures { IsReadAs (λ vs. map view vs.now) result (texts_at_of key (table_view table.now)) }
{
    let values = array_at(table, key)?;
    if are_texts(values) {
        Ok(values)
    } else {
        Err(ConfigFault::Field(key))
    }
}

/// The array of tables at a key; empty if the key is missing.
pub fn tables_at<'t>(table: &'t Table, key: Key) -> Result<&'t [Value], ConfigFault>
    ensures { IsReadAs (λ vs. map view vs.now) result (tables_at_of key (table_view table.now)) }
{
    let values = array_or_none(table, key)?;
    if are_tables(values) {
        Ok(values)
    } else {
        Err(ConfigFault::Field(key))
    }
}

/// Reads the name of the group.
pub fn name_in(table: &Table) -> Result<Name, ConfigFault>
    ensures { result ≡ name_of (table_view table.now) }
{
    match text_at(table, Key::Name) {
        Ok(text) => Name::of(text.as_bytes()).ok_or(ConfigFault::Value(Key::Name)),
        Err(fault) => Err(fault),
    }
}

fn role_of(text: &str) -> Result<Role, ConfigFault>
    ensures { result ≡ role_of_text text.now }
{
    if text == "node" {
        Ok(Role::Node)
    } else if text == "ms" {
        Ok(Role::Ms)
    } else {
        Err(ConfigFault::Value(Key::Kind))
    }
}

/// Reads whether the servers are DDT nodes or Map-Servers.
pub fn role_in(table: &Table) -> Result<Role, ConfigFault>
    ensures { result ≡ role_of_table (table_view table.now) }
{
    text_at(table, Key::Kind).and_then(role_of)
}

/// Reads the prefix of an authority, a child or a site.
pub fn prefix_in(table: &Table) -> Result<Prefix, ConfigFault>
    ensures { result ≡ path_in (table_view table.now) }
{
    match text_at(table, Key::Prefix) {
        Ok(text) => parse_prefix(text.as_bytes()).map_err(|_| ConfigFault::Value(Key::Prefix)),
        Err(fault) => Err(fault),
    }
}

fn locator_in(value: &Value, key: Key) -> Result<Locator, ConfigFault>
    ensures { result ≡ locator_of key (view value.now) }
{
    match text_in(value, key) {
        Ok(text) => parse_locator(text.as_bytes()).map_err(|_| ConfigFault::Value(key)),
        Err(fault) => Err(fault),
    }
}

fn read_locators(alloc: Global, values: &[Value], key: Key) -> Result<Listed<Locator>, ConfigFault>
    ensures { Reads (each (locator_of key) (map view values.now)) result }
{
    let mut locators = Vec::with_capacity(alloc, values.len())?;
    for value in values {
        let locator = locator_in(value, key)?;
        locators.push(locator)?;
    }
    Ok(Listed::of(locators))
}

/// Whether locators can be read at a key.
pub fn are_locators_at(table: &Table, key: Key) -> bool
    ensures { result ≡ is_ok (locators_in key (table_view table.now)) }
{
    match texts_at(table, key) {
        Ok(values) => are_locators(values, key),
        Err(_) => false,
    }
}

fn are_locators(values: &[Value], key: Key) -> bool
    ensures { result ≡ list_all (λ v. is_ok (locator_of key (view v))) values.now }
{
    values.iter().all(|value| locator_in(value, key).is_ok())
}

/// The text of a fault in its table: the one that isn't of its key's form, else none.
pub fn wrong_text<'t>(table: &'t Table, fault: ConfigFault) -> Option<&'t str>
    ensures { option_map (λ t. t.now) result ≡ wrong_text_of fault (table_view table.now) }
{
    match fault {
        ConfigFault::Value(Key::Locators) => no_locator_at(table, Key::Locators),
        ConfigFault::Value(Key::Etrs) => no_locator_at(table, Key::Etrs),
        ConfigFault::Value(key) => text_at(table, key).ok(),
        _ => None,
    }
}

/// The first text at a key that is no address.
fn no_locator_at<'t>(table: &'t Table, key: Key) -> Option<&'t str>
    ensures { option_map (λ t. t.now) result ≡ no_locator_of (those_of (texts_at_of key (table_view table.now))) }
{
    match texts_at(table, key) {
        Ok(values) => no_locator(values),
        Err(_) => None,
    }
}

fn no_locator<'t>(values: &'t [Value]) -> Option<&'t str>
    ensures { option_map (λ t. t.now) result ≡ no_locator_of (map view values.now) }
{
    for value in values {
        if let Some(text) = value.as_str()
            && parse_locator(text.as_bytes()).is_err()
        {
            return Some(text);
        }
    }
    None
}

/// Reads the locators at a key, any number of them.
pub fn locators_at(alloc: Global, table: &Table, key: Key) -> Result<Listed<Locator>, ConfigFault>
    ensures { Reads (locators_in key (table_view table.now)) result }
{
    let values = texts_at(table, key)?;
    read_locators(alloc, values, key)
}
