//! Unknown keys of a TOML file, which are mostly misspelt.

use crate::texts::{Message, role_text};
use ddt_config::Key;
use ddt_config::digest::Key as SealKey;
use ddt_config::settings::Key as SettingsKey;
use ddt_path::Role;
use std::alloc::{AllocError, Global};
use std::fmt;
use toml::{Table, Value};
use toml_parser::dotted_key;

/// The most unknown keys reported of one file.
const MOST_KEYS: usize = 16;

/// An unknown key.
#[derive(Drop)]
pub struct UnknownKey {
    /// The key, after those of the tables that contain it, with dots between them.
    path: String,
    /// The first line that has the key; None for a key in an inline table.
    line: Option<u64>,
}

impl fmt::Display for UnknownKey {
    fn fmt<W: fmt::Write>(&self, f: &mut fmt::Formatter<W>) -> fmt::Result {
        match self.line {
            Some(line) => write!(f, "line {line}: unknown key {}", self.path),
            None => write!(f, "unknown key {}", self.path),
        }
    }
}

/// The first 16 unknown keys of a configuration, each once. The authorities of a Map-Server have sites and those of a
/// node have children; the other list is an unknown key.
pub(crate) fn unknown_in_configuration(
    alloc: Global,
    text: &str,
    table: &Table,
) -> Result<Vec<UnknownKey>, AllocError> {
    let below = if text_at(table, Key::Kind.text()) == Some(role_text(Role::Ms)) {
        Key::Site
    } else {
        Key::Child
    };
    let mut paths = Vec::new(alloc);
    add_unknown(&mut paths, "", table, &configuration_keys())?;
    for authority in tables_at(table, Key::Authority.text()) {
        add_of_authority(&mut paths, authority, below)?;
    }
    with_lines(alloc, text, paths)
}

/// The keys at the top of a configuration, those of its seal with them.
fn configuration_keys() -> [&'static str; 8] {
    [
        Key::Name.text(),
        Key::Kind.text(),
        Key::Locators.text(),
        Key::Authority.text(),
        SealKey::Authorities.text(),
        SealKey::Children.text(),
        SealKey::Digest.text(),
        SealKey::Sites.text(),
    ]
}

/// The first 16 unknown keys of a resolver's settings, each once.
pub(crate) fn unknown_in_settings(
    alloc: Global,
    text: &str,
    table: &Table,
) -> Result<Vec<UnknownKey>, AllocError> {
    let known = [
        SettingsKey::Roots.text(),
        SettingsKey::Listen.text(),
        SettingsKey::Allow.text(),
    ];
    let mut paths = Vec::new(alloc);
    add_unknown(&mut paths, "", table, &known)?;
    with_lines(alloc, text, paths)
}

/// The first 16 unknown keys of a server's settings, each once.
pub(crate) fn unknown_in_server_settings(
    alloc: Global,
    text: &str,
    table: &Table,
) -> Result<Vec<UnknownKey>, AllocError> {
    let mut paths = Vec::new(alloc);
    add_unknown(&mut paths, "", table, &[SettingsKey::Allow.text()])?;
    with_lines(alloc, text, paths)
}

/// The first 16 unknown keys of a file that has tables `[[list]]` alone, each once. `known` are the keys of such a
/// table.
pub fn unknown_in_list(
    alloc: Global,
    text: &str,
    table: &Table,
    list: &str,
    known: &[&str],
) -> Result<Vec<UnknownKey>, AllocError> {
    let mut paths = Vec::new(alloc);
    add_unknown(&mut paths, "", table, &[list])?;
    add_of_each(&mut paths, list, tables_at(table, list), known)?;
    with_lines(alloc, text, paths)
}

/// Adds the unknown keys of an authority, and those of its children or sites, which are the list `below`.
fn add_of_authority(
    paths: &mut Vec<String>,
    authority: &Value,
    below: Key,
) -> Result<(), AllocError> {
    let Some(authority) = authority.as_table() else {
        return Ok(());
    };
    add_unknown(
        paths,
        "authority.",
        authority,
        &[Key::Prefix.text(), below.text()],
    )?;
    let list = format!(in *paths.allocator(); "authority.{}", below.text())?;
    let values = tables_at(authority, below.text());
    match below {
        Key::Site => add_of_each(
            paths,
            &list,
            values,
            &[Key::Prefix.text(), Key::Etrs.text()],
        ),
        _ => {
            let known = [Key::Prefix.text(), Key::Kind.text(), Key::Locators.text()];
            add_of_each(paths, &list, values, &known)
        }
    }
}

/// Adds the unknown keys of each table of a list, whose dotted key is `list`.
fn add_of_each(
    paths: &mut Vec<String>,
    list: &str,
    values: &[Value],
    known: &[&str],
) -> Result<(), AllocError> {
    let inside = format!(in *paths.allocator(); "{list}.")?;
    for value in values {
        if let Some(table) = value.as_table() {
            add_unknown(paths, &inside, table, known)?;
        }
    }
    Ok(())
}

/// Adds the keys of one table that aren't in `known`.
fn add_unknown(
    paths: &mut Vec<String>,
    inside: &str,
    table: &Table,
    known: &[&str],
) -> Result<(), AllocError> {
    for (key, _value) in table.iter() {
        if !known.iter().any(|word| *word == key.as_str()) {
            add_path(paths, inside, key)?;
        }
    }
    Ok(())
}

fn add_path(paths: &mut Vec<String>, inside: &str, key: &str) -> Result<(), AllocError> {
    let path = format!(in *paths.allocator(); "{inside}{key}")?;
    let is_listed = paths.iter().any(|listed| listed.as_str() == path.as_str());
    if !is_listed && paths.len() < MOST_KEYS {
        paths.push(path)?;
    }
    Ok(())
}

fn text_at<'t>(table: &'t Table, key: &str) -> Option<&'t str> {
    table.get(key)?.as_str()
}

fn tables_at<'t>(table: &'t Table, key: &str) -> &'t [Value] {
    match table.get(key) {
        Some(value) => match value.as_array() {
            Some(values) => values.as_slice(),
            None => &[],
        },
        None => &[],
    }
}

/// The keys with their lines.
fn with_lines(
    alloc: Global,
    text: &str,
    paths: Vec<String>,
) -> Result<Vec<UnknownKey>, AllocError> {
    let mut unknown = Vec::new(alloc);
    for path in paths {
        unknown.push(UnknownKey { path, line: None })?;
    }
    if !unknown.is_empty() {
        find_lines(alloc, text, unknown.as_mut_slice())?;
    }
    Ok(unknown)
}

fn find_lines(alloc: Global, text: &str, unknown: &mut [UnknownKey]) -> Result<(), AllocError> {
    let mut inside = String::new(alloc);
    let mut number = 0u64;
    for line in text.split('\n') {
        number = number.saturating_add(1);
        let line = line.trim_start();
        if let Some(header) = header_on(alloc, line) {
            inside = format!(in alloc; "{header}.")?;
            note(unknown, &inside, number);
        } else if let Some(key) = key_on(alloc, line, b'=') {
            note(unknown, &format!(in alloc; "{inside}{key}.")?, number);
        }
    }
    Ok(())
}

/// Notes the line of each key that it belongs to, if the key has no line yet.
fn note(unknown: &mut [UnknownKey], path: &str, number: u64) {
    for key in unknown {
        let is_here = match path.strip_prefix(key.path.as_str()) {
            Some(rest) => rest.starts_with('.'),
            None => false,
        };
        if is_here && key.line.is_none() {
            key.line = Some(number);
        }
    }
}

/// The dotted key of a table header; None if the line is no header.
fn header_on(alloc: Global, line: &str) -> Option<String> {
    let inside = line.strip_prefix('[')?;
    let inside = inside.strip_prefix('[').unwrap_or(inside);
    key_on(alloc, inside.trim_start(), b']')
}

/// The dotted key at the front of a line, if the byte `end` follows it.
fn key_on(alloc: Global, line: &str, end: u8) -> Option<String> {
    let (key, rest) = dotted_key(alloc, line).ok()?;
    if rest.as_bytes().first() != Some(&end) {
        return None;
    }
    let mut path = String::new(alloc);
    for part in key.path.as_slice() {
        path.push_str(part).ok()?;
        path.push('.').ok()?;
    }
    path.push_str(&key.last).ok()?;
    Some(path)
}

/// Refuses a file that has unknown keys, with a message for the first one: `8 Key` and its line.
pub fn refuse_unknown(
    alloc: Global,
    unknown: Result<Vec<UnknownKey>, AllocError>,
) -> Result<(), Message> {
    let unknown = match unknown {
        Ok(unknown) => unknown,
        Err(refused) => return Err(Err(refused)),
    };
    match unknown.as_slice().first() {
        Some(key) => Err(format!(in alloc; "8 Key: {key}")),
        None => Ok(()),
    }
}
