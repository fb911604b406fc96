//! What is wrong with a configuration, with settings, or with a site, in words.

use crate::texts::prefix_text;
use ddt_config::digest::{Key as SealKey, SealFault};
use ddt_config::settings::{Key as SettingsKey, SettingsFault};
use ddt_config::{ConfigFault, Key, Place, PlacedFault};
use ddt_path::Prefix;
use ddt_registrar::NotAdded;
use ddt_text::parse_locator;
use std::alloc::{AllocError, Global};
use std::{fmt, str};

/// The place of a table in words, each part with its number, and a colon; nothing for the top table.
#[derive(Clone, Copy)]
struct Before(Place);

impl fmt::Display for Before {
    fn fmt<W: fmt::Write>(&self, f: &mut fmt::Formatter<W>) -> fmt::Result {
        match self.0 {
            Place::Top => Ok(()),
            Place::Authority(authority) => write!(f, "authority {authority}: "),
            Place::Child(authority, child) => write!(f, "authority {authority}, child {child}: "),
            Place::Site(authority, site) => write!(f, "authority {authority}, site {site}: "),
        }
    }
}

/// What is wrong with a configuration, in words: the table, the key, and the text if there is one.
pub fn fault_text(alloc: Global, placed: &PlacedFault) -> Result<String, AllocError> {
    let (fault, table) = (placed.fault, Before(placed.place));
    match fault {
        ConfigFault::Toml => format!(in alloc; "{fault}"),
        ConfigFault::Field(key) => {
            format!(in alloc; "{fault}: {table}{} {}", key.text(), wrong_kind_text(key))
        }
        ConfigFault::Value(key) => {
            let verb = match key {
                Key::Locators | Key::Etrs => "has",
                _ => "is",
            };
            format!(in alloc;
                "{fault}: {table}{} {verb} {}",
                key.text(),
                wrong_text(placed)
            )
        }
        ConfigFault::Shape => format!(in alloc; "{fault}: no server has such a configuration"),
        ConfigFault::Memory => format!(in alloc; "{fault}: out of memory"),
    }
}

/// What is wrong with a key that is missing, or whose value is of another kind. An array of tables may be missing.
fn wrong_kind_text(key: Key) -> &'static str {
    match key {
        Key::Name | Key::Kind | Key::Prefix => "is missing, or no text",
        Key::Locators | Key::Etrs => "is missing, or no array of texts",
        Key::Authority | Key::Child | Key::Site => "is no array of tables",
    }
}

/// The text at fault.
fn wrong_text(placed: &PlacedFault) -> &str {
    match &placed.text {
        Some(text) if !text.is_empty() => text.as_str(),
        _ => "an empty text",
    }
}

/// How a configuration isn't what its seal says, in words.
pub(crate) fn seal_text(alloc: Global, fault: SealFault) -> Result<String, AllocError> {
    match fault {
        SealFault::Missing(key) => format!(in alloc; "6 Seal: {} is missing", key.text()),
        SealFault::Value(key) if key == SealKey::Digest => {
            format!(in alloc; "6 Seal: {} isn't 64 hexadecimal digits", key.text())
        }
        SealFault::Value(key) => format!(in alloc; "6 Seal: {} is no count", key.text()),
        SealFault::Count { key, said, found } => {
            format!(in alloc; "6 Seal: {}: {found} of {said}", key.text())
        }
        SealFault::Digest => { format!(in alloc; "6 Seal: the digest is of another configuration") }
        SealFault::Memory => format!(in alloc; "5 Memory: out of memory"),
    }
}

/// What is wrong with settings, in words.
pub(crate) fn settings_text(alloc: Global, fault: &SettingsFault) -> Result<String, AllocError> {
    match fault {
        SettingsFault::Toml => format!(in alloc; "{fault}"),
        SettingsFault::Field(key) => {
            format!(in alloc; "{fault}: {} is missing, or no array of texts", key.text())
        }
        SettingsFault::Value(key, value) => {
            let value = str::from_utf8(value.as_slice()).unwrap_or("");
            if *key == SettingsKey::Allow && parse_locator(value.as_bytes()).is_ok() {
                let length = if value.contains(':') { 128 } else { 32 };
                return format!(in alloc;
                    "{fault}: allow has the address {value}: write {value}/{length}"
                );
            }
            format!(in alloc; "{fault}: {} has {value}", key.text())
        }
        SettingsFault::Count(key) => {
            let most = if *key == SettingsKey::Roots {
                " to 8"
            } else {
                ""
            };
            format!(in alloc; "{fault}: {} wants 1{most}", key.text())
        }
        SettingsFault::Wildcard => format!(in alloc; "{fault}: listen has a wildcard"),
        SettingsFault::Twice => format!(in alloc; "{fault}: listen has a locator twice"),
        SettingsFault::Memory => format!(in alloc; "{fault}: out of memory"),
    }
}

/// Why a site isn't added to those whose ETRs register, in words.
pub fn not_added_text(
    alloc: Global,
    prefix: Prefix,
    fault: NotAdded,
) -> Result<String, AllocError> {
    let prefix = prefix_text(alloc, prefix)?;
    match fault {
        NotAdded::Twice => format!(in alloc; "{prefix} is a site of two authorities, and has keys"),
        NotAdded::Full => format!(in alloc; "{prefix} is one site with keys too many"),
        NotAdded::Memory => format!(in alloc; "out of memory"),
    }
}
