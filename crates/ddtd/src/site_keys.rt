//! Loading the keys under which the ETRs of sites register.

use crate::input_file::{MOST_KEYS, read_secret, with_path};
use ddt_config::ServerConfig;
use ddt_daemon_text::{Message, prefix_text, refuse_unknown, table_of, text_of, unknown_in_list};
use ddt_map_server::keys::{KeysFault, Member, SiteKey, keyed_sites, read_keys};
use ddt_path::Listed;
use ddt_registrar::KeyedSite;
use std::alloc::{AllocError, Global};
use toml::Table;

/// The sites of a configuration that have keys, from the file of keys; none without a file.
pub fn load_keyed_sites(
    rt: &HostRuntime,
    path: Option<&str>,
    config: &ServerConfig,
) -> Result<Vec<KeyedSite>, Message> {
    let Some(path) = path else {
        return Ok(Vec::new(rt.alloc()));
    };
    let bytes = read_secret(rt, path, MOST_KEYS)?;
    match sites_of(rt.alloc(), &bytes, config) {
        Ok(sites) => Ok(sites),
        Err(why) => Err(with_path(rt, path, why)),
    }
}

fn sites_of(alloc: Global, bytes: &[u8], config: &ServerConfig) -> Result<Vec<KeyedSite>, Message> {
    let text = text_of(alloc, bytes)?;
    let keys = keys_in(alloc, text, &table_of(alloc, text)?)?;
    match keyed_sites(alloc, config, keys.as_slice()) {
        Ok(sites) => Ok(sites.into_vec()),
        Err(fault) => Err(keys_text(alloc, fault)),
    }
}

/// The keys in a text and its TOML table. Refuses an unknown key of the table.
pub fn keys_in(alloc: Global, text: &str, table: &Table) -> Result<Listed<SiteKey>, Message> {
    let list = Member::Key.text();
    refuse_unknown(
        alloc,
        unknown_in_list(alloc, text, table, list, &known_members()),
    )?;
    match read_keys(alloc, table) {
        Ok(keys) => Ok(keys),
        Err(fault) => Err(keys_text(alloc, fault)),
    }
}

/// The members of each key in the file.
fn known_members() -> [&'static str; 8] {
    [
        Member::Prefix.text(),
        Member::AcceptMoreSpecifics.text(),
        Member::Id.text(),
        Member::Algorithm.text(),
        Member::Secret.text(),
        Member::SecretHex.text(),
        Member::Replay.text(),
        Member::StaticEtrs.text(),
    ]
}

/// The message for a fault of keys.
fn keys_text(alloc: Global, fault: KeysFault) -> Result<String, AllocError> {
    match fault {
        KeysFault::Toml => format!(in alloc; "{fault}"),
        KeysFault::Field(member) => {
            let key = member.text();
            format!(in alloc; "{fault}: {key} is missing, or its value is of another kind")
        }
        KeysFault::Value(member) => {
            format!(in alloc; "{fault}: the value of {} isn't of its form", member.text())
        }
        KeysFault::Secrets => format!(in alloc; "{fault}: a key has secret and secret_hex"),
        KeysFault::NoSite(prefix) => {
            let prefix = prefix_text(alloc, prefix)?;
            format!(in alloc; "{fault}: {prefix} is no site of the configuration")
        }
        KeysFault::Disagree(prefix) => {
            let prefix = prefix_text(alloc, prefix)?;
            format!(in alloc; "{fault}: keys of a site of {prefix} have two values of static_etrs")
        }
        KeysFault::Twice(prefix) => {
            let prefix = prefix_text(alloc, prefix)?;
            format!(in alloc; "{fault}: a site of {prefix} has an id and an algorithm twice")
        }
        KeysFault::Memory => format!(in alloc; "{fault}: out of memory"),
    }
}
