//! Memory is refused to what reads, writes and seals configurations and settings: it comes whole or not at all, and the
//! next call gives it.
//!
//! `.ci/memory` runs each of these tests with each growth refused in turn.

use crate::comparison::{given, holds, same, twice};
use ddt_config::digest::{Counts, Seal, SealFault, check_seal, seal_in, seal_of, to_sealed_toml};
use ddt_config::settings::{
    RlocPrefix, ServerSettings, SettingsFault, from_table, parse_rloc_prefix,
};
use ddt_config::{
    ConfigFault, ServerConfig, from_table as config_from_table, from_toml, to_table, to_toml,
};
use ddt_examples::configurations::EAST;
use ddt_path::Locator;
use std::alloc::Global;
use std::process::Abort;
use std::test::Fail;

/// The seal of the text, whose digest another program computed.
const SEAL: Seal = Seal {
    counts: Counts {
        authorities: 1,
        children: 0,
        sites: 2,
    },
    digest: *b"\xe6\x80\x0e\xbc\xd3\xd0\x6d\xf7\x64\xf9\x8d\x5b\xcd\x72\xc4\x66\x65\x0d\x53\x09\x63\xcc\x7e\x5d\x0a\x3c\x61\x5e\x0b\xde\x72\x98",
};

/// It is the configuration of the text.
fn is_east(rt: &impl Abort, alloc: Global, config: &ServerConfig) -> Option<()> {
    same(
        rt,
        &to_toml(alloc, config).ok()?.as_str(),
        &EAST,
        &"the text",
    );
    Some(())
}

fn seals(rt: &impl Abort, alloc: Global, config: &ServerConfig) -> Option<()> {
    same(rt, &seal_of(alloc, config).ok()?, &SEAL, &"the seal");
    let checked = check_seal(alloc, Some(SEAL), config);
    same(
        rt,
        &given(rt, checked, &SealFault::Memory)?,
        &SEAL,
        &"the seal",
    );
    let text = to_sealed_toml(alloc, config).ok()?;
    let table = toml::table_from_str(alloc, &text).ok()?;
    same(rt, &seal_in(&table), &Ok(Some(SEAL)), &"the sealed text");
    Some(())
}

fn configurations(rt: &impl Abort, alloc: Global) -> Option<()> {
    let config = from_toml(alloc, EAST).ok()?;
    seals(rt, alloc, &config)?;
    let table = to_table(alloc, &config).ok()?;
    let read = config_from_table(alloc, table);
    is_east(rt, alloc, &given(rt, read, &ConfigFault::Memory)?)
}

#[test]
fn configurations_are_sealed_and_read_whole(rt: HostRuntime) -> Result<(), Fail> {
    twice(|| configurations(&rt, rt.alloc()))
}

const ROOT: Locator = Locator::V4(0xc000_0201);

const SETTINGS: &str =
    "roots = [\"192.0.2.1\"]\nlisten = [\"198.51.100.1\"]\nallow = [\"192.0.2.0/24\"]\n";

/// What was read; None where memory was refused, which must be its only fault.
fn read<T>(rt: &impl Abort, made: Result<T, SettingsFault>) -> Option<T> {
    match made {
        Ok(settings) => Some(settings),
        Err(fault) => {
            holds(rt, matches!(fault, SettingsFault::Memory), &"the fault");
            None
        }
    }
}

/// They cover the root.
fn cover(rt: &impl Abort, allow: &[RlocPrefix]) {
    same(rt, &allow.len(), &1, &"the prefixes");
    holds(
        rt,
        allow.iter().all(|prefix| prefix.covers(ROOT)),
        &"the root",
    );
}

fn settings(rt: &impl Abort, alloc: Global) -> Option<()> {
    let table = toml::table_from_str(alloc, SETTINGS).ok()?;
    let settings = read(rt, from_table(alloc, &table))?;
    same(
        rt,
        &settings.roots.as_slice(),
        &[ROOT].as_slice(),
        &"the roots",
    );
    cover(rt, settings.allow.as_slice());
    let settings = read(rt, ServerSettings::from_table(alloc, &table))?;
    cover(rt, settings.allow.as_slice());
    let prefix = parse_rloc_prefix(alloc, b"192.0.2.0/24").ok()?.ok()?;
    cover(rt, &[prefix]);
    Some(())
}

#[test]
fn settings_are_read_whole(rt: HostRuntime) -> Result<(), Fail> {
    twice(|| settings(&rt, rt.alloc()))
}
