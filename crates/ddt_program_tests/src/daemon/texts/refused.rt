//! Memory is refused to the texts of the daemon, and to what is read of its files: each comes whole or not at all, and
//! the next call gives it.
//!
//! `.ci/memory` runs each of these tests with each growth refused in turn.

use crate::comparison::{same, twice};
use ddt_config::settings::Settings;
use ddt_config::{ConfigFault, PlacedFault};
use ddt_daemon_text::{
    LoadedConfiguration, Message, StatisticsFormat, configuration_in, configuration_lines,
    configuration_of, fault_text, formatted, good_lines, not_added_text, printable,
    printable_lines, refuse_unknown, server_settings_in, server_settings_of, settings_in,
    settings_lines, settings_of, table_of, unknown_in_list, warnings_of,
};
use ddt_examples::configurations::EAST;
use ddt_path::{Locator, Prefix};
use ddt_registrar::NotAdded;
use std::alloc::Global;
use std::process::Abort;
use std::test::Fail;

fn is(rt: &impl Abort, text: &str, wanted: &str) {
    same(rt, &text, &wanted, &"the text");
}

/// It is a single line.
fn is_line(rt: &impl Abort, lines: &[String], wanted: &str) {
    same(rt, &lines.len(), &1, &"the lines");
    for line in lines {
        is(rt, line, wanted);
    }
}

/// What was read; None where memory was refused, which must be its only fault.
fn read<T>(rt: &impl Abort, made: Result<T, Message>) -> Option<T> {
    match made {
        Ok(found) => Some(found),
        Err(Ok(why)) => {
            is(rt, &why, "out of memory");
            None
        }
        Err(Err(_refused)) => None,
    }
}

// ---- texts

fn writes(rt: &impl Abort, alloc: Global) -> Option<()> {
    is(rt, &printable(alloc, "a\tb").ok()?, "a\\tb");
    is(rt, &printable_lines(alloc, "a\tb\n").ok()?, "a\\tb\n");
    is_line(rt, &good_lines(alloc, "keys.toml").ok()?, "keys.toml: good");
    let fault = PlacedFault::of_whole(ConfigFault::Shape);
    let text = fault_text(alloc, &fault).ok()?;
    is(rt, &text, "4 Shape: no server has such a configuration");
    Some(())
}

fn formats(rt: &impl Abort, alloc: Global) -> Option<()> {
    let json = formatted(alloc, "num.received=5\n", StatisticsFormat::Json).ok()?;
    is(rt, &json, "{\"num.received\":5}\n");
    let site = Prefix::block(0, Locator::V4(0x0a01_0200), 24).ok()?;
    let text = not_added_text(alloc, site, NotAdded::Full).ok()?;
    is(rt, &text, "[0]10.1.2.0/24 is one site with keys too many");
    Some(())
}

fn texts(rt: &impl Abort, alloc: Global) -> Option<()> {
    writes(rt, alloc)?;
    formats(rt, alloc)
}

#[test]
fn texts_are_written_whole(rt: HostRuntime) -> Result<(), Fail> {
    twice(|| texts(&rt, rt.alloc()))
}

// ---- files

const SETTINGS: &str =
    "roots = [\"192.0.2.1\"]\nlisten = [\"198.51.100.1\"]\nallow = [\"192.0.2.0/24\"]\n";

const ALLOW: &str = "allow = [\"192.0.2.0/24\"]\n";

const GOOD: &str = "east.toml: good: ms east, 1 authority, 0 children, 2 sites, no digest";

const WARNED: [&str; 2] = ["a.toml: allow covers a root: 192.0.2.1", "a.toml: good"];

fn is_east(rt: &impl Abort, alloc: Global, loaded: &LoadedConfiguration) -> Option<()> {
    is_line(
        rt,
        &configuration_lines(alloc, "east.toml", loaded, None).ok()?,
        GOOD,
    );
    Some(())
}

fn configurations(rt: &impl Abort, alloc: Global) -> Option<()> {
    let loaded = read(rt, configuration_of(alloc, EAST.as_bytes()))?;
    is_east(rt, alloc, &loaded)?;
    let table = read(rt, table_of(alloc, EAST))?;
    let loaded = read(rt, configuration_in(alloc, EAST, table))?;
    is_east(rt, alloc, &loaded)
}

/// The root may ask, and that is the one warning.
fn is_warned(rt: &impl Abort, alloc: Global, settings: &Settings) -> Option<()> {
    let warnings = warnings_of(alloc, settings).ok()?;
    same(rt, &warnings.len(), &1, &"the warnings");
    let lines = settings_lines(alloc, "a.toml", settings).ok()?;
    same(rt, &lines.len(), &2, &"the lines");
    for (line, wanted) in lines.iter().zip(WARNED) {
        is(rt, line, wanted);
    }
    Some(())
}

fn settings(rt: &impl Abort, alloc: Global) -> Option<()> {
    let settings = read(rt, settings_of(alloc, SETTINGS.as_bytes()))?;
    is_warned(rt, alloc, &settings)?;
    let table = read(rt, table_of(alloc, SETTINGS))?;
    let settings = read(rt, settings_in(alloc, SETTINGS, &table))?;
    is_warned(rt, alloc, &settings)
}

fn server_settings(rt: &impl Abort, alloc: Global) -> Option<()> {
    let settings = read(rt, server_settings_of(alloc, ALLOW.as_bytes()))?;
    same(rt, &settings.allow.as_slice().len(), &1, &"the prefixes");
    let table = read(rt, table_of(alloc, ALLOW))?;
    let settings = read(rt, server_settings_in(alloc, ALLOW, &table))?;
    same(rt, &settings.allow.as_slice().len(), &1, &"the prefixes");
    Some(())
}

/// The key `secert` isn't known, in line 2.
fn unknown(rt: &impl Abort, alloc: Global) -> Option<()> {
    let text = "[[key]]\nsecert = 1\n";
    let table = read(rt, table_of(alloc, text))?;
    let unknown = unknown_in_list(alloc, text, &table, "key", &["secret"]);
    match refuse_unknown(alloc, unknown) {
        Err(Ok(why)) => {
            is(rt, &why, "8 Key: line 2: unknown key key.secert");
            Some(())
        }
        _ => None,
    }
}

fn files(rt: &impl Abort, alloc: Global) -> Option<()> {
    configurations(rt, alloc)?;
    settings(rt, alloc)?;
    server_settings(rt, alloc)?;
    unknown(rt, alloc)
}

#[test]
fn files_are_read_whole(rt: HostRuntime) -> Result<(), Fail> {
    twice(|| files(&rt, rt.alloc()))
}
