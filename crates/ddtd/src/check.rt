//! `ddtd check FILE`: checks a configuration, the settings of a resolver or a server, or the keys of sites.

use crate::command_line::CheckArgs;
use crate::exit_status::ExitStatus;
use crate::input_file::{
    MOST_CONFIGURATION, MOST_SETTINGS, read, refuse_shared, too_large, with_path,
};
use crate::registering::registrar_of;
use crate::site_keys::{keys_in, load_keyed_sites};
use ddt_config::ServerConfig;
use ddt_daemon_text::{
    FileKind, Message, configuration_in, configuration_lines, good_lines, printable,
    server_settings_in, settings_in, settings_lines, table_of, text_of,
};
use std::alloc::{AllocError, Global};
use toml::Table;

/// Checks a file as settings, keys of sites or a configuration, by the keys at its top. For a good configuration,
/// prints its unknown keys, what it contains, and the number of its sites with keys if those are given too. For good
/// settings of a resolver, prints the warnings first.
pub fn check(rt: &HostRuntime, args: &CheckArgs<'_>) -> ExitStatus {
    match lines_of(rt, args) {
        Ok(lines) => print(rt, &lines),
        Err(why) => refuse(rt, why),
    }
}

/// The lines to print for a good file.
fn lines_of(rt: &HostRuntime, args: &CheckArgs<'_>) -> Result<Vec<String>, Message> {
    let bytes = read(rt, args.file, MOST_CONFIGURATION)?;
    match lines_in(rt, args, &bytes) {
        Ok(lines) => Ok(lines),
        Err(why) => Err(with_path(rt, args.file, why)),
    }
}

fn lines_in(rt: &HostRuntime, args: &CheckArgs<'_>, bytes: &[u8]) -> Result<Vec<String>, Message> {
    let alloc = rt.alloc();
    let text = text_of(alloc, bytes)?;
    let table = table_of(alloc, text)?;
    let kind = FileKind::of(&table);
    if kind.has_settings() && bytes.len() as u64 > MOST_SETTINGS {
        return Err(too_large(alloc, MOST_SETTINGS));
    }
    if args.keys.is_some() && kind != FileKind::Configuration {
        return Err(format!(in alloc; "keys go with a configuration"));
    }
    match kind {
        FileKind::Configuration => lines_of_configuration(rt, args, text, table),
        FileKind::ResolverSettings => lines_of_settings(alloc, args.file, text, &table),
        FileKind::ServerSettings => lines_of_server_settings(alloc, args.file, text, &table),
        FileKind::Keys => lines_of_keys(rt, args.file, text, &table),
    }
}

fn lines_of_configuration(
    rt: &HostRuntime,
    args: &CheckArgs<'_>,
    text: &str,
    table: Table,
) -> Result<Vec<String>, Message> {
    let loaded = configuration_in(rt.alloc(), text, table)?;
    let keyed = keyed_count(rt, args, &loaded.config)?;
    configuration_lines(rt.alloc(), args.file, &loaded, keyed).map_err(Err)
}

/// The number of sites of a configuration that have keys, if a file of keys is given.
fn keyed_count(
    rt: &HostRuntime,
    args: &CheckArgs<'_>,
    config: &ServerConfig,
) -> Result<Option<usize>, Message> {
    if args.keys.is_none() {
        return Ok(None);
    }
    let sites = load_keyed_sites(rt, args.keys, config)?;
    Ok(Some(registrar_of(rt.alloc(), sites)?.sites().len()))
}

fn lines_of_settings(
    alloc: Global,
    path: &str,
    text: &str,
    table: &Table,
) -> Result<Vec<String>, Message> {
    let settings = settings_in(alloc, text, table)?;
    settings_lines(alloc, path, &settings).map_err(Err)
}

fn lines_of_server_settings(
    alloc: Global,
    path: &str,
    text: &str,
    table: &Table,
) -> Result<Vec<String>, Message> {
    server_settings_in(alloc, text, table)?;
    good_lines(alloc, path).map_err(Err)
}

fn lines_of_keys(
    rt: &HostRuntime,
    path: &str,
    text: &str,
    table: &Table,
) -> Result<Vec<String>, Message> {
    refuse_shared(rt, path)?;
    keys_in(rt.alloc(), text, table)?;
    good_lines(rt.alloc(), path).map_err(Err)
}

fn print(rt: &HostRuntime, lines: &[String]) -> ExitStatus {
    for line in lines {
        let Ok(line) = printable(rt.alloc(), line) else {
            return refuse(rt, Err(AllocError));
        };
        if println!(rt; "{line}").is_err() {
            return ExitStatus::Refused;
        }
    }
    ExitStatus::Answered
}

/// Prints on standard error why the file is refused.
fn refuse(rt: &HostRuntime, why: Message) -> ExitStatus {
    let line = match why {
        Ok(text) => printable(rt.alloc(), &text),
        Err(refused) => Err(refused),
    };
    let _printed = match line {
        Ok(line) => eprintln!(rt; "{line}"),
        Err(_) => eprintln!(rt; "out of memory"),
    };
    ExitStatus::Refused
}
