//! The lines that `ddtd check` prints for a good file.

use crate::configuration_file::LoadedConfiguration;
use crate::settings_warnings::warnings_of;
use crate::texts::{Message, name_text, role_text};
use ddt_config::settings::Settings;
use std::alloc::{AllocError, Global};

/// The line for a good file of a server's settings or of keys.
pub fn good_lines(alloc: Global, path: &str) -> Result<Vec<String>, AllocError> {
    let mut lines = Vec::new(alloc);
    lines.push(good_line(alloc, path)?)?;
    Ok(lines)
}

fn good_line(alloc: Global, path: &str) -> Message {
    format!(in alloc; "{path}: good")
}

/// The lines for good settings of a resolver: their warnings first.
pub fn settings_lines(
    alloc: Global,
    path: &str,
    settings: &Settings,
) -> Result<Vec<String>, AllocError> {
    let mut lines = Vec::new(alloc);
    for warning in &warnings_of(alloc, settings)? {
        lines.push(format!(in alloc; "{path}: {warning}")?)?;
    }
    lines.push(good_line(alloc, path)?)?;
    Ok(lines)
}

/// The lines for a good configuration: its unknown keys, and then what it contains. `keyed` is the number of its sites
/// with keys, if there is a file of keys.
pub fn configuration_lines(
    alloc: Global,
    path: &str,
    loaded: &LoadedConfiguration,
    keyed: Option<usize>,
) -> Result<Vec<String>, AllocError> {
    let mut lines = Vec::new(alloc);
    for key in loaded.unknown.as_slice() {
        lines.push(format!(in alloc; "{path}: {key}")?)?;
    }
    lines.push(summary_line(alloc, path, loaded, keyed)?)?;
    Ok(lines)
}

fn summary_line(
    alloc: Global,
    path: &str,
    loaded: &LoadedConfiguration,
    keyed: Option<usize>,
) -> Message {
    let role = role_text(loaded.config.role);
    let name = name_text(&loaded.config.name);
    let summary = loaded.summary;
    match keyed {
        Some(keyed) => {
            format!(in alloc; "{path}: good: {role} {name}, {summary}, {keyed} with keys")
        }
        None => format!(in alloc; "{path}: good: {role} {name}, {summary}"),
    }
}
