//! The formats in which `ddtd tell` prints a daemon's counts: lines, JSON and Prometheus.

use serde_json::{Map, Value};
use std::alloc::{AllocError, Global};

/// A format of counts.
#[derive(Clone, Copy, PartialEq, Eq)]
pub enum StatisticsFormat {
    /// A line `name=value` for each count.
    Lines,
    /// One JSON object, with a member for each count.
    Json,
    /// Prometheus's text format, with a metric for each count: `ddtd_num_received 5`.
    Prometheus,
}

impl StatisticsFormat {
    /// The format with this name; lines for any other name.
    pub fn of(name: &str) -> StatisticsFormat {
        match name {
            "json" => StatisticsFormat::Json,
            "prometheus" => StatisticsFormat::Prometheus,
            _ => StatisticsFormat::Lines,
        }
    }
}

/// Lines `name=value` in a format. JSON and Prometheus leave out any other line.
pub fn formatted(
    alloc: Global,
    lines: &str,
    format: StatisticsFormat,
) -> Result<String, AllocError> {
    match format {
        StatisticsFormat::Lines => String::from_str(alloc, lines),
        StatisticsFormat::Json => json_of(alloc, lines),
        StatisticsFormat::Prometheus => metrics_of(alloc, lines),
    }
}

/// The name and value of a line; None if it has no count.
fn count_in(line: &str) -> Option<(&str, u64)> {
    let (name, value) = line.split_once('=')?;
    Some((name, value.parse::<u64>().ok()?))
}

fn json_of(alloc: Global, lines: &str) -> Result<String, AllocError> {
    let mut counts = Map::new(alloc);
    for line in lines.lines() {
        if let Some((name, value)) = count_in(line) {
            counts.insert(String::from_str(alloc, name)?, Value::from(value))?;
        }
    }
    let mut text = Value::Object(counts).to_string(alloc)?;
    text.push('\n')?;
    Ok(text)
}

fn metrics_of(alloc: Global, lines: &str) -> Result<String, AllocError> {
    let mut text = String::new(alloc);
    for line in lines.lines() {
        if let Some((name, value)) = count_in(line) {
            text.push_str(&metric(alloc, name, value)?)?;
        }
    }
    Ok(text)
}

/// The lines of a metric. A count that begins with `num.` only grows while the daemon runs.
fn metric(alloc: Global, name: &str, value: u64) -> Result<String, AllocError> {
    let kind = if name.starts_with("num.") {
        "counter"
    } else {
        "gauge"
    };
    let name = format!(in alloc; "ddtd_{name}")?.replace(alloc, '.', "_")?;
    format!(in alloc; "# TYPE {name} {kind}\n{name} {value}\n")
}
