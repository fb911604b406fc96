//! `ddtplan warn REGISTER`: what an accepted register has that is mostly a mistake.

use crate::foreign::{foreign_groups, foreign_zones};
use crate::inputs::{Failure, accepted_in, bytes_at, no_memory, print};
use ddt_check::Accepted;
use ddt_path::Locator;
use ddt_plan_commands::{ExitStatus, WarnAsked};
use ddt_review::files::{OldFile, truncated_end, warning_lines};
use ddt_review::warnings::{Kind, Warning, warnings};
use ddt_text::parse_locator;
use std::alloc::AllocError;

/// The kind of warnings that is of the whole file, beside those of rows.
const TRUNCATED: &str = "truncated-file";

/// Prints a line for each warning of a kind that isn't turned off.
pub fn warn(rt: &HostRuntime, asked: &WarnAsked<'_>) -> Result<ExitStatus, Failure> {
    let choice = Choice::of(rt, asked)?;
    let bytes = bytes_at(rt, asked.register)?;
    let text = text_of(rt, asked, &choice, &bytes)?;
    let end = if text.is_empty() {
        ExitStatus::Answered
    } else {
        ExitStatus::Different
    };
    Ok(print(rt, &text, end))
}

/// What the options choose.
#[derive(Drop)]
struct Choice {
    /// The kinds that are turned off.
    off: Vec<Kind>,
    /// The addresses of Map-Resolvers.
    resolvers: Vec<Locator>,
}

impl Choice {
    /// Reads the options. Refused if a name or an address is none.
    fn of(rt: &HostRuntime, asked: &WarnAsked<'_>) -> Result<Choice, Failure> {
        let off = kinds_off(rt, asked.off.as_slice())?;
        let resolvers = locators_in(rt, asked.resolvers.as_slice())?;
        Ok(Choice { off, resolvers })
    }
}

/// Returns the lines of the chosen warnings of the register with these bytes.
fn text_of(
    rt: &HostRuntime,
    asked: &WarnAsked<'_>,
    choice: &Choice,
    bytes: &[u8],
) -> Result<Vec<u8>, Failure> {
    let told = warnings_in(rt, asked, choice, bytes)?;
    let mut text = warning_lines(rt.alloc(), asked.register, bytes, &told).map_err(no_memory)?;
    match push_end(rt, asked, bytes, &mut text) {
        Ok(()) => Ok(text),
        Err(why) => Err(why),
    }
}

/// Returns the chosen warnings of the register with these bytes.
fn warnings_in(
    rt: &HostRuntime,
    asked: &WarnAsked<'_>,
    choice: &Choice,
    bytes: &[u8],
) -> Result<Vec<Warning>, Failure> {
    let accepted = accepted_in(rt, asked.register, bytes)?;
    let mut told = warnings(rt.alloc(), &accepted, &choice.resolvers).map_err(no_memory)?;
    told.retain(|warning| !choice.off.as_slice().contains(&warning.finding.kind()));
    match leave_out_foreign(rt, asked, &accepted, &mut told) {
        Ok(()) => Ok(told),
        Err(why) => Err(why),
    }
}

/// Leaves out what is told of the neighbours of zones that others serve.
fn leave_out_foreign(
    rt: &HostRuntime,
    asked: &WarnAsked<'_>,
    accepted: &Accepted,
    told: &mut Vec<Warning>,
) -> Result<(), Failure> {
    let foreign = foreign_groups(rt, &[accepted], asked.foreign.as_slice())?;
    let zones = foreign_zones(rt.alloc(), accepted, &foreign).map_err(no_memory)?;
    told.retain(|warning| !is_of_neighbours(warning.finding.kind())
        || !zones.contains(&warning.row));
    Ok(())
}

/// Whether the warnings of a kind say how a zone differs from those around it, as one that others serve may.
fn is_of_neighbours(kind: Kind) -> bool {
    matches!(
        kind,
        Kind::NodeZoneWithoutChild | Kind::ZoneBetween | Kind::ZoneOfStrangeGroup
    )
}

/// Appends the line of a file that seems to be truncated, unless that kind is turned off.
fn push_end(
    rt: &HostRuntime,
    asked: &WarnAsked<'_>,
    bytes: &[u8],
    text: &mut Vec<u8>,
) -> Result<(), Failure> {
    if asked.off.as_slice().contains(&TRUNCATED) {
        return Ok(());
    }
    match asked.old {
        Some(path) => {
            let before = bytes_at(rt, path)?;
            let old = OldFile {
                path,
                bytes: &before,
            };
            push_end_beside(asked.register, Some(old), bytes, text).map_err(no_memory)
        }
        None => push_end_beside(asked.register, None, bytes, text).map_err(no_memory),
    }
}

/// Appends the line of a file that seems to be truncated, compared with an old one if there is one.
fn push_end_beside(
    path: &str,
    old: Option<OldFile<'_>>,
    bytes: &[u8],
    text: &mut Vec<u8>,
) -> Result<(), AllocError> {
    let alloc = *text.allocator();
    let Some(end) = truncated_end(alloc, old, bytes)? else {
        return Ok(());
    };
    let (line, reason) = (end.line, end.reason);
    let told = format!(in alloc; "{path}:{line}: {TRUNCATED}: {reason}\n")?;
    text.extend_from_slice(told.as_bytes())
}

/// The locators that words spell.
fn locators_in(rt: &HostRuntime, words: &[&str]) -> Result<Vec<Locator>, Failure> {
    let mut locators = Vec::new(rt.alloc());
    for word in words {
        match parse_locator(word.as_bytes()) {
            Ok(locator) => locators.push(locator).map_err(|_| Err(AllocError))?,
            Err(fault) => return Err(format!(in rt.alloc(); "bad address {fault}")),
        }
    }
    Ok(locators)
}

/// The kinds of these names.
fn kinds_off(rt: &HostRuntime, names: &[&str]) -> Result<Vec<Kind>, Failure> {
    let mut kinds = Vec::new(rt.alloc());
    for name in names {
        match Kind::of(name) {
            Some(kind) => kinds.push(kind).map_err(|_| Err(AllocError))?,
            None if *name == TRUNCATED => {}
            None => return Err(format!(in rt.alloc(); "no kind of warnings is named {name}")),
        }
    }
    Ok(kinds)
}
