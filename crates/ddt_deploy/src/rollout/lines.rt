//! The lines of the steps.

use crate::rollout::stage::Stage;
use crate::rollout::steps::RolloutStep;
use ddt_check::Accepted;
use ddt_path::{Locator, Name};
use ddt_text::write_locator;
use std::alloc::{AllocError, Global};

/// Returns the lines of the steps: each with its number, from 1, and the groups that load and those that stop. A line
/// says how long to wait before a step, until no cache leads to what it removes. Before the first wait a line has the
/// root's locators, if resolvers have to learn others (RFC 8111, section 6.4.1).
pub fn rollout_lines(
    alloc: Global,
    before: &Accepted,
    after: &Accepted,
    steps: &[RolloutStep],
) -> Result<Vec<u8>, AllocError> {
    let mut text = Vec::new(alloc);
    let (earlier, later) = (before.roots(), after.roots());
    let mut number = 0u32;
    let mut waited = 0u32;
    for step in steps {
        if step.waits > waited {
            if waited == 0 && earlier != later {
                push_roots(&mut text, later.as_slice())?;
            }
            push_wait(&mut text, step.waits.saturating_sub(waited))?;
            waited = step.waits;
        }
        number = number.saturating_add(1);
        push_groups(&mut text, number, "load", &step.loads)?;
        push_groups(&mut text, number, "stop", &step.stops)?;
    }
    Ok(text)
}

/// Appends the line of the root's locators.
fn push_roots(text: &mut Vec<u8>, roots: &[Locator]) -> Result<(), AllocError> {
    text.extend_from_slice(b"resolvers\troots")?;
    let mut parting = b'\t';
    for locator in roots {
        text.push(parting)?;
        write_locator(text, *locator)?;
        parting = b';';
    }
    text.extend_from_slice(b"\n")
}

/// Appends the line of `waits` waits, of a day and two seconds each.
fn push_wait(text: &mut Vec<u8>, waits: u32) -> Result<(), AllocError> {
    let days = if waits == 1 { "day" } else { "days" };
    let seconds = waits.saturating_mul(2);
    let line = format!(in *text.allocator(); "wait\t{waits} {days} {seconds} seconds\n")?;
    text.extend_from_slice(line.as_bytes())
}

/// Appends a line for each group of a step.
fn push_groups(
    text: &mut Vec<u8>,
    number: u32,
    word: &str,
    groups: &[Name],
) -> Result<(), AllocError> {
    for group in groups {
        let front = format!(in *text.allocator(); "step\t{number}\t{word}\t")?;
        text.extend_from_slice(front.as_bytes())?;
        text.extend_from_slice(group.as_bytes())?;
        text.push(b'\n')?;
    }
    Ok(())
}
