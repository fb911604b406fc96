//! The line of an outcome.

ghost use Rattle.std.specs.Prelude.{◌≡◌, ◌++◌, IfOk, OnOk};
ghost use Rattle.ddt_text.specs.Written.{written_prefix};
ghost use Rattle.ddt_lines.specs.Lines.{ended, outcome_text, spaced};

use crate::text::{push_locators, push_text};
use ddt_path::{LocatorSet, Outcome, Prefix};
use ddt_text::write_prefix;
use std::alloc::{AllocError, Global};

/// The line of an outcome: its text and a line feed. Fails only if out of memory.
pub fn outcome_line(alloc: Global, outcome: &Outcome) -> Result<Vec<u8>, AllocError>
    ensures { IfOk result (λ line. line.items ≡ ended (outcome_text outcome.now)) }
{
    let mut line = Vec::new(alloc);
    push_outcome(&mut line, outcome)?;
    line.push(b'\n')?;
    Ok(line)
}

/// Appends `registered PREFIX LOCATORS`, `not-registered PREFIX LOCATORS` or `hole PREFIX`. Fails only if out of memory.
pub fn push_outcome(line: &mut Vec<u8>, outcome: &Outcome) -> Result<(), AllocError>
    ensures { OnOk result (line.new.items ≡ line.old.items ++ outcome_text outcome.now) }
{
    match outcome {
        Outcome::Registered { prefix, servers } => push_served(
            line,
            "registered ",
            *prefix,
            servers,
        ),
        Outcome::NotRegistered { prefix, servers } => push_served(
            line,
            "not-registered ",
            *prefix,
            servers,
        ),
        Outcome::Hole { prefix } => {
            push_text(line, "hole ")?;
            write_prefix(line, *prefix)
        }
    }
}

/// Appends a word, the prefix, and each server behind a blank.
fn push_served(
    line: &mut Vec<u8>,
    word: &str,
    prefix: Prefix,
    servers: &LocatorSet,
) -> Result<(), AllocError>
    ensures { OnOk result (line.new.items
        ≡ line.old.items ++ (word.now ++ written_prefix prefix ++ spaced servers.now)) }
{
    push_text(line, word)?;
    write_prefix(line, prefix)?;
    push_locators(line, servers.as_slice())
}
