//! A block, a change and counts as JSON objects, each a line. Each fails only if out of memory.

ghost use Rattle.std.specs.Prelude.{◌≡◌, IfOk, IsUtf8, false};
ghost use Rattle.serde_json.specs.Data.{string};
ghost use Rattle.serde_json.specs.View.{view, items_view};
ghost use Rattle.serde_json.specs.Written.{compact_text, has_float};
ghost use Rattle.ddt_lines.specs.Lines.{ended};
ghost use Rattle.ddt_plan_commands.specs.Objects.{
  block_data,
  cache_data,
  change_counts_data,
  change_data,
  counts_data,
  group_data,
  outcome_data,
  prefix_data,
  server_data,
  server_items,
};

use crate::lines::kind_word;
use ddt_path::{Locator, LocatorSet, Name, Outcome, Prefix};
use ddt_plan::{Block, Change, ChangeCounts, GroupChange, OutcomeCounts};
use ddt_text::{write_locator, write_prefix};
use serde_json::{Value, json};
use std::alloc::{AllocError, Global};

/// The line of a block: its prefix and its outcome.
#[tactic(auto, using(crate::proofs::FloatLemmas::no_floats))]
pub(crate) fn block_object(alloc: Global, block: &Block) -> Result<Vec<u8>, AllocError>
    ensures { IfOk result (λ line. line.items ≡ ended (compact_text (block_data block.now))) }
{
    line_of(alloc, block_value(alloc, block)?)
}

fn block_value(alloc: Global, block: &Block) -> Result<Value, AllocError>
    ensures { IfOk result (λ v. view v ≡ block_data block.now) }
{
    json!(in alloc; {
        "block": prefix_value(alloc, block.prefix)?,
        "outcome": outcome_value(alloc, &block.outcome)?
    })
}

/// The line of a change: its prefix, the outcome before and the outcome after.
#[tactic(auto, using(crate::proofs::FloatLemmas::no_floats))]
pub(crate) fn change_object(alloc: Global, change: &Change) -> Result<Vec<u8>, AllocError>
    ensures { IfOk result (λ line. line.items ≡ ended (compact_text (change_data change.now))) }
{
    line_of(alloc, change_value(alloc, change)?)
}

fn change_value(alloc: Global, change: &Change) -> Result<Value, AllocError>
    ensures { IfOk result (λ v. view v ≡ change_data change.now) }
{
    json!(in alloc; {
        "block": prefix_value(alloc, change.prefix)?,
        "before": outcome_value(alloc, &change.before)?,
        "after": outcome_value(alloc, &change.after)?
    })
}

/// The line of how many blocks there are of each kind.
pub(crate) fn counts_object(alloc: Global, counts: OutcomeCounts) -> Result<Vec<u8>, AllocError>
    ensures { IfOk result (λ line. line.items ≡ ended (compact_text (counts_data counts))) }
{
    line_of(alloc, counts_value(alloc, counts)?)
}

/// The line of how many changed blocks there were of each kind, and how many there are now.
pub(crate) fn change_counts_object(
    alloc: Global,
    counts: ChangeCounts,
    groups: usize,
) -> Result<Vec<u8>, AllocError>
    ensures { IfOk result (λ line. line.items ≡ ended (compact_text (change_counts_data counts groups))) }
{
    line_of(alloc, change_counts_value(alloc, counts, groups)?)
}

fn change_counts_value(
    alloc: Global,
    counts: ChangeCounts,
    groups: usize,
) -> Result<Value, AllocError>
    ensures { IfOk result (λ v. view v ≡ change_counts_data counts groups) }
{
    json!(in alloc; {
        "before": counts_value(alloc, counts.before)?,
        "after": counts_value(alloc, counts.after)?,
        "groups": groups
    })
}

/// The line of a group whose configuration changes.
pub(crate) fn group_object(alloc: Global, change: &GroupChange) -> Result<Vec<u8>, AllocError>
    ensures { IfOk result (λ line. line.items ≡ ended (compact_text (group_data change.now))) }
{
    line_of(alloc, group_value(alloc, change)?)
}

fn group_value(alloc: Global, change: &GroupChange) -> Result<Value, AllocError>
    ensures { IfOk result (λ v. view v ≡ group_data change.now) }
{
    json!(in alloc; {
        "group": name_value(alloc, change.name)?,
        "configuration": kind_word(change.kind)
    })
}

/// The line of how many seconds caches hold something.
pub(crate) fn cache_object(alloc: Global, held: &str, seconds: u64) -> Result<Vec<u8>, AllocError>
    ensures { IfOk result (λ line. line.items ≡ ended (compact_text (cache_data held.now seconds))) }
{
    line_of(alloc, cache_value(alloc, held, seconds)?)
}

fn cache_value(alloc: Global, held: &str, seconds: u64) -> Result<Value, AllocError>
    ensures { IfOk result (λ v. view v ≡ cache_data held.now seconds) }
{
    json!(in alloc; {"caches": held, "seconds": seconds})
}

/// The kind, the prefix and the servers of an outcome; a hole has no servers.
fn outcome_value(alloc: Global, outcome: &Outcome) -> Result<Value, AllocError>
    ensures { IfOk result (λ v. view v ≡ outcome_data outcome.now) }
{
    let (kind, prefix, servers) = match outcome {
        Outcome::Registered { prefix, servers } => ("registered", *prefix, *servers),
        Outcome::NotRegistered { prefix, servers } => ("not-registered", *prefix, *servers),
        Outcome::Hole { prefix } => ("hole", *prefix, LocatorSet::none()),
    };
    json!(in alloc; {
        "kind": kind,
        "prefix": prefix_value(alloc, prefix)?,
        "servers": server_values(alloc, servers.as_slice())?
    })
}

/// How many there are of each kind.
fn counts_value(alloc: Global, counts: OutcomeCounts) -> Result<Value, AllocError>
    ensures { IfOk result (λ v. view v ≡ counts_data counts) }
{
    json!(in alloc; {
        "hole": counts.holes,
        "not-registered": counts.not_registered,
        "registered": counts.registered
    })
}

pub(crate) fn prefix_value(alloc: Global, prefix: Prefix) -> Result<Value, AllocError>
    ensures { IfOk result (λ v. view v ≡ prefix_data prefix) }
{
    let _form = prefix.form();
    let mut text = Vec::new(alloc);
    write_prefix(&mut text, prefix)?;
    Ok(string_value(text))
}

#[tactic(auto, using(ddt_text::specs::laws::Ascii::utf8_name))]
pub(crate) fn name_value(alloc: Global, name: Name) -> Result<Value, AllocError>
    ensures { IfOk result (λ v. view v ≡ string name) }
{
    let text = Vec::from_slice(alloc, name.as_bytes())?;
    Ok(string_value(text))
}

pub(crate) fn server_values(alloc: Global, servers: &[Locator]) -> Result<Vec<Value>, AllocError>
    ensures { IfOk result (λ values. items_view values.items ≡ server_items servers.now) }
{
    let mut values = Vec::new(alloc);
    for server in servers {
        values.push(server_value(alloc, *server)?)?;
    }
    Ok(values)
}

#[tactic(auto, using(ddt_text::specs::laws::Ascii::utf8_locator))]
fn server_value(alloc: Global, server: Locator) -> Result<Value, AllocError>
    ensures { IfOk result (λ v. view v ≡ server_data server) }
{
    let mut text = Vec::new(alloc);
    write_locator(&mut text, server)?;
    Ok(string_value(text))
}

fn string_value(text: Vec<u8>) -> Value
    requires { IsUtf8 text.items }
    ensures { view result ≡ string text.items }
{
    match String::from_utf8(text) {
        Ok(text) => Value::String(text),
        Err(_) => unreachable!(),
    }
}

/// An object as a line.
pub(crate) fn line_of(alloc: Global, object: Value) -> Result<Vec<u8>, AllocError>
    requires { has_float (view object) ≡ false }
    ensures { IfOk result (λ line. line.items ≡ ended (compact_text (view object))) }
{
    let mut line = object.to_string(alloc)?.into_bytes();
    line.push(b'\n')?;
    Ok(line)
}
