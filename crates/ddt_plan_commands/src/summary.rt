//! The summary of what differs, as lines and as a JSON object. Each fails only if out of memory.

ghost use Rattle.std.specs.Prelude.{◌≡◌, ◌++◌, IfOk, OnOk, decimal, string_bytes};
ghost use Rattle.serde_json.specs.View.{view};
ghost use Rattle.serde_json.specs.Written.{compact_text};
ghost use Rattle.ddt_lines.specs.Lines.{ended};
ghost use Rattle.ddt_plan_commands.specs.Review.{is_different as is_different_of};
ghost use Rattle.ddt_plan_commands.specs.Summary.{
  count_field,
  extent_data,
  extent_text,
  extents_text,
  head_text,
  large_field,
  number_text as number_text_of,
  numbers_data,
  reload_text,
  summary_data,
  summary_in as summary_in_of,
  summary_text,
  tallies_text,
  tally_data,
  tally_text,
  written_summary as written_summary_of,
};

use crate::arguments::Form;
use crate::effects::Effects;
use crate::extent::Extent;
use crate::objects::line_of;
use crate::review::{Review, is_different};
use crate::row_tally::{RowTally, count_rows};
use ddt_plan::ItemChanges;
use serde_json::{Value, json};
use std::alloc::{AllocError, Global};

/// The summary, if anything differs.
pub(crate) fn written_summary(
    alloc: Global,
    form: Form,
    found: &Review,
) -> Result<Vec<u8>, AllocError>
    ensures { IfOk result (λ text. text.items ≡ written_summary_of form found.now) }
{
    if is_different(found) {
        summary_in(alloc, form, found)
    } else {
        Ok(Vec::new(alloc))
    }
}

/// The summary in a form.
pub(crate) fn summary_in(alloc: Global, form: Form, found: &Review) -> Result<Vec<u8>, AllocError>
    ensures { IfOk result (λ text. text.items ≡ summary_in_of form found.now) }
{
    match form {
        Form::Text => summary_lines(alloc, found),
        Form::Json => summary_object(alloc, found),
    }
}

fn summary_lines(alloc: Global, found: &Review) -> Result<Vec<u8>, AllocError>
    ensures { IfOk result (λ text. text.items ≡ summary_text found.now) }
{
    let mut text = Vec::new(alloc);
    push_extents(&mut text, &found.effects)?;
    push_tallies(&mut text, &found.items)?;
    push_reload(&mut text, found.groups.len())?;
    Ok(text)
}

/// Appends the lines of what the changes do to identifiers.
fn push_extents(text: &mut Vec<u8>, effects: &Effects) -> Result<(), AllocError>
    ensures { OnOk result (text.new.items ≡ text.old.items ++ extents_text effects.now) }
{
    push_extent(text, "become holes", effects.holes)?;
    push_extent(text, "lose registration", effects.unregistered)?;
    push_extent(text, "change servers", effects.moved)?;
    Ok(())
}

/// Appends the lines of how many sites and zones are lost, gained and changed.
#[tactic(auto, unfolding(crate::specs::Summary::tallies_text))]
fn push_tallies(text: &mut Vec<u8>, items: &ItemChanges) -> Result<(), AllocError>
    ensures { OnOk result (text.new.items ≡ text.old.items ++ tallies_text items.now) }
{
    push_tally(text, "sites", count_rows(items.sites.as_slice()))?;
    push_tally(text, "zones", count_rows(items.zones.as_slice()))
}

/// Appends the line of an extent.
#[tactic(auto, unfolding(crate::specs::Summary::extent_text))]
fn push_extent(text: &mut Vec<u8>, word: &str, extent: Extent) -> Result<(), AllocError>
    ensures { OnOk result (text.new.items ≡ text.old.items ++ ended (extent_text word.now extent)) }
{
    push_head(text, word)?;
    push_large_field(text, "blocks", extent.blocks)?;
    push_large_field(text, "IPv4 addresses", extent.ipv4)?;
    push_large_field(text, "IPv6 addresses", extent.ipv6)?;
    text.push(b'\n')?;
    Ok(())
}

/// Appends the line of a tally.
#[tactic(auto, unfolding(crate::specs::Summary::tally_text))]
fn push_tally(text: &mut Vec<u8>, word: &str, tally: RowTally) -> Result<(), AllocError>
    ensures { OnOk result (text.new.items ≡ text.old.items ++ ended (tally_text word.now tally)) }
{
    push_head(text, word)?;
    push_count_field(text, "lost", tally.lost)?;
    push_count_field(text, "gained", tally.gained)?;
    push_count_field(text, "changed", tally.changed)?;
    text.push(b'\n')?;
    Ok(())
}

/// Appends the line of how many groups' servers must reload.
#[tactic(auto, unfolding(crate::specs::Summary::reload_text))]
fn push_reload(text: &mut Vec<u8>, groups: usize) -> Result<(), AllocError>
    ensures { OnOk result (text.new.items ≡ text.old.items ++ ended (reload_text groups)) }
{
    push_head(text, "groups to reload")?;
    text.push(b'\t')?;
    push_count(text, groups)?;
    text.push(b'\n')?;
    Ok(())
}

/// Appends the start of a line.
#[tactic(auto, unfolding(crate::specs::Summary::head_text))]
fn push_head(text: &mut Vec<u8>, word: &str) -> Result<(), AllocError>
    ensures { OnOk result (text.new.items ≡ text.old.items ++ head_text word.now) }
{
    text.extend_from_slice(b"summary\t")?;
    text.extend_from_slice(word.as_bytes())
}

/// Appends a tab, a word and a number that may have been cut.
#[tactic(auto, unfolding(crate::specs::Summary::large_field))]
fn push_large_field(text: &mut Vec<u8>, word: &str, number: u128) -> Result<(), AllocError>
    ensures { OnOk result (text.new.items ≡ text.old.items ++ large_field word.now number) }
{
    text.push(b'\t')?;
    text.extend_from_slice(word.as_bytes())?;
    text.push(b' ')?;
    let digits = number_text(*text.allocator(), number)?;
    text.extend_from_slice(digits.as_bytes())
}

/// A number up to 2^128 - 2, or that it is at least one more.
#[tactic(auto, unfolding(crate::specs::Summary::number_text))]
fn number_text(alloc: Global, number: u128) -> Result<String, AllocError>
    ensures { IfOk result (λ text. string_bytes text ≡ number_text_of number) }
{
    if number < u128::MAX {
        format!(in alloc; "{number}")
    } else {
        String::from_str(alloc, "at least 340282366920938463463374607431768211455")
    }
}

/// Appends a tab, a word and a number in decimal digits.
#[tactic(auto, unfolding(crate::specs::Summary::count_field))]
fn push_count_field(text: &mut Vec<u8>, word: &str, count: usize) -> Result<(), AllocError>
    ensures { OnOk result (text.new.items ≡ text.old.items ++ count_field word.now count) }
{
    text.push(b'\t')?;
    text.extend_from_slice(word.as_bytes())?;
    text.push(b' ')?;
    push_count(text, count)
}

/// Appends a number in decimal digits.
fn push_count(text: &mut Vec<u8>, count: usize) -> Result<(), AllocError>
    ensures { OnOk result (text.new.items ≡ text.old.items ++ decimal count) }
{
    let digits = format!(in *text.allocator(); "{count}")?;
    text.extend_from_slice(digits.as_bytes())
}

#[tactic(auto, using(crate::proofs::FloatLemmas::no_floats))]
fn summary_object(alloc: Global, found: &Review) -> Result<Vec<u8>, AllocError>
    ensures { IfOk result (λ line. line.items ≡ ended (compact_text (summary_data found.now))) }
{
    line_of(alloc, summary_value(alloc, found)?)
}

fn summary_value(alloc: Global, found: &Review) -> Result<Value, AllocError>
    ensures { IfOk result (λ v. view v ≡ summary_data found.now) }
{
    json!(in alloc; {"summary": numbers_value(alloc, found)?})
}

fn numbers_value(alloc: Global, found: &Review) -> Result<Value, AllocError>
    ensures { IfOk result (λ v. view v ≡ numbers_data found.now) }
{
    json!(in alloc; {
        "become-holes": extent_value(alloc, found.effects.holes)?,
        "change-servers": extent_value(alloc, found.effects.moved)?,
        "groups-to-reload": found.groups.len(),
        "lose-registration": extent_value(alloc, found.effects.unregistered)?,
        "sites": tally_value(alloc, count_rows(found.items.sites.as_slice()))?,
        "zones": tally_value(alloc, count_rows(found.items.zones.as_slice()))?
    })
}

fn extent_value(alloc: Global, extent: Extent) -> Result<Value, AllocError>
    ensures { IfOk result (λ v. view v ≡ extent_data extent) }
{
    json!(in alloc; {
        "blocks": number_text(alloc, extent.blocks)?,
        "ipv4": number_text(alloc, extent.ipv4)?,
        "ipv6": number_text(alloc, extent.ipv6)?
    })
}

fn tally_value(alloc: Global, tally: RowTally) -> Result<Value, AllocError>
    ensures { IfOk result (λ v. view v ≡ tally_data tally) }
{
    json!(in alloc; {"changed": tally.changed, "gained": tally.gained, "lost": tally.lost})
}
