//! The lines of counts.

ghost use Rattle.std.specs.Prelude.{◌≡◌, ◌++◌, IfOk, OnOk};
ghost use Rattle.ddt_lines.specs.Lines.{ended};
ghost use Rattle.ddt_plan_commands.specs.Lines.{change_count_text, change_counts_text, count_text, counts_text, number_field};
ghost use Rattle.ddt_plan_commands.specs.Written.{written_change_counts, written_counts};

use crate::arguments::Form;
use crate::objects::{change_counts_object, counts_object};
use ddt_plan::{ChangeCounts, OutcomeCounts};
use std::alloc::{AllocError, Global};

/// Returns the lines with the number of blocks of each kind.
pub(crate) fn counts_lines(
    alloc: Global,
    form: Form,
    counts: OutcomeCounts,
) -> Result<Vec<u8>, AllocError>
    ensures { IfOk result (λ lines. lines.items ≡ written_counts form counts) }
{
    match form {
        Form::Text => counts_fields(alloc, counts),
        Form::Json => counts_object(alloc, counts),
    }
}

fn counts_fields(alloc: Global, counts: OutcomeCounts) -> Result<Vec<u8>, AllocError>
    ensures { IfOk result (λ text. text.items ≡ counts_text counts) }
{
    let mut text = Vec::new(alloc);
    push_count(&mut text, "registered", counts.registered)?;
    push_count(&mut text, "not-registered", counts.not_registered)?;
    push_count(&mut text, "hole", counts.holes)?;
    Ok(text)
}

/// Appends the line of a count.
fn push_count(text: &mut Vec<u8>, kind: &str, number: u64) -> Result<(), AllocError>
    ensures { OnOk result (text.new.items ≡ text.old.items ++ ended (count_text kind.now number)) }
{
    text.extend_from_slice(kind.as_bytes())?;
    push_number(text, number)?;
    text.push(b'\n')?;
    Ok(())
}

/// Appends a tab and a number in decimal digits.
fn push_number(text: &mut Vec<u8>, number: u64) -> Result<(), AllocError>
    ensures { OnOk result (text.new.items ≡ text.old.items ++ number_field number) }
{
    text.push(b'\t')?;
    let digits = format!(in *text.allocator(); "{number}")?;
    text.extend_from_slice(digits.as_bytes())
}

/// Returns the lines with the number of changed blocks of each kind, before and after, and the number of groups whose
/// configurations change.
pub(crate) fn change_counts_lines(
    alloc: Global,
    form: Form,
    counts: ChangeCounts,
    groups: usize,
) -> Result<Vec<u8>, AllocError>
    ensures { IfOk result (λ lines. lines.items ≡ written_change_counts form counts groups) }
{
    match form {
        Form::Text => change_counts_fields(alloc, counts, groups),
        Form::Json => change_counts_object(alloc, counts, groups),
    }
}

fn change_counts_fields(
    alloc: Global,
    counts: ChangeCounts,
    groups: usize,
) -> Result<Vec<u8>, AllocError>
    ensures { IfOk result (λ text. text.items ≡ change_counts_text counts groups) }
{
    let ChangeCounts { before, after } = counts;
    let mut text = Vec::new(alloc);
    push_change_count(&mut text, "registered", before.registered, after.registered)?;
    push_change_count(
        &mut text,
        "not-registered",
        before.not_registered,
        after.not_registered,
    )?;
    push_change_count(&mut text, "hole", before.holes, after.holes)?;
    push_count(&mut text, "group", groups as u64)?;
    Ok(text)
}

/// Appends the line of a count before and a count after.
fn push_change_count(
    text: &mut Vec<u8>,
    kind: &str,
    before: u64,
    after: u64,
) -> Result<(), AllocError>
    ensures { OnOk result (text.new.items ≡ text.old.items ++ ended (change_count_text kind.now before after)) }
{
    text.extend_from_slice(kind.as_bytes())?;
    push_number(text, before)?;
    push_number(text, after)?;
    text.push(b'\n')?;
    Ok(())
}
