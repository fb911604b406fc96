//! A block, a change and the counts of either, as lines of fields that a tab divides. What appends fails only if out of
//! memory.

ghost use Rattle.std.specs.Prelude.{◌≡◌, ◌++◌, IfOk, OnOk};
ghost use Rattle.ddt_lines.specs.Lines.{ended};
ghost use Rattle.ddt_plan_commands.specs.Lines.{block_text, change_text, group_text, kind_word as kind_word_of, outcome_field};

use ddt_lines::push_outcome;
use ddt_path::Outcome;
use ddt_plan::{Block, Change, GroupChange, GroupChangeKind};
use ddt_text::write_prefix;
use std::alloc::{AllocError, Global};

/// `BLOCK`, a tab, and the outcome.
pub(crate) fn block_fields(alloc: Global, block: &Block) -> Result<Vec<u8>, AllocError>
    ensures { IfOk result (λ line. line.items ≡ ended (block_text block.now)) }
{
    let mut line = Vec::new(alloc);
    write_prefix(&mut line, block.prefix)?;
    push_field(&mut line, &block.outcome)?;
    line.push(b'\n')?;
    Ok(line)
}

/// `BLOCK`, a tab, the outcome before, a tab, and the outcome after.
pub(crate) fn change_fields(alloc: Global, change: &Change) -> Result<Vec<u8>, AllocError>
    ensures { IfOk result (λ line. line.items ≡ ended (change_text change.now)) }
{
    let mut line = Vec::new(alloc);
    write_prefix(&mut line, change.prefix)?;
    push_field(&mut line, &change.before)?;
    push_field(&mut line, &change.after)?;
    line.push(b'\n')?;
    Ok(line)
}

/// Appends a tab and the outcome.
fn push_field(line: &mut Vec<u8>, outcome: &Outcome) -> Result<(), AllocError>
    ensures { OnOk result (line.new.items ≡ line.old.items ++ outcome_field outcome.now) }
{
    line.push(b'\t')?;
    push_outcome(line, outcome)
}

/// `group`, a tab, the name, a tab, and how its configuration changes.
pub(crate) fn group_fields(alloc: Global, change: &GroupChange) -> Result<Vec<u8>, AllocError>
    ensures { IfOk result (λ line. line.items ≡ ended (group_text change.now)) }
{
    let mut line = Vec::from_slice(alloc, b"group\t")?;
    line.extend_from_slice(change.name.as_bytes())?;
    line.push(b'\t')?;
    line.extend_from_slice(kind_word(change.kind).as_bytes())?;
    line.push(b'\n')?;
    Ok(line)
}

/// How the configuration of a group changes, in a word.
pub(crate) fn kind_word(kind: GroupChangeKind) -> &'static str
    ensures { result.now ≡ kind_word_of kind }
{
    match kind {
        GroupChangeKind::Added => "added",
        GroupChangeKind::Removed => "removed",
        GroupChangeKind::Changed => "changed",
    }
}
