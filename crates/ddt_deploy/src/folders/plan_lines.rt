//! The lines of a plan.

ghost use Rattle.std.specs.Prelude.{◌≡◌, ◌++◌, IfOk, OnOk};
ghost use Rattle.std.specs.List.{flat_map};
ghost use Rattle.ddt_deploy.specs.Folders.Lines.{named_line, plan_text, same_line, step_line, word_of as word_of_step};

use crate::folders::file_name::FileName;
use crate::folders::plan::Plan;
use crate::folders::step::Step;
use std::alloc::{AllocError, Global};

/// Returns the lines of a plan. Each step has one, as `new a.toml`, `changed a.toml` or `removed a.toml`. The next has
/// the number of files that stay as they are, as `same 44`. Each file that is left of a group that is gone has one, as
/// `gone a.toml`, or `altered a.toml` if it isn't as the last manifest lists it.
pub fn lines_of(alloc: Global, plan: &Plan) -> Result<Vec<u8>, AllocError>
    ensures { IfOk result (λ text. text.items ≡ plan_text plan.now) }
{
    let mut text = Vec::new(alloc);
    push_steps(&mut text, plan.steps.as_slice())?;
    push_same(&mut text, plan.same.as_slice().len())?;
    push_each(&mut text, "gone ", plan.left.as_slice())?;
    push_each(&mut text, "altered ", plan.altered.as_slice())?;
    Ok(text)
}

fn push_steps(text: &mut Vec<u8>, steps: &[Step]) -> Result<(), AllocError>
    ensures { OnOk result (text.new.items ≡ text.old.items ++ flat_map step_line steps.now) }
{
    for step in steps {
        push_named(text, word_of(step), step.name())?;
    }
    Ok(())
}

/// Returns the word for a step.
fn word_of(step: &Step) -> &'static str
    ensures { result.now ≡ word_of_step step.now }
{
    match step {
        Step::Add(_) => "new ",
        Step::Change(_) => "changed ",
        Step::Remove(_) => "removed ",
    }
}

fn push_same(text: &mut Vec<u8>, count: usize) -> Result<(), AllocError>
    ensures { OnOk result (text.new.items ≡ text.old.items ++ same_line count) }
{
    let line = format!(in *text.allocator(); "same {count}\n")?;
    text.extend_from_slice(line.as_bytes())
}

/// Appends a line for each file, with a word before its name.
fn push_each(text: &mut Vec<u8>, word: &str, names: &[FileName]) -> Result<(), AllocError>
    ensures { OnOk result (text.new.items ≡ text.old.items ++ flat_map (named_line word.now) names.now) }
{
    for name in names {
        push_named(text, word, *name)?;
    }
    Ok(())
}

/// Appends a word, the name of a file, and a line feed.
fn push_named(text: &mut Vec<u8>, word: &str, name: FileName) -> Result<(), AllocError>
    ensures { OnOk result (text.new.items ≡ text.old.items ++ named_line word.now name) }
{
    text.extend_from_slice(word.as_bytes())?;
    name.push(text)?;
    text.push(b'\n')?;
    Ok(())
}
