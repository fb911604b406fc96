//! The table of old and new locators of a register.

ghost use Rattle.std.specs.Prelude.{◌≡◌, ◌++◌, IfOk, OnOk};
ghost use Rattle.ddt_deploy.specs.Loopback.Table.{group_lines, locator_lines, moved_line};

use ddt_path::Locator;
use ddt_register::{Group, Register};
use ddt_text::write_locator;
use std::alloc::{AllocError, Global};

/// Appends the old locator, a tab, and the new one.
fn push_line(text: &mut Vec<u8>, old: Locator, new: Locator) -> Result<(), AllocError>
    ensures { OnOk result (text.new.items ≡ text.old.items ++ moved_line old new) }
{
    write_locator(text, old)?;
    text.push(b'\t')?;
    write_locator(text, new)?;
    text.push(b'\n')?;
    Ok(())
}

/// Appends a line for each locator of a group.
fn push_group(text: &mut Vec<u8>, olds: &[Locator], news: &[Locator]) -> Result<(), AllocError>
    ensures { OnOk result (text.new.items ≡ text.old.items ++ locator_lines olds.now news.now) }
{
    for (old, new) in olds.iter().zip(news) {
        push_line(text, *old, *new)?;
    }
    Ok(())
}

/// Appends the lines of groups.
fn push_groups(text: &mut Vec<u8>, olds: &[Group], news: &[Group]) -> Result<(), AllocError>
    ensures { OnOk result (text.new.items ≡ text.old.items ++ group_lines olds.now news.now) }
{
    for (old, new) in olds.iter().zip(news) {
        push_group(text, old.locators.as_slice(), new.locators.as_slice())?;
    }
    Ok(())
}

/// Returns a line `OLD`, tab, `NEW` for each locator of the groups of a register and the one at its place in another
/// register, as `to_loopback` makes it. They are in the order of the rows, and of the locators in a row. It ends when
/// either register has no more.
pub fn moves_text(alloc: Global, before: &Register, after: &Register) -> Result<Vec<u8>, AllocError>
    ensures { IfOk result (λ text. text.items ≡ group_lines before.now.groups after.now.groups) }
{
    let mut text = Vec::new(alloc);
    push_groups(&mut text, before.groups.as_slice(), after.groups.as_slice())?;
    Ok(text)
}
