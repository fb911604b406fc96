//! The parts of a line. What appends fails only if out of memory.

ghost use Rattle.std.specs.Prelude.{◌≡◌, ◌++◌, codes, decimal, OnOk};
ghost use Rattle.ddt_text.specs.Written.{written_locator};
ghost use Rattle.ddt_lines.specs.Lines.{nonce_text, spaced};

use ddt_path::Locator;
use ddt_text::write_locator;
use std::alloc::AllocError;

/// Appends a text.
pub(crate) fn push_text(line: &mut Vec<u8>, text: &str) -> Result<(), AllocError>
    ensures { OnOk result (line.new.items ≡ line.old.items ++ text.now) }
{
    line.extend_from_slice(text.as_bytes())
}

/// Appends a number in decimal digits.
pub(crate) fn push_number(line: &mut Vec<u8>, number: usize) -> Result<(), AllocError>
    ensures { OnOk result (line.new.items ≡ line.old.items ++ decimal number) }
{
    let digits = format!(in *line.allocator(); "{number}")?;
    line.extend_from_slice(digits.as_bytes())
}

/// Appends a nonce in sixteen hexadecimal digits.
#[tactic(auto, unfolding(crate::specs::Lines::nonce_text))]
pub(crate) fn push_nonce(line: &mut Vec<u8>, nonce: u64) -> Result<(), AllocError>
    ensures { OnOk result (line.new.items ≡ line.old.items ++ nonce_text nonce) }
{
    let digits = hex::encode(*line.allocator(), nonce.to_be_bytes())?;
    line.extend_from_slice(digits.as_bytes())
}

/// Appends a blank and the locator.
pub(crate) fn push_locator(line: &mut Vec<u8>, locator: Locator) -> Result<(), AllocError>
    ensures { OnOk result (line.new.items ≡ line.old.items ++ codes " " ++ written_locator locator) }
{
    line.push(b' ')?;
    write_locator(line, locator)
}

/// Appends each locator behind a blank.
pub(crate) fn push_locators(line: &mut Vec<u8>, locators: &[Locator]) -> Result<(), AllocError>
    ensures { OnOk result (line.new.items ≡ line.old.items ++ spaced locators.now) }
{
    for locator in locators {
        push_locator(line, *locator)?;
    }
    Ok(())
}
