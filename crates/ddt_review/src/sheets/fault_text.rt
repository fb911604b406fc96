//! The faults of a file as text.

ghost use Rattle.std.specs.Prelude.{◌≡◌, ◌++◌, IfOk, OnOk};
ghost use Rattle.std.specs.String.{string_bytes};
ghost use Rattle.ddt_review.specs.Sheets.Told.{count_text, ended_text, faults_text, lines_text, place_text};

use crate::sheets::fault_line::FaultLine;
use std::alloc::{AllocError, Global};

/// The line `NAME:LINE: NUMBER NAME: reason` for each fault of the file of this name, and a last line with their
/// number: `no fault`, `1 fault`, `2 faults`. Fails only if out of memory.
pub fn fault_lines_text(
    alloc: Global,
    name: &str,
    faults: &[FaultLine],
) -> Result<Vec<u8>, AllocError>
    ensures { IfOk result (λ text. text.items ≡ faults_text name.now faults.now) }
{
    let mut text = Vec::new(alloc);
    push_lines(&mut text, name, faults)?;
    let last = count_line(alloc, faults.len())?;
    text.extend_from_slice(last.as_bytes())?;
    Ok(text)
}

fn push_lines(text: &mut Vec<u8>, name: &str, faults: &[FaultLine]) -> Result<(), AllocError>
    ensures { OnOk result (text.new.items ≡ text.old.items ++ lines_text name.now faults.now) }
{
    for fault in faults {
        push_place(text, name, fault.line)?;
        push_fault(text, fault.text.as_str())?;
    }
    Ok(())
}

/// Appends the name of the file and the line of a fault.
fn push_place(text: &mut Vec<u8>, name: &str, line: u64) -> Result<(), AllocError>
    ensures { OnOk result (text.new.items ≡ text.old.items ++ place_text name.now line) }
{
    text.extend_from_slice(name.as_bytes())?;
    text.push(b':')?;
    let digits = format!(in *text.allocator(); "{line}")?;
    text.extend_from_slice(digits.as_bytes())
}

/// Appends the text of a fault, and the end of the line.
fn push_fault(text: &mut Vec<u8>, told: &str) -> Result<(), AllocError>
    ensures { OnOk result (text.new.items ≡ text.old.items ++ ended_text told.now) }
{
    text.extend_from_slice(b": ")?;
    text.extend_from_slice(told.as_bytes())?;
    text.push(b'\n')?;
    Ok(())
}

/// The last line, with the number of faults.
fn count_line(alloc: Global, count: usize) -> Result<String, AllocError>
    ensures { IfOk result (λ text. string_bytes text ≡ count_text count) }
{
    match count {
        0 => format!(in alloc; "no fault\n"),
        1 => format!(in alloc; "1 fault\n"),
        _ => format!(in alloc; "{count} faults\n"),
    }
}
