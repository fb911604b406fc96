//! The line of a register that is accepted.

ghost use Rattle.std.specs.Prelude.{◌≡◌, IfOk};
ghost use Rattle.ddt_lines.specs.Lines.{counts_text, ended};

use crate::text::{push_number, push_text};
use std::alloc::{AllocError, Global};

/// `accepted Z zones S sites G groups`, and a line feed. Fails only if out of memory.
pub fn accepted_line(
    alloc: Global,
    zones: usize,
    sites: usize,
    groups: usize,
) -> Result<Vec<u8>, AllocError>
    ensures { IfOk result (λ line. line.items ≡ ended (counts_text zones sites groups)) }
{
    let mut line = Vec::from_slice(alloc, b"accepted ")?;
    push_number(&mut line, zones)?;
    push_text(&mut line, " zones ")?;
    push_number(&mut line, sites)?;
    push_text(&mut line, " sites ")?;
    push_number(&mut line, groups)?;
    push_text(&mut line, " groups\n")?;
    Ok(line)
}
