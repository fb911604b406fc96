//! The line of each identifier: what its lookup ended in.

ghost use Rattle.std.specs.Prelude.{◌≡◌, IfOk};
ghost use Rattle.std.specs.List.{list_all};
ghost use Rattle.ddt_lines.specs.Lines.{ended};
ghost use Rattle.ddt_commands.specs.Commands.Loop.{end_line as line_of, end_lines as lines_of, end_text as text_of, is_outcome as is_outcome_of};

use crate::resolver::{ask_error_name, plain_line, why_name};
use ddt_lines::outcome_line;
use ddt_loop::LoopEnd;
use ddt_path::Xeid;
use ddt_text::write_xeid;
use std::alloc::{AllocError, Global};

/// `XEID END` and a line feed for each identifier and its end, in their order.
pub fn end_lines(alloc: Global, ids: &[Xeid], ends: &[LoopEnd]) -> Result<Vec<u8>, AllocError>
    ensures { IfOk result (λ text. text.items ≡ lines_of ids.now ends.now) }
{
    let mut text = Vec::new(alloc);
    for (x, end) in ids.iter().zip(ends) {
        text.extend_from_slice(&end_line(alloc, *x, end)?)?;
    }
    Ok(text)
}

fn end_line(alloc: Global, x: Xeid, end: &LoopEnd) -> Result<Vec<u8>, AllocError>
    ensures { IfOk result (λ line. line.items ≡ line_of (x, end.now)) }
{
    let mut line = Vec::new(alloc);
    write_xeid(&mut line, x)?;
    line.push(b' ')?;
    line.extend_from_slice(&end_text(alloc, end)?)?;
    Ok(line)
}

/// The end of a lookup, and a line feed.
fn end_text(alloc: Global, end: &LoopEnd) -> Result<Vec<u8>, AllocError>
    ensures { IfOk result (λ text. text.items ≡ ended (text_of end.now)) }
{
    match end {
        LoopEnd::Answer(outcome) => outcome_line(alloc, outcome),
        LoopEnd::GaveUp(why) => plain_line(alloc, "gave-up ", why_name(*why)),
        LoopEnd::Refused(why) => plain_line(alloc, "refused ", ask_error_name(*why)),
        LoopEnd::Unresolved => plain_line(alloc, "unresolved", ""),
    }
}

/// Whether each lookup ended with an outcome.
pub fn are_outcomes(ends: &[LoopEnd]) -> bool
    ensures { result ≡ list_all is_outcome_of ends.now }
{
    ends.iter().all(is_outcome)
}

fn is_outcome(end: &LoopEnd) -> bool
    ensures { result ≡ is_outcome_of end.now }
{
    matches!(end, LoopEnd::Answer(_))
}
