//! What a command prints: its lines on the output, or the line of its refusal on the error stream.

ghost use Rattle.std.specs.Prelude.{◌≡◌, ◌≢◌, ◌⊎◌, IfOk, string_bytes};
ghost use Rattle.std.specs.Io.KnownBytes.{Appends};
ghost use Rattle.ddt_lines.specs.Printing.{AppendsFront};
ghost use Rattle.ddt_commands.specs.declared.status.Status.TheVariants.{
  Refused as IsRefused,
  Unprinted as IsUnprinted,
};
ghost use Rattle.ddt_commands.specs.Ends.{Ends, prints_result as as_printed, streams};
ghost use Rattle.ddt_commands.specs.Refusal.{IsLineOf};
ghost use Rattle.ddt_commands.specs.Status.{answer_status};
ghost use Rattle.ddt_commands.specs.Streams.{PrintsRefusal, PrintsRefusalFront};

use crate::lines::Lines;
use crate::refusal::Refusal;
use crate::status::Status;
use ddt_lines::print;
use std::alloc::{AllocError, Global};
use std::io::Write;

/// Prints the lines of a command on `out`, or the line of its refusal on `err`; the status that the command ends with.
/// Where a writer fails, it has a front of what it was to have.
pub fn print_result<P: Write, E: Write>(
    alloc: Global,
    lines: &Result<Lines, Refusal<'_>>,
    out: &mut P,
    err: &mut E,
) -> Status
    ensures { Ends result (streams P.contents out.old out.new E.contents err.old err.new) (as_printed lines.now) }
{
    match lines {
        Ok(lines) => answer(lines, out),
        Err(refusal) => refuse(alloc, refusal, err),
    }
}

/// Prints an answer, whole lines.
fn answer<W: Write>(lines: &Lines, out: &mut W) -> Status
    ensures printed { result ≢ IsUnprinted → Appends (W.contents out.old) (W.contents out.new) lines.now.text.items }
    ensures front { AppendsFront (W.contents out.old) (W.contents out.new) lines.now.text.items }
    ensures ends { (result ≡ answer_status lines.now.complete) ⊎ (result ≡ IsUnprinted) }
{
    match print(&lines.text, out) {
        Ok(()) if lines.complete => Status::Answered,
        Ok(()) => Status::Incomplete,
        Err(_) => Status::Unprinted,
    }
}

/// Prints the line of a refusal; `out of memory` where there is no memory for that line.
pub fn refuse<E: Write>(alloc: Global, refusal: &Refusal<'_>, err: &mut E) -> Status
    ensures told { result ≡ IsRefused → PrintsRefusal refusal.now (E.contents err.old) (E.contents err.new) }
    ensures front { PrintsRefusalFront refusal.now (E.contents err.old) (E.contents err.new) }
    ensures ends { (result ≡ IsRefused) ⊎ (result ≡ IsUnprinted) }
{
    let printed = match line_of(alloc, refusal) {
        Ok(line) => print(line.as_bytes(), err),
        Err(_) => print(b"out of memory\n", err),
    };
    match printed {
        Ok(()) => Status::Refused,
        Err(_) => Status::Unprinted,
    }
}

/// The line of a refusal.
fn line_of(alloc: Global, refusal: &Refusal<'_>) -> Result<String, AllocError>
    ensures { IfOk result (λ line. IsLineOf refusal.now (string_bytes line)) }
{
    format!(in alloc; "{refusal}\n")
}
