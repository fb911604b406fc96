//! `blocks REGISTER [PREFIX]`: what a register assigns to identifiers, block by block.

ghost use Rattle.std.specs.Prelude.{◌≡◌, ◌≢◌, ◌⊎◌, true, false, OnOk, IfErr};
ghost use Rattle.std.specs.Fn.{FnReturnsAt};
ghost use Rattle.ddt_commands.specs.Ends.{HasText};
ghost use Rattle.ddt_plan_commands.specs.declared.exit_status.ExitStatus.TheVariants.{
  Answered as IsAnswered,
  Different as IsDifferent,
  Refused as IsRefused,
};
ghost use Rattle.ddt_plan_commands.specs.declared.command_error.CommandError.TheVariants.{Refused as StopsRefused, Unprinted as StopsUnprinted};
ghost use Rattle.ddt_plan_commands.specs.Answers.{HasFront, IsBlocksAnswer, IsBlocksText, IsListedText, IsCountedText};
ghost use Rattle.ddt_plan_commands.specs.Refusals.{HasRefused, HasRefusedFront, IsWhyNoBlocks, IsWhyUnwritten};

use crate::arguments::{BlocksAsked, Form};
use crate::block_lines::BlockLines;
use crate::command_error::CommandError;
use crate::counts_lines::counts_lines;
use crate::exit_status::ExitStatus;
use crate::inputs::{prefix_of, register_of};
use ddt_check::Accepted;
use ddt_lines::print;
use ddt_path::Prefix;
use ddt_plan::{OutcomeCounts, blocks};
use std::alloc::Global;
use std::io::{Read, Write};

/// Writes a line for each block of the register inside the prefix, in the order of their digits, or the number of
/// blocks of each kind. `open_file` returns a file, or None if it can't be opened. Returns the exit status and the
/// writer.
pub fn run_blocks<F, O, W, E>(
    alloc: Global,
    asked: &BlocksAsked<'_>,
    open_file: O,
    out: W,
    err: &mut E,
) -> (ExitStatus, W)
where
    F: Read + Drop,
    O: Fn(&str) -> Option<F> + Drop,
    W: Write + Drop,
    E: Write,
    requires { O.IsAlwaysCallable open_file }
    ensures alike { result.0 ≢ IsDifferent }
    ensures answered { result.0 ≡ IsAnswered
        → HasText (IsBlocksAnswer (FnReturnsAt O.Fn open_file) F.remaining asked.now)
        (W.contents out) (W.contents result.1) }
    ensures front { HasFront (IsBlocksAnswer (FnReturnsAt O.Fn open_file) F.remaining asked.now)
        (W.contents out) (W.contents result.1) }
    ensures refused { result.0 ≡ IsRefused
        → HasRefused (IsWhyNoBlocks (FnReturnsAt O.Fn open_file) F.remaining asked.now)
        (E.contents err.old) (E.contents err.new) }
    ensures quiet { result.0 ≡ IsAnswered → err.new ≡ err.old }
    ensures told { (err.new ≡ err.old)
        ⊎ HasRefusedFront (IsWhyNoBlocks (FnReturnsAt O.Fn open_file) F.remaining asked.now)
        (E.contents err.old) (E.contents err.new) }
{
    let mut lines = BlockLines {
        alloc,
        form: asked.form,
        with_holes: asked.with_holes,
        out,
    };
    let answered = write_blocks(alloc, asked, open_file, &mut lines);
    let BlockLines { out, .. } = lines;
    let end = match answered {
        Ok(()) => ExitStatus::Answered,
        Err(stop) => stop.report(alloc, err),
    };
    (end, out)
}

/// Writes the answer, and flushes the writer.
fn write_blocks<'a, F, O, W>(
    alloc: Global,
    asked: &BlocksAsked<'a>,
    open_file: O,
    lines: &mut BlockLines<W>,
) -> Result<(), CommandError<'a>>
where
    F: Read + Drop,
    O: Fn(&str) -> Option<F> + Drop,
    W: Write + Drop,
    requires opens { O.IsAlwaysCallable open_file }
    requires form { lines.old.form ≡ asked.now.form }
    requires holes { lines.old.with_holes ≡ asked.now.with_holes }
    ensures whole { OnOk result (HasText (IsBlocksAnswer (FnReturnsAt O.Fn open_file) F.remaining asked.now)
        (W.contents lines.old.out) (W.contents lines.new.out)) }
    ensures front { HasFront (IsBlocksAnswer (FnReturnsAt O.Fn open_file) F.remaining asked.now)
        (W.contents lines.old.out) (W.contents lines.new.out) }
    ensures refused { IfErr result (λ stop. (why : _) → stop ≡ StopsRefused why
        → IsWhyNoBlocks (FnReturnsAt O.Fn open_file) F.remaining asked.now why) }
{
    let inside = prefix_of(asked.inside)?;
    let register = register_of(alloc, open_file(asked.register), asked.register)?;
    write_inside(alloc, asked, &register, inside, lines)?;
    lines.out.flush()?;
    Ok(())
}

/// Writes the lines or the counts of the blocks of a register inside a prefix.
fn write_inside<W: Write + Drop>(
    alloc: Global,
    asked: &BlocksAsked<'_>,
    register: &Accepted,
    inside: Prefix,
    lines: &mut BlockLines<W>,
) -> Result<(), CommandError<'static>>
    requires form { lines.old.form ≡ asked.now.form }
    requires holes { lines.old.with_holes ≡ asked.now.with_holes }
    ensures whole { OnOk result (HasText (IsBlocksText asked.now register.now inside)
        (W.contents lines.old.out) (W.contents lines.new.out)) }
    ensures front { HasFront (IsBlocksText asked.now register.now inside)
        (W.contents lines.old.out) (W.contents lines.new.out) }
    ensures refused { IfErr result (IsWhyUnwritten asked.now.counted) }
{
    if asked.counted {
        count_blocks(alloc, asked.form, register, inside, &mut lines.out)
    } else {
        list_blocks(alloc, register, inside, lines)
    }
}

/// Writes the line of each block.
fn list_blocks<W: Write + Drop>(
    alloc: Global,
    register: &Accepted,
    inside: Prefix,
    lines: &mut BlockLines<W>,
) -> Result<(), CommandError<'static>>
    ensures whole { OnOk result (HasText (IsListedText lines.old.form lines.old.with_holes register.now inside)
        (W.contents lines.old.out) (W.contents lines.new.out)) }
    ensures front { HasFront (IsListedText lines.old.form lines.old.with_holes register.now inside)
        (W.contents lines.old.out) (W.contents lines.new.out) }
    ensures refused { IfErr result (IsWhyUnwritten false) }
{
    blocks(alloc, register, inside, lines)?;
    Ok(())
}

/// Writes the number of blocks of each kind.
fn count_blocks<W: Write>(
    alloc: Global,
    form: Form,
    register: &Accepted,
    inside: Prefix,
    out: &mut W,
) -> Result<(), CommandError<'static>>
    ensures whole { OnOk result (HasText (IsCountedText form register.now inside)
        (W.contents out.old) (W.contents out.new)) }
    ensures front { HasFront (IsCountedText form register.now inside) (W.contents out.old) (W.contents out.new) }
    ensures refused { IfErr result (IsWhyUnwritten true) }
{
    let mut counts = OutcomeCounts::default();
    blocks(alloc, register, inside, &mut counts)?;
    print(&counts_lines(alloc, form, counts)?, out)?;
    Ok(())
}
