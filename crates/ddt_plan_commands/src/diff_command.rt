//! `diff OLD NEW`: what a change of a register changes.

ghost use Rattle.std.specs.Prelude.{◌≡◌, ◌⊎◌, ◌||◌, Bool, true, false, IfOk, IfErr};
ghost use Rattle.std.specs.Fn.{FnReturnsAt};
ghost use Rattle.ddt_commands.specs.Ends.{HasText};
ghost use Rattle.ddt_plan_commands.specs.declared.exit_status.ExitStatus.TheVariants.{Refused as IsRefused};
ghost use Rattle.ddt_plan_commands.specs.declared.command_error.CommandError.TheVariants.{Refused as StopsRefused};
ghost use Rattle.ddt_plan_commands.specs.Answers.{HasFront, IsAnyDiff, IsChangeCountsText, IsChangesText, IsDiffAnswer, IsDiffText, IsOpened, IsSummaryText};
ghost use Rattle.ddt_plan_commands.specs.Counted.{has_counted as has_counted_of};
ghost use Rattle.ddt_plan_commands.specs.Ends.{diff_end as diff_end_of};
ghost use Rattle.ddt_plan_commands.specs.Refusals.{HasRefused, HasRefusedFront, IsWhyNoDiff, IsWhyUnwritten, is_counted};
ghost use Rattle.ddt_plan_commands.specs.Written.{has_some};

use crate::arguments::{DiffAsked, DiffOutput, Form};
use crate::change_lines::ChangeLines;
use crate::command_error::CommandError;
use crate::counts_lines::change_counts_lines;
use crate::exit_status::ExitStatus;
use crate::heading_and_ending::{ending, heading};
use crate::inputs::register_opened;
use crate::refusal::PlanRefusal;
use crate::review::{compare, everything, is_different};
use crate::summary::written_summary;
use ddt_check::Accepted;
use ddt_lines::print;
use ddt_plan::{
    ChangeCounts, GroupChange, OutcomeCounts, Reading, changes, changes_of_sorted, group_changes,
};
use std::alloc::Global;
use std::io::{Read, Write};

/// Writes a summary of the differences between two registers, and a line for each block whose assignment changes, in
/// the order of their digits. After them come the sites, zones and groups that differ, the groups whose configurations
/// change, and for how long caches may answer the old way.
///
/// Or it writes the summary only, or the number of changes of each kind. `open_file` returns a file, or None if it
/// can't be opened. Returns the exit status and the writer.
pub fn run_diff<F, O, W, E>(
    alloc: Global,
    asked: &DiffAsked<'_>,
    open_file: O,
    out: W,
    err: &mut E,
) -> (ExitStatus, W)
where
    F: Read + Drop,
    O: Fn(&str) -> Option<F> + Drop,
    W: Write + Drop,
    E: Write,
    requires { O.IsAlwaysCallable open_file }
    ensures answered { (differs : Bool) → result.0 ≡ diff_end_of differs
        → HasText (IsDiffAnswer (FnReturnsAt O.Fn open_file) F.remaining asked.now differs)
        (W.contents out) (W.contents result.1) }
    ensures front { HasFront (IsAnyDiff (FnReturnsAt O.Fn open_file) F.remaining asked.now)
        (W.contents out) (W.contents result.1) }
    ensures refused { result.0 ≡ IsRefused
        → HasRefused (IsWhyNoDiff (FnReturnsAt O.Fn open_file) F.remaining asked.now)
        (E.contents err.old) (E.contents err.new) }
    ensures quiet { (differs : Bool) → result.0 ≡ diff_end_of differs → err.new ≡ err.old }
    ensures told { (err.new ≡ err.old)
        ⊎ HasRefusedFront (IsWhyNoDiff (FnReturnsAt O.Fn open_file) F.remaining asked.now)
        (E.contents err.old) (E.contents err.new) }
{
    let mut lines = ChangeLines {
        alloc,
        form: asked.form,
        out,
    };
    let answered = write_changes(alloc, asked, &open_file, &mut lines);
    let ChangeLines { out, .. } = lines;
    let end = match answered {
        Ok(differs) => diff_end(differs),
        Err(stop) => stop.report(alloc, err),
    };
    (end, out)
}

fn diff_end(differs: bool) -> ExitStatus
    ensures { result ≡ diff_end_of differs }
{
    if differs {
        ExitStatus::Different
    } else {
        ExitStatus::Answered
    }
}

/// Writes the answer, flushes the writer, and returns whether anything differs.
fn write_changes<'a, F, O, W>(
    alloc: Global,
    asked: &DiffAsked<'a>,
    open_file: &O,
    lines: &mut ChangeLines<W>,
) -> Result<bool, CommandError<'a>>
where
    F: Read + Drop,
    O: Fn(&str) -> Option<F>,
    W: Write + Drop,
    requires opens { O.IsAlwaysCallable open_file.now }
    requires form { lines.old.form ≡ asked.now.form }
    ensures whole { IfOk result (λ differs.
        HasText (IsDiffAnswer (FnReturnsAt O.Fn open_file.now) F.remaining asked.now differs)
        (W.contents lines.old.out) (W.contents lines.new.out)) }
    ensures front { HasFront (IsAnyDiff (FnReturnsAt O.Fn open_file.now) F.remaining asked.now)
        (W.contents lines.old.out) (W.contents lines.new.out) }
    ensures refused { IfErr result (λ stop. (why : _) → stop ≡ StopsRefused why
        → IsWhyNoDiff (FnReturnsAt O.Fn open_file.now) F.remaining asked.now why) }
{
    match registers_of(alloc, asked, open_file) {
        Ok((before, after)) => write_flushed(alloc, asked, &before, &after, lines),
        Err(why) => Err(CommandError::Refused(why)),
    }
}

/// Returns the register that is in force, and the one that is to come into force.
fn registers_of<'a, F, O>(
    alloc: Global,
    asked: &DiffAsked<'a>,
    open_file: &O,
) -> Result<(Accepted, Accepted), PlanRefusal<'a>>
where
    F: Read + Drop,
    O: Fn(&str) -> Option<F>,
    requires { O.IsAlwaysCallable open_file.now }
    ensures before { IfOk result (λ found.
        IsOpened (FnReturnsAt O.Fn open_file.now) F.remaining asked.now.before.now found.0) }
    ensures after { IfOk result (λ found.
        IsOpened (FnReturnsAt O.Fn open_file.now) F.remaining asked.now.after.now found.1) }
    ensures refused { IfErr result (IsWhyNoDiff (FnReturnsAt O.Fn open_file.now) F.remaining asked.now) }
{
    let before = register_opened(alloc, open_file, asked.before)?;
    let after = register_opened(alloc, open_file, asked.after)?;
    Ok((before, after))
}

/// Writes the output of `asked.output`, flushes the writer, and returns whether anything differs.
fn write_flushed<W: Write + Drop>(
    alloc: Global,
    asked: &DiffAsked<'_>,
    before: &Accepted,
    after: &Accepted,
    lines: &mut ChangeLines<W>,
) -> Result<bool, CommandError<'static>>
    requires { lines.old.form ≡ asked.now.form }
    ensures whole { IfOk result (λ differs. HasText (IsDiffText asked.now before.now after.now differs)
        (W.contents lines.old.out) (W.contents lines.new.out)) }
    ensures front { HasFront (λ text. (differs : Bool) × IsDiffText asked.now before.now after.now differs text)
        (W.contents lines.old.out) (W.contents lines.new.out) }
    ensures refused { IfErr result (IsWhyUnwritten (is_counted asked.now.output)) }
{
    let differs = write_between(alloc, asked, before, after, lines)?;
    match lines.out.flush() {
        Ok(()) => Ok(differs),
        Err(_) => Err(CommandError::Unprinted),
    }
}

/// Writes the output of `asked.output`, and returns whether anything differs.
fn write_between<W: Write + Drop>(
    alloc: Global,
    asked: &DiffAsked<'_>,
    before: &Accepted,
    after: &Accepted,
    lines: &mut ChangeLines<W>,
) -> Result<bool, CommandError<'static>>
    requires { lines.old.form ≡ asked.now.form }
    ensures whole { IfOk result (λ differs. HasText (IsDiffText asked.now before.now after.now differs)
        (W.contents lines.old.out) (W.contents lines.new.out)) }
    ensures front { HasFront (λ text. (differs : Bool) × IsDiffText asked.now before.now after.now differs text)
        (W.contents lines.old.out) (W.contents lines.new.out) }
    ensures refused { IfErr result (IsWhyUnwritten (is_counted asked.now.output)) }
{
    let (reading, form) = (asked.reading, asked.form);
    match asked.output {
        DiffOutput::Counts => count_changes(alloc, reading, form, before, after, &mut lines.out),
        DiffOutput::Summary => summarize(alloc, reading, form, before, after, &mut lines.out),
        DiffOutput::Changes => list_changes(alloc, reading, before, after, lines),
    }
}

/// Writes the summary.
fn summarize<W: Write>(
    alloc: Global,
    reading: Reading,
    form: Form,
    before: &Accepted,
    after: &Accepted,
    out: &mut W,
) -> Result<bool, CommandError<'static>>
    ensures whole { IfOk result (λ differs.
        HasText (IsSummaryText reading form before.now after.now differs)
        (W.contents out.old) (W.contents out.new)) }
    ensures front { HasFront (λ text. (differs : Bool)
        × IsSummaryText reading form before.now after.now differs text)
        (W.contents out.old) (W.contents out.new) }
    ensures refused { IfErr result (IsWhyUnwritten false) }
{
    let (found, _pair) = compare(alloc, reading, before, after)?;
    print(&written_summary(alloc, form, &found)?, out)?;
    Ok(is_different(&found))
}

/// Writes the summary, the line of each change, and the text after them. The changes are found twice, of registers that
/// are sorted once.
fn list_changes<W: Write + Drop>(
    alloc: Global,
    reading: Reading,
    before: &Accepted,
    after: &Accepted,
    lines: &mut ChangeLines<W>,
) -> Result<bool, CommandError<'static>>
    ensures whole { IfOk result (λ differs.
        HasText (IsChangesText reading lines.old.form before.now after.now differs)
        (W.contents lines.old.out) (W.contents lines.new.out)) }
    ensures front { HasFront (λ text. (differs : Bool)
        × IsChangesText reading lines.old.form before.now after.now differs text)
        (W.contents lines.old.out) (W.contents lines.new.out) }
    ensures refused { IfErr result (IsWhyUnwritten false) }
{
    let (found, pair) = compare(alloc, reading, before, after)?;
    let form = lines.form;
    print(&heading(alloc, form, &found)?, &mut lines.out)?;
    changes_of_sorted(reading, &pair, everything(), lines)?;
    drop(pair);
    print(&ending(alloc, form, &found)?, &mut lines.out)?;
    Ok(is_different(&found))
}

/// Writes the number of changes of each kind.
fn count_changes<W: Write>(
    alloc: Global,
    reading: Reading,
    form: Form,
    before: &Accepted,
    after: &Accepted,
    out: &mut W,
) -> Result<bool, CommandError<'static>>
    ensures whole { IfOk result (λ differs.
        HasText (IsChangeCountsText reading form before.now after.now differs)
        (W.contents out.old) (W.contents out.new)) }
    ensures front { HasFront (λ text. (differs : Bool)
        × IsChangeCountsText reading form before.now after.now differs text)
        (W.contents out.old) (W.contents out.new) }
    ensures refused { IfErr result (IsWhyUnwritten true) }
{
    let groups = group_changes(alloc, before, after)?;
    let groups = groups.as_slice();
    let mut counts = ChangeCounts::default();
    changes(alloc, reading, before, after, everything(), &mut counts)?;
    print(
        &change_counts_lines(alloc, form, counts, groups.len())?,
        out,
    )?;
    Ok(are_different(has_counted(counts.before), groups))
}

/// Returns whether there are changes, or groups whose configuration changes.
fn are_different(some: bool, groups: &[GroupChange]) -> bool
    ensures { result ≡ (some || has_some groups.now) }
{
    some || !groups.is_empty()
}

fn has_counted(counts: OutcomeCounts) -> bool
    ensures { result ≡ has_counted_of counts }
{
    counts.holes > 0 || counts.registered > 0 || counts.not_registered > 0
}
