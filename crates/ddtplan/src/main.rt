//! The program `ddtplan`, which reviews registers. It runs the command of its words over the files, the sockets and the
//! streams of a process. The crates below make the answers: `ddt_plan_commands`, and those that each module names.
//!
//! Each command has a file of its name, but `blocks` and `diff` are in this one, and `tree` and `ladder` in `pictures`.
//! Tests: tests/companion.
#![tactic(auto)]

mod ask;
mod compile;
mod disk_folder;
mod export;
mod faults;
mod foreign;
mod identifiers_of_change;
mod inputs;
mod list_progress;
mod loopback;
mod new_file;
mod pictures;
mod probe;
mod probe_scope;
mod progress_bar;
mod report;
mod rollout;
mod seam;
mod seams_of_index;
mod tree_index;
mod warn;

use ddt_plan_commands::{
    Asked, BlocksAsked, DiffAsked, ExitStatus, SeamAsked, read_asked, run_blocks, run_diff,
};
use inputs::{Failure, say, say_why, source_at};
use list_progress::Progress;
use std::io::{BufWriter, ErrorKind, IsTerminal, Stdout};
use std::process::ExitCode;
use std::{env, io};

fn main(rt: HostRuntime) -> ExitCode {
    ExitCode::from(run_words(&rt).number())
}

/// Runs the command that the words of the process name.
fn run_words(rt: &HostRuntime) -> ExitStatus {
    let words = match words_of(rt) {
        Ok(words) => words,
        Err(error) if error.kind() == ErrorKind::OutOfMemory => return refuse(rt, "out of memory"),
        Err(_) => return refuse(rt, "a word is no text"),
    };
    run_command(rt, &words)
}

/// Runs the command that the words name.
fn run_command(rt: &HostRuntime, words: &[String]) -> ExitStatus {
    match read_asked(rt.alloc(), words) {
        Ok(asked) => run_asked(rt, &asked),
        // Help and the version are no mistakes, if they could be printed.
        Err(error) => match error.print(rt) {
            Ok(()) if !error.use_stderr() => ExitStatus::Answered,
            _ => ExitStatus::Refused,
        },
    }
}

/// Runs a command. Refused if two of its registers are standard input.
fn run_asked(rt: &HostRuntime, asked: &Asked<'_>) -> ExitStatus {
    if reads_input_twice(asked) {
        return refuse(rt, "only one register can be standard input");
    }
    run(rt, asked)
}

/// Returns whether both registers of a command are standard input.
fn reads_input_twice(asked: &Asked<'_>) -> bool {
    match asked {
        Asked::Diff(asked) => are_input(asked.before, asked.after),
        Asked::Report(asked) => are_input(asked.before, asked.after),
        Asked::Rollout(asked) => are_input(asked.before, asked.after),
        Asked::Seam(SeamAsked::Pair(asked)) => are_input(asked.ours, asked.theirs),
        Asked::Faults(asked) => are_input(asked.register, asked.old.unwrap_or("")),
        Asked::Warn(asked) => are_input(asked.register, asked.old.unwrap_or("")),
        Asked::Ask(asked) => are_input(asked.register, asked.before.unwrap_or("")),
        Asked::Compile(asked) => match &asked.step {
            Some(step) => are_input(asked.register, step.from),
            None => false,
        },
        _ => false,
    }
}

/// Returns whether both paths are `-`, standard input.
fn are_input(one: &str, other: &str) -> bool {
    one == "-" && other == "-"
}

/// Writes the reason why there is no answer to standard error.
fn refuse(rt: &HostRuntime, why: &str) -> ExitStatus {
    say(rt, why);
    ExitStatus::Refused
}

/// Runs a command over the files and the streams of the process.
fn run(rt: &HostRuntime, asked: &Asked<'_>) -> ExitStatus {
    match answer(rt, asked) {
        Ok(end) => end,
        Err(why) => refuse_for(rt, why),
    }
}

/// Prints the answer of a command. Refused with the reason why there is none; `blocks` and `diff` say theirs
/// themselves.
fn answer(rt: &HostRuntime, asked: &Asked<'_>) -> Result<ExitStatus, Failure> {
    match asked {
        Asked::Blocks(asked) => Ok(blocks(rt, asked)),
        Asked::Diff(asked) => Ok(diff(rt, asked)),
        Asked::Seam(asked) => seam::seam(rt, asked),
        Asked::Faults(asked) => faults::faults(rt, asked),
        Asked::Warn(asked) => warn::warn(rt, asked),
        Asked::Compile(asked) => compile::compile(rt, asked),
        Asked::Rollout(asked) => rollout::rollout(rt, asked),
        Asked::Report(asked) => report::report(rt, asked),
        Asked::Loopback(asked) => loopback::loopback(rt, asked),
        Asked::Export(asked) => export::export(rt, asked),
        Asked::Ask(asked) => ask::ask(rt, asked),
        Asked::Tree(asked) => pictures::tree(rt, asked),
        Asked::Ladder(asked) => pictures::ladder(rt, asked),
    }
}

/// Writes the reason why there is no answer to standard error; `out of memory` if there is no memory for it.
fn refuse_for(rt: &HostRuntime, why: Failure) -> ExitStatus {
    match why {
        Ok(why) => refuse(rt, why.as_str()),
        Err(_refused) => refuse(rt, "out of memory"),
    }
}

/// Returns the process's output, which reports the progress of a long list on standard error; None if out of memory.
fn list_output(rt: &HostRuntime) -> Option<Progress<BufWriter<Stdout>, &HostRuntime>> {
    let out = BufWriter::new(rt.alloc(), rt.stdout()).ok()?;
    let err = rt.stderr();
    let is_shown = err.is_terminal() && !rt.stdout().is_terminal();
    Some(Progress::new(out, rt, err, is_shown))
}

fn blocks(rt: &HostRuntime, asked: &BlocksAsked<'_>) -> ExitStatus {
    let Some(out) = list_output(rt) else {
        return refuse(rt, "out of memory");
    };
    let open_file = |path: &str| source_at(rt, path);
    let mut why = Vec::new(rt.alloc());
    let (end, mut out) = run_blocks(rt.alloc(), asked, open_file, out, &mut why);
    out.finish();
    say_why(rt, end, &why);
    end
}

fn diff(rt: &HostRuntime, asked: &DiffAsked<'_>) -> ExitStatus {
    let Some(out) = list_output(rt) else {
        return refuse(rt, "out of memory");
    };
    let open_file = |path: &str| source_at(rt, path);
    let mut why = Vec::new(rt.alloc());
    let (end, mut out) = run_diff(rt.alloc(), asked, open_file, out, &mut why);
    out.finish();
    say_why(rt, end, &why);
    end
}

/// Returns the words that the process was started with, the program's name first.
fn words_of(rt: &HostRuntime) -> io::Result<Vec<String>> {
    Ok(env::args(rt)?.collect(rt.alloc())?)
}
