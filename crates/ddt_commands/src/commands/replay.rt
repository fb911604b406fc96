//! `ddt replay REGISTER SCRIPT [REGISTER...] [--me ADDRESS] [--seed N]`: a schedule of a resolver among the servers of
//! the registers, step by step.

mod event_lines;
mod schedule;
mod script;

ghost use Rattle.std.specs.Prelude.{◌≡◌, ◌≢◌, ◌⊎◌, ℕ, Bool, List, map, None, Some, Ok, IsErr, IfOk, IfErr, true};
ghost use Rattle.std.specs.Fn.{FnReturnsAt};
ghost use Rattle.ddt_commands.specs.CommandLine.Call.{call_of};
ghost use Rattle.ddt_commands.specs.Commands.Lookup.{me_of, seed_of};
ghost use Rattle.ddt_commands.specs.Over.{path};
ghost use Rattle.ddt_commands.specs.Register.{HasBytes};
ghost use Rattle.ddt_commands.specs.Commands.Replay.{IsReplayOf, IsReplayText, IsWhyNoReplay, IsWhyNoScript, IsWhyNotReplayed, bad_replay, more_paths, script_path, script_refusal, replay_prints, script_prints};
ghost use Rattle.ddt_commands.specs.Ends.{Ends, streams};
ghost use Rattle.ddt_commands.specs.Commands.Script.{SpellsScript};

use crate::command_line::{Argument, Declaration, Words};
use crate::file::bytes_of;
use crate::lines::Lines;
use crate::over_register::register_at;
use crate::refusal::{Refusal, RegisterRefusal, ScriptRefusal, WordRefusal};
use crate::resolver::{first_nonce, own_address};
use crate::status::Status;
use crate::streams::print_result;
use ddt_path::Locator;
use ddt_sim::Step;
use schedule::{other_roots, replay};
use script::{ScriptFault, read_script};
use std::alloc::{AllocError, Global};
use std::io::{Read, Write};

pub const WORDS: Declaration<'static> = Declaration {
    name: "replay",
    arguments: &[
        Argument::One("register"),
        Argument::One("script"),
        Argument::Any("registers"),
        Argument::Setting("me"),
        Argument::Setting("seed"),
    ],
};

/// A register, a script, and the resolver to replay it with.
#[derive(Clone, Copy, Debug)]
pub struct Replay<'a> {
    /// The path of the register whose servers are in force at first.
    pub register: &'a str,
    /// The path of the script.
    pub script: &'a str,
    /// The resolver's own address.
    pub me: Locator,
    /// The nonce of the resolver's first request.
    pub seed: u64,
}

impl<'a> Replay<'a> {
    /// What the words ask for, or the first bad one.
    fn of(words: &Words<'a>) -> Result<Replay<'a>, WordRefusal>
        ensures paths { IfOk result (λ replay.
            (replay.register.now ≡ path (call_of words.now)) × (replay.script.now ≡ script_path (call_of words.now))) }
        ensures resolver { IfOk result (λ replay.
            (me_of (call_of words.now) ≡ Ok replay.me) × (seed_of (call_of words.now) ≡ Some replay.seed)) }
        ensures bad { IfErr result (λ why. bad_replay (call_of words.now) ≡ Some why) }
    {
        Ok(Replay {
            register: words.value("register"),
            script: words.value("script"),
            me: own_address(words.setting("me"))?,
            seed: first_nonce(words.setting("seed"))?,
        })
    }
}

/// Replays a script over registers, from its files to the lines, one for each step: status 0, or what is refused and
/// status 1. The servers of the register have the number 0, and those of the further ones the numbers from 1 on.
/// `open_file` gives a file, or None where it can't be opened. Files are looked at from left to right: the
/// register, the script, the further registers. Once all are read, the first register whose root locators differ from
/// those of the first is refused.
pub fn run_script<F, O, P, E>(
    alloc: Global,
    replay: &Replay<'_>,
    registers: &[&str],
    open_file: &O,
    out: &mut P,
    err: &mut E,
) -> Status
where
    F: Read + Drop,
    O: Fn(&str) -> Option<F> + Drop,
    P: Write,
    E: Write,
    requires { O.IsAlwaysCallable open_file.now }
    ensures { Ends result (streams P.contents out.old out.new E.contents err.old err.new)
        (script_prints (FnReturnsAt O.Fn open_file.now) F.remaining replay.now.register.now replay.now.script.now
        (map (λ t. t.now) registers.now) replay.now.me replay.now.seed) }
{
    let answer = replayed(alloc, replay, registers, open_file);
    print_result(alloc, &answer, out, err)
}

/// Prints the lines of a replay of a script over a register. The words are checked first, then all is as `run_script`
/// says.
pub fn run_replay<F, O, P, E>(
    alloc: Global,
    words: &Words<'_>,
    open_file: &O,
    out: &mut P,
    err: &mut E,
) -> Status
where
    F: Read + Drop,
    O: Fn(&str) -> Option<F> + Drop,
    P: Write,
    E: Write,
    requires { O.IsAlwaysCallable open_file.now }
    ensures { Ends result (streams P.contents out.old out.new E.contents err.old err.new)
        (replay_prints (FnReturnsAt O.Fn open_file.now) F.remaining (call_of words.now)) }
{
    let answer = lines(alloc, words, open_file);
    print_result(alloc, &answer, out, err)
}

/// The lines of the command, whose words these are, or why there are none.
pub fn lines<'a, F, O>(
    alloc: Global,
    words: &Words<'a>,
    open_file: &O,
) -> Result<Lines, Refusal<'a>>
where
    F: Read + Drop,
    O: Fn(&str) -> Option<F> + Drop,
    requires { O.IsAlwaysCallable open_file.now }
    ensures text { IfOk result (λ lines.
        IsReplayText (FnReturnsAt O.Fn open_file.now) F.remaining (call_of words.now) lines.text.items) }
    ensures complete { IfOk result (λ lines. lines.complete ≡ true) }
    ensures refused { IfErr result (IsWhyNoReplay (FnReturnsAt O.Fn open_file.now) F.remaining (call_of words.now)) }
{
    let registers = words.all_values("registers").unwrap_or(&[]);
    match Replay::of(words) {
        Ok(asked) => replayed(alloc, &asked, registers, open_file),
        Err(why) => Err(Refusal::BadWord(why)),
    }
}

/// The lines of a replay: the register is opened, read and checked, then the script is opened and read, then the
/// further registers are opened, read and checked, and then the script's steps are run.
fn replayed<'a, F, O>(
    alloc: Global,
    asked: &Replay<'a>,
    registers: &[&'a str],
    open_file: &O,
) -> Result<Lines, Refusal<'a>>
where
    F: Read + Drop,
    O: Fn(&str) -> Option<F> + Drop,
    requires { O.IsAlwaysCallable open_file.now }
    ensures text { IfOk result (λ lines. IsReplayOf (FnReturnsAt O.Fn open_file.now) F.remaining
        asked.now.register.now asked.now.script.now (map (λ t. t.now) registers.now) asked.now.me
        asked.now.seed lines.text.items) }
    ensures complete { IfOk result (λ lines. lines.complete ≡ true) }
    ensures refused { IfErr result (IsWhyNotReplayed (FnReturnsAt O.Fn open_file.now) F.remaining
        asked.now.register.now asked.now.script.now (map (λ t. t.now) registers.now)) }
{
    let first = register_at(alloc, open_file(asked.register), asked.register)?;
    let steps = script_at(alloc, open_file(asked.script), asked.script)?;
    let mut others = Vec::new(alloc);
    for path in registers {
        let register = register_at(alloc, open_file(path), path)?;
        others.push(register).map_err(AllocError::from)?;
    }
    if let Some(place) = other_roots(&first, &others) {
        let path = registers[place];
        return Err(Refusal::NoRegister(RegisterRefusal::OtherRoots(path)));
    }
    let text = replay(alloc, &first, &others, asked.me, asked.seed, &steps)?;
    Ok(Lines::whole(text))
}

/// The steps of a script that could be opened, or why there are none.
fn script_at<F: Read + Drop>(
    alloc: Global,
    source: Option<F>,
    path: &str,
) -> Result<Vec<Step>, Refusal<'_>>
    ensures spelled { IfOk result (λ steps. (bytes : List ℕ) → HasBytes F.remaining source bytes
        → SpellsScript bytes steps.items) }
    ensures refused { IfErr result (IsWhyNoScript F.remaining source path.now) }
    ensures closed { source ≡ None → IsErr result }
{
    let unread = Refusal::NoScript(ScriptRefusal::CannotOpen(path));
    let Some(file) = source else {
        return Err(unread);
    };
    let bytes = bytes_of(alloc, file, unread)?;
    match read_script(alloc, &bytes) {
        Ok(steps) => Ok(steps),
        Err(fault) => Err(refused_script(fault)),
    }
}

/// What is refused where bytes spell no script: the first line that spells no step, or out of memory.
fn refused_script(fault: ScriptFault) -> Refusal<'static>
    ensures { result ≡ script_refusal fault }
{
    match fault {
        ScriptFault::Line(number) => Refusal::NoScript(ScriptRefusal::RefusedLine(number)),
        ScriptFault::Memory => Refusal::OutOfMemory,
    }
}
