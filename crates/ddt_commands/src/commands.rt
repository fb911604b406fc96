//! The list of commands. Each is a file of its own.

pub mod answer;
pub mod assign;
pub mod check;
pub mod compile;
pub mod lookup;
pub mod loops;
pub mod replay;
pub mod serve;
pub mod show;

ghost use Rattle.std.specs.Prelude.{◌≡◌, ◌≢◌, IfErr, IfOk, MatchOption};
ghost use Rattle.std.specs.Fn.{FnReturnsAt as ReturnsAt};
ghost use Rattle.ddt_commands.specs.CommandLine.Call.{call_of};
ghost use Rattle.ddt_commands.specs.CommandLine.Line.{line};
ghost use Rattle.ddt_commands.specs.declared.commands.Command.{Command as ACommand};
ghost use Rattle.ddt_commands.specs.declared.commands.Command.TheVariants as CommandAs;
ghost use Rattle.ddt_commands.specs.Commands.{name_of, program_line, prints_of};
ghost use Rattle.ddt_commands.specs.Sockets.{Binds};
ghost use Rattle.ddt_commands.specs.Wires.{over_wires};

use crate::command_line::{Declaration, Words};
use crate::environment::Environment;
use crate::lines::Lines;
use crate::over_register::lines_over;
use crate::refusal::Refusal;
use answer::Answer;
use assign::Assign;
use check::Check;
use compile::Compile;
use ddt_loop::Clock;
use ddt_path::Locator;
use ddt_sockets::Wires;
use lookup::Lookup;
use std::alloc::Global;
use std::io;
use std::io::Read;

/// What each command takes.
pub fn command_list() -> &'static [Declaration<'static>]
    ensures { line result.now ≡ program_line }
{
    &[
        answer::WORDS,
        assign::WORDS,
        check::WORDS,
        compile::WORDS,
        loops::WORDS,
        lookup::WORDS,
        replay::WORDS,
        serve::WORDS,
        show::WORDS,
    ]
}

/// The usage, which words that fit no command are shown: a line for each of `command_list`.
pub const USAGE: &str = "usage: ddt answer REGISTER GROUP XEID
       ddt assign REGISTER XEID
       ddt check REGISTER
       ddt compile REGISTER GROUP
       ddt loop REGISTER XEID... [--me ADDRESS] [--seed N] [--turns N]
       ddt lookup REGISTER XEID... [--me ADDRESS] [--seed N]
       ddt replay REGISTER SCRIPT [REGISTER...] [--me ADDRESS] [--seed N]
       ddt serve CONFIG ADDRESS TURNS
       ddt show HEX
";

/// A command.
#[derive(Clone, Copy, Debug, PartialEq, Eq)]
pub enum Command {
    Answer,
    Assign,
    Check,
    Compile,
    Loop,
    Lookup,
    Replay,
    Serve,
    Show,
}

impl Command {
    /// The command of this name.
    pub fn of(name: &str) -> Option<Command>
        ensures { MatchOption result ((c : ACommand) → name_of c ≢ name.now) (λ c. name_of c ≡ name.now) }
    {
        match name {
            "answer" => Some(Command::Answer),
            "assign" => Some(Command::Assign),
            "check" => Some(Command::Check),
            "compile" => Some(Command::Compile),
            "loop" => Some(Command::Loop),
            "lookup" => Some(Command::Lookup),
            "replay" => Some(Command::Replay),
            "serve" => Some(Command::Serve),
            "show" => Some(Command::Show),
            _ => None,
        }
    }
}

/// The lines that a command answers, or why it refuses. Only `serve` and `loop` use the wires, and `loop` alone the
/// clock.
pub fn lines_of<'a, F, O, W, C, B>(
    alloc: Global,
    command: Command,
    words: &Words<'a>,
    environment: &mut Environment<O, W, C, B>,
) -> Result<Lines, Refusal<'a>>
where
    F: Read + Drop,
    O: Fn(&str) -> Option<F> + Drop,
    W: Wires,
    C: Clock,
    B: Fn(&mut W, Locator) -> io::Result<()> + Drop,
    requires opens { O.IsAlwaysCallable environment.old.open_file }
    requires binds { B.IsAlwaysCallable environment.old.bind }
    ensures text { IfOk result (λ lines. (prints_of (ReturnsAt O.Fn environment.old.open_file) F.remaining
        (over_wires (Binds B.Fn environment.old.bind) W.calls C.readings environment.old.wires environment.new.wires
        environment.old.clock environment.new.clock) command (call_of words.now)).text lines.complete lines.text.items) }
    ensures refused { IfErr result (prints_of (ReturnsAt O.Fn environment.old.open_file) F.remaining
        (over_wires (Binds B.Fn environment.old.bind) W.calls C.readings environment.old.wires environment.new.wires
        environment.old.clock environment.new.clock) command (call_of words.now)).refusal }
    ensures quiet { command ≢ CommandAs.Serve → command ≢ CommandAs.Loop
        → environment.new.wires ≡ environment.old.wires }
    ensures still { command ≢ CommandAs.Loop → environment.new.clock ≡ environment.old.clock }
{
    match command {
        Command::Answer => lines_over::<Answer<'a>, F, O>(alloc, words, &environment.open_file),
        Command::Assign => lines_over::<Assign, F, O>(alloc, words, &environment.open_file),
        Command::Check => lines_over::<Check, F, O>(alloc, words, &environment.open_file),
        Command::Compile => lines_over::<Compile<'a>, F, O>(alloc, words, &environment.open_file),
        Command::Loop => loops::lines(alloc, words, environment),
        Command::Lookup => lines_over::<Lookup, F, O>(alloc, words, &environment.open_file),
        Command::Replay => replay::lines(alloc, words, &environment.open_file),
        Command::Serve => serve::lines(alloc, words, environment),
        Command::Show => show::lines(alloc, words),
    }
}
