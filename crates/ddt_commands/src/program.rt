//! From the words of the process to the command that they call, and its end.

ghost use Rattle.std.specs.Prelude.{◌≡◌, ◌≢◌, MatchOption, map, string_bytes};
ghost use Rattle.std.specs.Fn.{FnReturnsAt};
ghost use Rattle.ddt_commands.specs.CommandLine.Call.{call_of};
ghost use Rattle.ddt_commands.specs.declared.command_line.fault.WordsFault.TheVariants.{Bad as AreBad, Memory as IsMemory};
ghost use Rattle.ddt_commands.specs.declared.refusal.Refusal.TheVariants.{OutOfMemory as IsOutOfMemory};
ghost use Rattle.ddt_commands.specs.declared.status.Status.TheVariants.{BadWords as IsBadWords};
ghost use Rattle.ddt_commands.specs.declared.commands.Command.TheVariants as CommandAs;
ghost use Rattle.ddt_commands.specs.Commands.{prints_of};
ghost use Rattle.ddt_commands.specs.Ends.{Ends, streams};
ghost use Rattle.ddt_commands.specs.Program.{CallNone, DontCall, program_prints};
ghost use Rattle.ddt_commands.specs.Sockets.{Binds};
ghost use Rattle.ddt_commands.specs.Wires.{over_wires};

use crate::call::read_words;
use crate::command_line::{Words, WordsFault};
use crate::commands::{Command, lines_of};
use crate::environment::Environment;
use crate::refusal::Refusal;
use crate::status::Status;
use crate::streams::{print_result, refuse};
use crate::usage::show_usage;
use ddt_loop::Clock;
use ddt_path::Locator;
use ddt_sockets::Wires;
use std::alloc::Global;
use std::io;
use std::io::{Read, Write};

/// Runs the command that the words call, of which the first is the program's name. Words that fit no command end with
/// status 2 and the usage on `err`.
pub fn run<F, O, W, C, B, P, E>(
    alloc: Global,
    words: &[String],
    environment: &mut Environment<O, W, C, B>,
    out: &mut P,
    err: &mut E,
) -> Status
where
    F: Read + Drop,
    O: Fn(&str) -> Option<F> + Drop,
    W: Wires,
    C: Clock,
    B: Fn(&mut W, Locator) -> io::Result<()> + Drop,
    P: Write,
    E: Write,
    requires opens { O.IsAlwaysCallable environment.old.open_file }
    requires binds { B.IsAlwaysCallable environment.old.bind }
    ensures bad { result ≡ IsBadWords → CallNone (map string_bytes words.now) × (out.new ≡ out.old) }
    ensures ends { result ≢ IsBadWords → Ends result (streams P.contents out.old out.new E.contents err.old err.new)
        (program_prints (FnReturnsAt O.Fn environment.old.open_file) F.remaining
        (over_wires (Binds B.Fn environment.old.bind) W.calls C.readings environment.old.wires environment.new.wires
        environment.old.clock environment.new.clock) (map string_bytes words.now)) }
    // Only `serve` and `loop` use the wires, and only `loop` reads the clock.
    ensures quiet { DontCall CommandAs.Serve (map string_bytes words.now)
        → DontCall CommandAs.Loop (map string_bytes words.now) → environment.new.wires ≡ environment.old.wires }
    ensures still { DontCall CommandAs.Loop (map string_bytes words.now)
        → environment.new.clock ≡ environment.old.clock }
{
    match read_words(alloc, words) {
        Ok(words) => match Command::of(words.command()) {
            Some(command) => run_command(alloc, command, &words, environment, out, err),
            None => show_usage(err),
        },
        Err(fault) => match refused_words(fault) {
            Some(why) => refuse(alloc, &why, err),
            None => show_usage(err),
        },
    }
}

/// What is refused where the words call no command: 2 Memory is out of memory; 1 Bad shows the usage instead.
fn refused_words(fault: WordsFault) -> Option<Refusal<'static>>
    ensures { MatchOption result (fault ≡ AreBad) (λ why. (fault ≡ IsMemory) × (why ≡ IsOutOfMemory)) }
{
    match fault {
        WordsFault::Bad => None,
        WordsFault::Memory => Some(Refusal::OutOfMemory),
    }
}

/// Runs a command: prints its lines, or why it refuses.
fn run_command<F, O, W, C, B, P, E>(
    alloc: Global,
    command: Command,
    words: &Words<'_>,
    environment: &mut Environment<O, W, C, B>,
    out: &mut P,
    err: &mut E,
) -> Status
where
    F: Read + Drop,
    O: Fn(&str) -> Option<F> + Drop,
    W: Wires,
    C: Clock,
    B: Fn(&mut W, Locator) -> io::Result<()> + Drop,
    P: Write,
    E: Write,
    requires opens { O.IsAlwaysCallable environment.old.open_file }
    requires binds { B.IsAlwaysCallable environment.old.bind }
    ensures ends { Ends result (streams P.contents out.old out.new E.contents err.old err.new)
        (prints_of (FnReturnsAt O.Fn environment.old.open_file) F.remaining
        (over_wires (Binds B.Fn environment.old.bind) W.calls C.readings environment.old.wires environment.new.wires
        environment.old.clock environment.new.clock) command (call_of words.now)) }
    ensures quiet { command ≢ CommandAs.Serve → command ≢ CommandAs.Loop
        → environment.new.wires ≡ environment.old.wires }
    ensures still { command ≢ CommandAs.Loop → environment.new.clock ≡ environment.old.clock }
{
    let answer = lines_of(alloc, command, words, environment);
    print_result(alloc, &answer, out, err)
}
