//! `ddt loop REGISTER XEID... [--me ADDRESS] [--seed N] [--turns N]`: the servers of a register and one resolver, over
//! sockets of the loopback, for at most N turns.

mod end_lines;
mod task;

ghost use Rattle.std.specs.Prelude.{◌≡◌, ◌≢◌, Bool, None, Ok, Some, IfErr, IfOk, IfSome, map, option_map};
ghost use Rattle.std.specs.Fn.{FnReturnsAt};
ghost use Rattle.ddt_text.specs.FirstFault.{xeid_in};
ghost use Rattle.ddt_commands.specs.CommandLine.Call.{call_of};
ghost use Rattle.ddt_commands.specs.Commands.Lookup.{bad_identifier, me_of, number_refusal, seed_of, xeid_words};
ghost use Rattle.ddt_commands.specs.Commands.Loop.{AreUntouched, IsLoopText, IsWhyNotLooped, LoopsOver, bad_loop, turns_in, turns_of, loop_prints};
ghost use Rattle.ddt_commands.specs.Over.{path};
ghost use Rattle.ddt_commands.specs.Ends.{Ends, streams};
ghost use Rattle.ddt_commands.specs.Sockets.{Binds};

use crate::command_line::{Argument, Declaration, Words};
use crate::commands::serve::MAX_SERVE_TURNS;
use crate::environment::Environment;
use crate::lines::Lines;
use crate::loopback::is_loopback;
use crate::over_register::register_at;
use crate::refusal::{Refusal, ServerRefusal, WordRefusal};
use crate::resolver::{first_nonce, identifiers, own_address};
use crate::status::Status;
use crate::streams::print_result;
use ddt_loop::Clock;
use ddt_path::{Locator, Xeid};
use ddt_sockets::Wires;
use ddt_text::read_number;
use std::alloc::Global;
use std::io;
use std::io::{Read, Write};
use task::{Task, loop_over};

pub const WORDS: Declaration<'static> = Declaration {
    name: "loop",
    arguments: &[
        Argument::One("register"),
        Argument::Several("xeid"),
        Argument::Setting("me"),
        Argument::Setting("seed"),
        Argument::Setting("turns"),
    ],
};

/// The greatest number of turns where none is given.
const DEFAULT_TURNS: u32 = 20_000;

/// Runs a resolver among the servers of a register, over wires and a clock, and prints what each identifier's lookup ends
/// in. Refused for the words from left to right, the resolver's address, the register, an address of its servers, or a
/// socket.
pub fn run_loop<F, O, W, C, B, P, E>(
    alloc: Global,
    words: &Words<'_>,
    environment: &mut Environment<O, W, C, B>,
    out: &mut P,
    err: &mut E,
) -> Status
where
    F: Read + Drop,
    O: Fn(&str) -> Option<F> + Drop,
    W: Wires,
    C: Clock,
    B: Fn(&mut W, Locator) -> io::Result<()> + Drop,
    P: Write,
    E: Write,
    requires opens { O.IsAlwaysCallable environment.old.open_file }
    requires binds { B.IsAlwaysCallable environment.old.bind }
    ensures { Ends result (streams P.contents out.old out.new E.contents err.old err.new)
        (loop_prints (FnReturnsAt O.Fn environment.old.open_file) F.remaining
        (AreUntouched environment.old.wires environment.new.wires environment.old.clock environment.new.clock)
        (LoopsOver (Binds B.Fn environment.old.bind) W.calls C.readings environment.old.wires environment.new.wires
        environment.old.clock environment.new.clock) (call_of words.now)) }
{
    let answer = lines(alloc, words, environment);
    print_result(alloc, &answer, out, err)
}

/// The path of a register, the identifiers, and a resolver over the register's servers.
#[derive(Debug, Drop)]
struct Loop<'a> {
    register: &'a str,
    /// None where memory ran out. A fault of the register is refused before that.
    ids: Option<Vec<Xeid>>,
    me: Locator,
    seed: u64,
    turns: u32,
}

impl<'a> Loop<'a> {
    /// What the words ask for, or the first bad one.
    fn of(alloc: Global, words: &Words<'a>) -> Result<Loop<'a>, WordRefusal>
        ensures path { IfOk result (λ asked. asked.register.now ≡ path (call_of words.now)) }
        ensures identifiers { IfOk result (λ asked. bad_identifier (xeid_words (call_of words.now)) ≡ None) }
        ensures spelled { IfOk result (λ asked. IfSome asked.ids (λ ids.
            map xeid_in (xeid_words (call_of words.now)) ≡ map Ok ids.items)) }
        ensures resolver { IfOk result (λ asked.
            (me_of (call_of words.now) ≡ Ok asked.me) × (seed_of (call_of words.now) ≡ Some asked.seed)) }
        ensures turns { IfOk result (λ asked. turns_of (call_of words.now) ≡ Some asked.turns) }
        ensures bad { IfErr result (λ why. bad_loop (call_of words.now) ≡ Some why) }
    {
        Ok(Loop {
            register: words.value("register"),
            ids: identifiers(alloc, words)?,
            me: own_address(words.setting("me"))?,
            seed: first_nonce(words.setting("seed"))?,
            turns: turn_limit(words.setting("turns"))?,
        })
    }
}

/// The lines of what the lookups end in, or why there are none. The words are checked first, then whether the resolver's
/// address is a loopback address. Then the file is opened, read and checked, the addresses of its servers are checked,
/// sockets are bound, and the turns are taken.
pub fn lines<'a, F, O, W, C, B>(
    alloc: Global,
    words: &Words<'a>,
    environment: &mut Environment<O, W, C, B>,
) -> Result<Lines, Refusal<'a>>
where
    F: Read + Drop,
    O: Fn(&str) -> Option<F> + Drop,
    W: Wires,
    C: Clock,
    B: Fn(&mut W, Locator) -> io::Result<()> + Drop,
    requires opens { O.IsAlwaysCallable environment.old.open_file }
    requires binds { B.IsAlwaysCallable environment.old.bind }
    ensures text { IfOk result (λ lines. IsLoopText (FnReturnsAt O.Fn environment.old.open_file) F.remaining
        (LoopsOver (Binds B.Fn environment.old.bind) W.calls C.readings environment.old.wires environment.new.wires
        environment.old.clock environment.new.clock)
        (call_of words.now) lines.complete lines.text.items) }
    ensures refused { IfErr result (IsWhyNotLooped (FnReturnsAt O.Fn environment.old.open_file) F.remaining
        (AreUntouched environment.old.wires environment.new.wires environment.old.clock environment.new.clock)
        (LoopsOver (Binds B.Fn environment.old.bind) W.calls C.readings environment.old.wires environment.new.wires
        environment.old.clock environment.new.clock) (call_of words.now)) }
{
    let asked = match Loop::of(alloc, words) {
        Ok(asked) => asked,
        Err(why) => return Err(Refusal::BadWord(why)),
    };
    if !is_loopback(asked.me) {
        return Err(Refusal::NoServer(ServerRefusal::NotLoopback(asked.me)));
    }
    let open_file = &environment.open_file;
    let register = register_at(alloc, open_file(asked.register), asked.register)?;
    let Some(ids) = &asked.ids else {
        return Err(Refusal::OutOfMemory);
    };
    let task = Task {
        ids,
        me: asked.me,
        seed: asked.seed,
        turns: asked.turns,
    };
    let Environment {
        wires,
        clock,
        bind,
        ..
    } = environment;
    loop_over(alloc, &register, task, wires, clock, bind)
}

/// The greatest number of turns.
fn turn_limit(word: Option<&str>) -> Result<u32, WordRefusal>
    ensures good { IfOk result (λ turns. turns_in (option_map (λ t. t.now) word.entry) ≡ Some turns) }
    ensures bad { IfErr result (λ why. number_refusal (turns_in (option_map (λ t. t.now) word.entry)) ≡ Some why) }
{
    let Some(word) = word else {
        return Ok(DEFAULT_TURNS);
    };
    match read_number(word.as_bytes(), MAX_SERVE_TURNS) {
        Some(turns) => Ok(turns as u32),
        None => Err(WordRefusal::Number),
    }
}
