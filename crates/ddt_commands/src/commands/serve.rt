//! `ddt serve CONFIG ADDRESS TURNS`: a server of the configuration, at a loopback address, for TURNS turns.

mod configuration;

ghost use Rattle.std.specs.Prelude.{◌≡◌, ◌≢◌, ◌<◌, Bool, Some, Ok, IfOk, IfErr, true};
ghost use Rattle.std.specs.Fn.{FnReturnsAt};
ghost use Rattle.ddt_config.specs.Entries.{entry_count};
ghost use Rattle.ddt_config.specs.Table.{outline};
ghost use Rattle.ddt_trie.specs.PrefixMap.{most_entries};
ghost use Rattle.ddt_lines.specs.Lines.{ended};
ghost use Rattle.ddt_commands.specs.CommandLine.Call.{call_of};
ghost use Rattle.ddt_commands.specs.Ends.{Ends, streams};
ghost use Rattle.ddt_commands.specs.Commands.Serve.{IsServeText, IsServedText, IsWhyNotServed, IsWhyUnserved, ServesOver, address_of, bad_serve, config_path, served_text, turns_of, serve_prints};
ghost use Rattle.ddt_commands.specs.Sockets.{Binds};

use crate::command_line::{Argument, Declaration, Words};
use crate::environment::Environment;
use crate::lines::Lines;
use crate::loopback::is_loopback;
use crate::refusal::{Refusal, ServerRefusal, WordRefusal};
use crate::sockets::refused_bind;
use crate::status::Status;
use crate::streams::print_result;
use configuration::config_at;
use ddt_config::ServerConfig;
use ddt_node::Server;
use ddt_path::Locator;
use ddt_sockets::{Served, Wires, serve_turns};
use ddt_text::{parse_locator, read_number};
use ddt_trie::HashedMap;
use std::alloc::{AllocError, Global};
use std::io;
use std::io::{Read, Write};

pub const WORDS: Declaration<'static> = Declaration {
    name: "serve",
    arguments: &[
        Argument::One("config"),
        Argument::One("address"),
        Argument::One("turns"),
    ],
};

/// The greatest number of turns of `serve` and `loop`.
pub const MAX_SERVE_TURNS: u64 = 4_294_967_295;

/// The path of a configuration, and where and for how long its server serves.
#[derive(Clone, Copy, Debug)]
struct Serve<'a> {
    config: &'a str,
    at: Locator,
    turns: u32,
}

impl<'a> Serve<'a> {
    /// What the words ask for, or the first bad one.
    fn of(words: &Words<'a>) -> Result<Serve<'a>, WordRefusal>
        ensures path { IfOk result (λ serve. serve.config.now ≡ config_path (call_of words.now)) }
        ensures address { IfOk result (λ serve. address_of (call_of words.now) ≡ Ok serve.at) }
        ensures turns { IfOk result (λ serve. turns_of (call_of words.now) ≡ Some serve.turns) }
        ensures bad { IfErr result (λ why. bad_serve (call_of words.now) ≡ Some why) }
    {
        let Ok(at) = parse_locator(words.value("address").as_bytes()) else {
            return Err(WordRefusal::Address);
        };
        let Some(turns) = read_number(words.value("turns").as_bytes(), MAX_SERVE_TURNS) else {
            return Err(WordRefusal::Number);
        };
        Ok(Serve {
            config: words.value("config"),
            at,
            turns: turns as u32,
        })
    }
}

/// Runs a server of the configuration at a loopback address for a number of turns, and prints how many packets it
/// received and how many replies it sent. Refused for the address, the number of turns, the configuration or the socket.
pub fn run_serve<F, O, W, C, B, P, E>(
    alloc: Global,
    words: &Words<'_>,
    environment: &mut Environment<O, W, C, B>,
    out: &mut P,
    err: &mut E,
) -> Status
where
    F: Read + Drop,
    O: Fn(&str) -> Option<F> + Drop,
    W: Wires,
    B: Fn(&mut W, Locator) -> io::Result<()> + Drop,
    P: Write,
    E: Write,
    requires opens { O.IsAlwaysCallable environment.old.open_file }
    requires binds { B.IsAlwaysCallable environment.old.bind }
    ensures ends { Ends result (streams P.contents out.old out.new E.contents err.old err.new)
        (serve_prints (FnReturnsAt O.Fn environment.old.open_file) F.remaining
        (environment.new.wires ≡ environment.old.wires)
        (ServesOver (Binds B.Fn environment.old.bind) W.calls environment.old.wires environment.new.wires)
        (call_of words.now)) }
    ensures still { environment.new.clock ≡ environment.old.clock }
{
    let answer = lines(alloc, words, environment);
    print_result(alloc, &answer, out, err)
}

/// The line of how much a server received and replied, or why it doesn't run. The words are checked first, then whether
/// the address is a loopback address. Then the file is opened and read, a socket is bound, and the turns are taken.
pub fn lines<'a, F, O, W, C, B>(
    alloc: Global,
    words: &Words<'a>,
    environment: &mut Environment<O, W, C, B>,
) -> Result<Lines, Refusal<'a>>
where
    F: Read + Drop,
    O: Fn(&str) -> Option<F> + Drop,
    W: Wires,
    B: Fn(&mut W, Locator) -> io::Result<()> + Drop,
    requires opens { O.IsAlwaysCallable environment.old.open_file }
    requires binds { B.IsAlwaysCallable environment.old.bind }
    ensures text { IfOk result (λ lines. IsServeText (FnReturnsAt O.Fn environment.old.open_file) F.remaining
        (ServesOver (Binds B.Fn environment.old.bind) W.calls environment.old.wires environment.new.wires)
        (call_of words.now) lines.text.items) }
    ensures complete { IfOk result (λ lines. lines.complete ≡ true) }
    ensures refused { IfErr result (IsWhyNotServed (FnReturnsAt O.Fn environment.old.open_file) F.remaining
        (environment.new.wires ≡ environment.old.wires)
        (ServesOver (Binds B.Fn environment.old.bind) W.calls environment.old.wires environment.new.wires)
        (call_of words.now)) }
    ensures still { environment.new.clock ≡ environment.old.clock }
{
    let asked = match Serve::of(words) {
        Ok(asked) => asked,
        Err(why) => return Err(Refusal::BadWord(why)),
    };
    if !is_loopback(asked.at) {
        return Err(Refusal::NoServer(ServerRefusal::NotLoopback(asked.at)));
    }
    let open_file = &environment.open_file;
    let config = config_at(alloc, open_file(asked.config), asked.config)?;
    let Environment { wires, bind, .. } = environment;
    let line = serve_at(alloc, config, asked.at, asked.turns, wires, bind)?;
    Ok(Lines::whole(line))
}

/// Binds a socket of the wires to the locator, and runs a server of the configuration there for `turns` turns. Returns
/// the line of its counts. Refused where the socket can't be bound, or if out of memory.
fn serve_at<W, B>(
    alloc: Global,
    config: ServerConfig,
    at: Locator,
    turns: u32,
    wires: &mut W,
    bind: &B,
) -> Result<Vec<u8>, Refusal<'static>>
where
    W: Wires,
    B: Fn(&mut W, Locator) -> io::Result<()> + Drop,
    requires room { entry_count (outline config) < most_entries }
    requires binds { B.IsAlwaysCallable bind.now }
    ensures text { IfOk result (λ text. IsServedText (ServesOver (Binds B.Fn bind.now) W.calls wires.old wires.new)
        (outline config) at turns text.items) }
    ensures refused { IfErr result (IsWhyUnserved (ServesOver (Binds B.Fn bind.now) W.calls wires.old wires.new)
        (outline config) at turns) }
{
    let Ok(server) = Server::<HashedMap<u32>>::build(alloc, config) else {
        return Err(Refusal::OutOfMemory);
    };
    if let Err(error) = bind(wires, at) {
        return Err(refused_bind(at, error.kind()));
    }
    let served = serve_turns(alloc, wires, &server, at, turns);
    Ok(served_line(alloc, served)?)
}

/// `received N replied M`, and a line feed.
fn served_line(alloc: Global, served: Served) -> Result<Vec<u8>, AllocError>
    ensures { IfOk result (λ line. line.items ≡ ended (served_text served)) }
{
    let Served { received, replied } = served;
    Ok(format!(in alloc; "received {received} replied {replied}\n")?.into_bytes())
}
