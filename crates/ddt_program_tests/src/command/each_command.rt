//! Each command of `ddt` by its own function, over the files of the campus.

use crate::command::words::process;
use crate::comparison::same;
use ddt_commands::command_line::Words;
use ddt_commands::{
    Environment, Replay, Status, read_words, run_answer, run_assign, run_check, run_compile,
    run_lookup, run_loop, run_replay, run_script, run_serve, run_show,
};
use ddt_examples::configurations::EAST;
use ddt_examples::registers::{CAMPUS, CAMPUS_GROWN};
use ddt_examples::replays::{INTERLEAVED, INTERLEAVED_LINES};
use ddt_loop::FixedClock;
use ddt_path::Locator;
use ddt_resolver::Moment;
use ddt_sockets::WiresInMemory;
use std::alloc::Global;
use std::io;
use std::test::Fail;

/// The files of the campus, one of each kind.
pub fn campus_file(path: &str) -> Option<&'static [u8]> {
    match path {
        "register.csv" => Some(CAMPUS.as_bytes()),
        "grown.csv" => Some(CAMPUS_GROWN.as_bytes()),
        "zone.csv" => Some(b"zone"),
        "steps.replay" => Some(INTERLEAVED.as_bytes()),
        "east.toml" => Some(EAST.as_bytes()),
        _ => None,
    }
}

/// Each socket can be bound.
pub fn bind(_wires: &mut WiresInMemory, _at: Locator) -> io::Result<()> {
    Ok(())
}

/// A clock that stays at 0.
pub fn at_start() -> FixedClock {
    FixedClock {
        at: Moment::at(0).unwrap(),
    }
}

fn serve(alloc: Global, words: &Words<'_>, out: &mut Vec<u8>, err: &mut Vec<u8>) -> Status {
    let mut environment = Environment {
        open_file: campus_file,
        wires: WiresInMemory::new(alloc, 0),
        clock: at_start(),
        bind,
    };
    run_serve(alloc, words, &mut environment, out, err)
}

fn loops(alloc: Global, words: &Words<'_>, out: &mut Vec<u8>, err: &mut Vec<u8>) -> Status {
    let mut environment = Environment {
        open_file: campus_file,
        wires: WiresInMemory::new(alloc, 0),
        clock: at_start(),
        bind,
    };
    run_loop(alloc, words, &mut environment, out, err)
}

/// Runs the function of the command that the words call.
pub fn run_called(
    alloc: Global,
    words: &Words<'_>,
    out: &mut Vec<u8>,
    err: &mut Vec<u8>,
) -> Option<Status> {
    match words.command() {
        "answer" => Some(run_answer(alloc, words, &campus_file, out, err)),
        "assign" => Some(run_assign(alloc, words, &campus_file, out, err)),
        "check" => Some(run_check(alloc, words, &campus_file, out, err)),
        "compile" => Some(run_compile(alloc, words, &campus_file, out, err)),
        "lookup" => Some(run_lookup(alloc, words, &campus_file, out, err)),
        "loop" => Some(loops(alloc, words, out, err)),
        "replay" => Some(run_replay(alloc, words, &campus_file, out, err)),
        "serve" => Some(serve(alloc, words, out, err)),
        "show" => Some(run_show(alloc, words, out, err)),
        _ => None,
    }
}

#[test]
fn a_command_is_run_by_its_function(rt: HostRuntime) -> Result<(), Fail> {
    let alloc = rt.alloc();
    let all = process(alloc, &["check", "register.csv"])?;
    let called = read_words(alloc, &all)?;
    let (mut out, mut err) = (Vec::new(alloc), Vec::new(alloc));
    let status = run_called(alloc, &called, &mut out, &mut err);
    same(&rt, &status, &Some(Status::Answered), &"the status");
    Ok(())
}

/// A replay of the campus, without the words that ask for it.
pub const REPLAY: Replay<'static> = Replay {
    register: "register.csv",
    script: "steps.replay",
    me: Locator::V4(0x7f00_0035),
    seed: 1,
};

#[test]
fn a_script_is_run_without_words(rt: HostRuntime) {
    let alloc = rt.alloc();
    let (mut out, mut err) = (Vec::new(alloc), Vec::new(alloc));
    let status = run_script(alloc, &REPLAY, &[], &campus_file, &mut out, &mut err);
    same(&rt, &status, &Status::Answered, &"the status");
    same(
        &rt,
        &out.as_slice(),
        &INTERLEAVED_LINES.as_bytes(),
        &"the lines",
    );
}
