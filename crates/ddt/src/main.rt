//! The program: its words, and the command that they call, over the files, the sockets, the clock and the streams of a
//! process. The commands are those of `ddt_commands`.
//! Tests: the command lines of tests.
#![tactic(auto)]

use ddt_cache::Moment;
use ddt_commands::{Environment, Refusal, Status, refuse, run, show_usage};
use ddt_loop::{Clock, FixedClock, SystemClock};
use ddt_path::Locator;
use ddt_sockets::UdpWires;
use std::io::ErrorKind;
use std::process::ExitCode;
use std::{env, fs, io};

fn main(rt: HostRuntime) -> ExitCode {
    let status = match SystemClock::new(&rt) {
        Ok(clock) => run_at(&rt, clock),
        // Where the system has no time, a lookup whose request is lost waits until the turns are used.
        Err(_error) => run_at(
            &rt,
            FixedClock {
                at: Moment::at(0).unwrap(),
            },
        ),
    };
    ExitCode::from(status.number())
}

/// Runs the command of the process over its files, its sockets and a clock.
fn run_at<C: Clock + Drop>(rt: &HostRuntime, clock: C) -> Status {
    let mut environment = Environment {
        open_file: |path: &str| fs::open(rt, path).ok(),
        wires: UdpWires::new(rt.alloc()),
        clock,
        bind: |wires: &mut UdpWires, at: Locator| wires.bind(rt, at),
    };
    let (mut out, mut err) = (rt.stdout(), rt.stderr());
    match words_of(rt) {
        Ok(words) => run(rt.alloc(), &words, &mut environment, &mut out, &mut err),
        Err(error) if error.kind() == ErrorKind::OutOfMemory => {
            refuse(rt.alloc(), &Refusal::OutOfMemory, &mut err)
        }
        // Words that are no text fit no command.
        Err(_) => show_usage(&mut err),
    }
}

/// The words that the process was started with, the program's name first.
fn words_of(rt: &HostRuntime) -> io::Result<Vec<String>> {
    Ok(env::args(rt)?.collect(rt.alloc())?)
}
