//! The program `ddtd`: a daemon that is a DDT node, a Map-Server or a Map-Resolver, with the files, sockets, clock and
//! streams of its process. The rounds of each role are those of `ddt_daemon`.
//!
//! `server` and `map_resolver` are the two roles, `daemon` is their main loop, `reload` and `control_commands` are what
//! it does between rounds, and `check` is `ddtd check`. Tests: tests/ddtd, tests/configurations and
//! tests/namespaces.sh.
#![tactic(auto)]

mod check;
mod command_line;
mod control_client;
mod control_commands;
mod control_socket;
mod daemon;
mod exit_status;
mod file_identity;
mod file_watch;
mod give_up_log;
mod input_file;
mod loading;
mod log;
mod map_resolver;
mod poll;
mod receive_buffer;
mod registering;
mod registration_file;
mod reload;
mod reply_addresses;
mod server;
mod server_timeouts;
mod shared_socket;
mod site_changes;
mod site_keys;
mod sockets;
mod standard_streams;
mod system_clock;
mod systemd_notify;
mod unbound_locators;
mod unrecognized_afi_log;

use command_line::{Invocation, parse_command_line};
use exit_status::ExitStatus;
use log::{Log, Priority};
use std::io::ErrorKind;
use std::process::ExitCode;
use std::{env, io};

fn main(rt: HostRuntime) -> ExitCode {
    let mut log = Log::new();
    ExitCode::from(run_command_line(&rt, &mut log).number())
}

/// Runs the command of the process's arguments.
fn run_command_line(rt: &HostRuntime, log: &mut Log) -> ExitStatus {
    if let Err(error) = standard_streams::open_closed(rt) {
        let line = format!(in rt.alloc();
            "a standard stream is closed, and so is /dev/null: {error}"
        );
        log.say(rt, Priority::Error, line);
        return ExitStatus::Refused;
    }
    let words = match arguments_of(rt) {
        Ok(words) => words,
        Err(error) if error.kind() == ErrorKind::OutOfMemory => {
            // A line of the log wants memory itself.
            let _printed = eprintln!(rt; "<3>out of memory");
            return ExitStatus::Refused;
        }
        Err(_) => {
            log.refuse(rt, "a word is no text");
            return ExitStatus::Refused;
        }
    };
    match parse_command_line(rt.alloc(), &words) {
        Ok(Invocation::Check(args)) => check::check(rt, &args),
        Ok(Invocation::Serve(args)) => server::serve(rt, &args, log),
        Ok(Invocation::Resolve(args)) => map_resolver::resolve(rt, &args, log),
        Ok(Invocation::Tell(args)) => control_client::tell(rt, &args, log),
        // Help and the version end with status 0, if they could be printed.
        Err(error) => match error.print(rt) {
            Ok(()) if !error.use_stderr() => ExitStatus::Answered,
            _ => ExitStatus::Refused,
        },
    }
}

/// The arguments of the process, the program's name first.
fn arguments_of(rt: &HostRuntime) -> io::Result<Vec<String>> {
    Ok(env::args(rt)?.collect(rt.alloc())?)
}
