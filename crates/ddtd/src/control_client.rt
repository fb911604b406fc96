//! `ddtd tell SOCKET WORD [ARGUMENT]`: sends a command to a running daemon.

use crate::command_line::TellArgs;
use crate::exit_status::ExitStatus;
use crate::log::{Log, Priority};
use ddt_daemon::ControlWord;
use ddt_daemon_text::{StatisticsFormat, formatted, printable_lines};
use std::io::{Read, Write};
use std::os::unix::net::UnixStream;
use std::time::Duration;
use std::{io, str};

/// The longest wait for an answer, in seconds.
const REPLY_TIMEOUT_SECONDS: u64 = 60;

/// Sends a daemon a command, and prints the answer.
pub fn tell(rt: &HostRuntime, args: &TellArgs<'_>, log: &mut Log) -> ExitStatus {
    if let Some(why) = fault_of(args) {
        log.refuse(rt, why);
        return ExitStatus::Refused;
    }
    match ask(rt, args) {
        Ok(answer) => print_answer(rt, &answer, args, log),
        Err(error) => {
            let socket = args.socket;
            log.say(
                rt,
                Priority::Error,
                format!(in rt.alloc(); "{socket}: {error}"),
            );
            ExitStatus::Refused
        }
    }
}

/// The reason why a daemon can't be asked this; None where it can.
fn fault_of(args: &TellArgs<'_>) -> Option<&'static str> {
    if args.argument == Some("") {
        return Some("the prefix or the identifier is empty");
    }
    if args.form != StatisticsFormat::Lines && args.word != ControlWord::Stats {
        return Some("only stats has another form than lines");
    }
    None
}

/// Sends the command and reads the whole answer.
fn ask(rt: &HostRuntime, args: &TellArgs<'_>) -> io::Result<Vec<u8>> {
    let mut stream = UnixStream::connect(rt, args.socket)?;
    send(&mut stream, args)?;
    let mut answer = Vec::new(rt.alloc());
    stream.read_to_end(&mut answer)?;
    Ok(answer)
}

/// Sends the command, with a limit for the wait for its answer.
fn send(stream: &mut UnixStream, args: &TellArgs<'_>) -> io::Result<()> {
    stream.set_read_timeout(Some(Duration::from_secs(REPLY_TIMEOUT_SECONDS)))?;
    stream.write_all(args.word.text().as_bytes())?;
    if let Some(argument) = args.argument {
        stream.write_all(b" ")?;
        stream.write_all(argument.as_bytes())?;
    }
    stream.write_all(b"\n")
}

/// Prints an answer with its control characters escaped. It is a refusal if it begins with `refused`, isn't UTF-8, or
/// was cut; the log has the last.
fn print_answer(rt: &HostRuntime, answer: &[u8], args: &TellArgs<'_>, log: &mut Log) -> ExitStatus {
    let Ok(text) = str::from_utf8(answer) else {
        return ExitStatus::Refused;
    };
    let Ok(text) = printable_lines(rt.alloc(), text) else {
        return ExitStatus::Refused;
    };
    if !is_whole(args.word, &text) {
        log.refuse(rt, "the answer was cut");
    }
    let is_answer = is_whole(args.word, &text) && !text.starts_with("refused");
    let form = if is_answer {
        args.form
    } else {
        StatisticsFormat::Lines
    };
    let Ok(text) = formatted(rt.alloc(), &text, form) else {
        return ExitStatus::Refused;
    };
    if rt.stdout().write_all(text.as_bytes()).is_err() || !is_answer {
        ExitStatus::Refused
    } else {
        ExitStatus::Answered
    }
}

/// Whether an answer has its last line; that of a table is the number of its entries.
fn is_whole(word: ControlWord, text: &str) -> bool {
    let last = text.lines().last().unwrap_or("");
    if text.starts_with("refused") {
        return true;
    }
    match word {
        ControlWord::Servers => last.starts_with("servers="),
        ControlWord::Cache => last.starts_with("entries="),
        _ => !last.is_empty(),
    }
}
