//! The log: lines on standard error, each with its priority in front, as journald reads it.

use ddt_daemon_text::printable;
use libc::net::{POLLOUT, poll};
use libc::types::pollfd;
use std::alloc::AllocError;
use std::io::Write;

/// The descriptor of standard error.
const STDERR: i32 = 2;

/// The most bytes of a line: a pipe that is ready has room for them.
const MOST_LINE: usize = 4096;

/// The most bytes of a line's text: three bytes of the line are its priority, and one is its line feed.
const MOST_TEXT: usize = MOST_LINE - 4;

/// What follows the text of a line that was cut.
const CUT: &str = " ...";

/// The most bytes of the text of a line that was cut: what follows it has four.
const MOST_FRONT: usize = MOST_TEXT - 4;

/// The most bytes of an escape of a control character after its backslash, as in `\u{9b}`.
const MOST_AFTER_BACKSLASH: usize = 5;

/// The priority of a line.
#[derive(Clone, Copy)]
pub enum Priority {
    /// The daemon can't run.
    Error,
    /// Something was refused or lost, and the daemon goes on.
    Warning,
    /// The daemon's state has changed.
    Notice,
}

impl Priority {
    /// The prefix of a line, with the number of the priority.
    fn prefix(self) -> &'static str {
        match self {
            Priority::Error => "<3>",
            Priority::Warning => "<4>",
            Priority::Notice => "<5>",
        }
    }
}

/// The log. A line of more than 4,096 bytes is cut, and then ends in ` ...`. A line for which there is no memory, or
/// which standard error doesn't take at once, is lost and counted.
#[derive(Clone, Copy)]
pub struct Log {
    lost: u64,
}

impl Log {
    /// A log that has lost no line yet.
    pub fn new() -> Log {
        Log { lost: 0 }
    }

    /// The number of lines lost.
    pub fn lost(&self) -> u64 {
        self.lost
    }

    /// Logs the reason why the program refuses to run.
    pub fn refuse(&mut self, rt: &HostRuntime, why: &str) {
        self.write(rt, Priority::Error, why);
    }

    /// Logs a line, or counts it as lost if there was no memory for it.
    pub fn say(&mut self, rt: &HostRuntime, priority: Priority, line: Result<String, AllocError>) {
        match line {
            Ok(line) => self.write(rt, priority, &line),
            Err(_refused) => self.lost = self.lost.saturating_add(1),
        }
    }

    fn write(&mut self, rt: &HostRuntime, priority: Priority, line: &str) {
        if self.try_to_write(rt, priority, line).is_none() {
            self.lost = self.lost.saturating_add(1);
        }
    }

    /// Writes a line with its control characters escaped, cut if it is too long. Never waits: None if standard error
    /// doesn't take the line now, or there is no memory.
    fn try_to_write(&mut self, rt: &HostRuntime, priority: Priority, line: &str) -> Option<()> {
        let line = printable(rt.alloc(), line).ok()?;
        let (text, end) = fitted(&line);
        let whole = format!(in rt.alloc(); "{}{text}{end}\n", priority.prefix()).ok()?;
        if !is_ready() {
            return None;
        }
        let written = rt.stderr().write(whole.as_bytes()).ok()?;
        if written < whole.len() {
            return None;
        }
        Some(())
    }
}

/// The text that a line has room for, and what follows it: the whole text and nothing, or its first characters and
/// ` ...`. No escape of a control character is cut in two.
fn fitted(text: &str) -> (&str, &'static str) {
    if text.len() <= MOST_TEXT {
        return (text, "");
    }
    let front = &text[..text.floor_char_boundary(MOST_FRONT)];
    match front.rsplit_once('\\') {
        Some((before, after)) if after.len() < MOST_AFTER_BACKSLASH => (before, CUT),
        _ => (front, CUT),
    }
}

/// Whether standard error takes a line without waiting.
fn is_ready() -> bool {
    let mut asked = [pollfd {
        fd: STDERR,
        events: POLLOUT,
        revents: 0,
    }];
    poll(&mut asked, 0) == 1 && asked[0].revents == POLLOUT
}
