//! A progress bar on a terminal.

use std::io::{IsTerminal, Stderr, Write};
use std::time::{Clock, Duration, Instant};

/// The length of the bar, in characters.
const SIGNS: u64 = 40;

/// A progress bar on standard error, redrawn at most once a second; nothing if that is no terminal.
#[derive(Drop)]
pub struct ProgressBar {
    err: Stderr,
    done: u64,
    all: u64,
    /// The time of the last drawing; None if there is no bar.
    drawn: Option<Instant>,
    /// Whether the bar is on the terminal now.
    is_seen: bool,
}

impl ProgressBar {
    /// Returns a bar for `all` questions. There is none if standard error is no terminal, or if the system has no time.
    pub fn new(rt: &HostRuntime, all: u64) -> ProgressBar {
        let err = rt.stderr();
        let is_shown = err.is_terminal();
        let now = Instant::now(rt).ok();
        ProgressBar {
            err,
            done: 0,
            all,
            drawn: now.filter(|_now| is_shown),
            is_seen: false,
        }
    }

    /// Adds questions that are done.
    pub fn add(&mut self, rt: &HostRuntime, questions: u64) {
        self.done = self.done.saturating_add(questions).min(self.all);
        let (Some(drawn), Ok(now)) = (self.drawn, Instant::now(rt)) else {
            return;
        };
        if now.duration_since(drawn) >= Duration::from_secs(1) {
            self.drawn = Some(now);
            self.draw();
        }
    }

    /// Draws the bar over the line.
    fn draw(&mut self) {
        let full = signs(self.done, self.all);
        let _ = self.err.write_all(b"\r[");
        for sign in 0..SIGNS {
            let _ = self.err.write_all(if sign < full { b"#" } else { b"." });
        }
        let _ = write!(self.err, "] {} of {}", self.done, self.all);
        self.is_seen = true;
    }

    /// Clears the bar, so that a line can be printed in its place.
    pub fn clear(&mut self) {
        if self.is_seen {
            // Erases the line from its first column.
            let _ = self.err.write_all(b"\r\x1b[K");
            self.is_seen = false;
        }
    }
}

/// Returns the number of full characters of a bar, if `done` of `all` are done.
fn signs(done: u64, all: u64) -> u64 {
    match done.checked_mul(SIGNS) {
        Some(parts) => parts.checked_div(all).unwrap_or(0),
        None => 0,
    }
}
