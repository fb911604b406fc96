//! How far a long answer is.

ghost use Rattle.std.specs.Prelude.{◌≡◌};

use std::io;
use std::io::{Stderr, Write};
use std::time::{Clock, Duration, Instant};

/// Lines between two looks at the clock.
const LINES_A_LOOK: u64 = 4096;

/// A writer that says on standard error, once a second, how many lines it was given; or that says nothing.
#[derive(Drop)]
pub struct Progress<W, T> {
    out: W,
    runtime: T,
    err: Stderr,
    /// When it last said so; None where it says nothing.
    told: Option<Instant>,
    lines: u64,
    /// The number of lines at which it looks at the clock again.
    next_look: u64,
    /// Whether it has said anything.
    is_begun: bool,
}

impl<W: Write + Drop, T: Clock + Drop> Progress<W, T> {
    /// A writer in front of another one. Where the system tells no time, it says nothing.
    pub fn new(out: W, runtime: T, err: Stderr, is_shown: bool) -> Progress<W, T> {
        let now = Instant::now(&runtime).ok();
        Progress {
            out,
            runtime,
            err,
            told: now.filter(|_now| is_shown),
            lines: 0,
            next_look: LINES_A_LOOK,
            is_begun: false,
        }
    }

    /// Says the number of all lines, if it has said any.
    pub fn finish(&mut self) {
        if self.is_begun {
            let _ = writeln!(self.err, "{} lines", self.lines);
        }
    }

    /// Counts the lines of a text, and says how many there are where a second has passed.
    fn note(&mut self, text: &[u8])
        ensures { self.new.out ≡ self.old.out }
    {
        let ends = text.iter().filter(|byte| **byte == b'\n').count() as u64;
        self.lines = self.lines.saturating_add(ends);
        if self.lines >= self.next_look {
            self.next_look = self.lines.saturating_add(LINES_A_LOOK);
            self.tell();
        }
    }

    /// Says how many lines there are, where a second has passed since it last did.
    fn tell(&mut self)
        ensures { self.new.out ≡ self.old.out }
    {
        let (Some(told), Ok(now)) = (self.told, Instant::now(&self.runtime)) else {
            return;
        };
        if now.duration_since(told) >= Duration::from_secs(1) {
            self.told = Some(now);
            // What is said next begins where this does, and covers it.
            let _ = write!(self.err, "{} lines\r", self.lines);
            self.is_begun = true;
        }
    }
}

impl<W: Write + Drop, T: Clock + Drop> Write for Progress<W, T> {
    ghost contents = { λ progress. W.contents progress.out };

    fn write(&mut self, buf: &[u8]) -> io::Result<usize> {
        let count = self.out.write(buf)?;
        if self.told.is_some() {
            self.note(&buf[..count]);
        }
        Ok(count)
    }

    fn flush(&mut self) -> io::Result<()> {
        self.out.flush()
    }
}
