//! A rate limit for lines of the log.

/// The most lines in a period.
const MOST_LINES: u32 = 5;

/// The length of a period, in milliseconds.
const PERIOD: u64 = 10_000;

/// The rate limit for one kind of line: at most five in ten seconds.
#[derive(Clone, Copy)]
pub struct LogRateLimit {
    /// The start of the period, in milliseconds.
    begin: u64,
    /// The lines logged in the period.
    lines: u32,
    /// The number of events in the period without a line.
    unsaid: u64,
}

impl LogRateLimit {
    /// A limit with no line logged yet.
    pub fn new() -> LogRateLimit {
        LogRateLimit {
            begin: 0,
            lines: 0,
            unsaid: 0,
        }
    }

    /// Counts `more` events that get no line.
    pub fn miss(&mut self, more: u64) {
        self.unsaid = self.unsaid.saturating_add(more);
    }

    /// Whether one more line may be logged. If not, the event is counted.
    pub fn may_say(&mut self) -> bool {
        if self.lines >= MOST_LINES {
            self.miss(1);
            return false;
        }
        self.lines = self.lines.saturating_add(1);
        true
    }

    /// Starts a new period once ten seconds have passed. Returns the number of events without a line in the old one, if
    /// there was any. `now` is in milliseconds.
    pub fn end_period(&mut self, now: u64) -> Option<u64> {
        if now.saturating_sub(self.begin) < PERIOD {
            return None;
        }
        let unsaid = self.unsaid;
        *self = LogRateLimit::new();
        self.begin = now;
        if unsaid > 0 { Some(unsaid) } else { None }
    }
}
