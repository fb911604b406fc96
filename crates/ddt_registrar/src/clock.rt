//! The current time by two clocks, so that a deadline outlives the process.

/// A day, in milliseconds: the longest that a registration lasts.
const DAY: u64 = 86_400_000;

/// The current time by both clocks.
#[derive(Clone, Copy)]
pub struct Clock {
    /// The milliseconds since the daemon started.
    pub moment: u64,
    /// The milliseconds since 1970.
    pub wall: u64,
}

impl Clock {
    /// The wall time at a moment, in milliseconds since 1970; now if the moment has passed.
    pub fn wall_at(self, moment: u64) -> u64 {
        self.wall.saturating_add(moment.saturating_sub(self.moment))
    }

    /// The moment of a wall time in milliseconds since 1970; now if it has passed, and at most a day ahead.
    pub fn moment_at(self, wall: u64) -> u64 {
        let left = wall.saturating_sub(self.wall).min(DAY);
        self.moment.saturating_add(left)
    }
}
