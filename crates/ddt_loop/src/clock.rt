//! The clocks of a running resolver.

ghost use Rattle.std.specs.Prelude.{◌≡◌, ◌+◌, ℕ, min, List, [], ◌∷◌, Option, None};
ghost use Rattle.ddt_cache.specs.Moment.{last_moment};
ghost use Rattle.ddt_sockets.specs.Calls.{RecordsCalls};

use ddt_cache::{LAST_MOMENT, Moment};
use std::time::Instant;
use std::{io, time};

/// A clock. Its readings are arbitrary: it may stop, jump or go back.
pub trait Clock {
    /// The moments read so far, in order; None for a clock that doesn't record them, or no longer does.
    ghost readings: { Self → Option (List ℕ) } = { λ _. None };

    /// Reads the current moment, in milliseconds.
    fn now(&mut self) -> Moment
        ensures { RecordsCalls (readings self.old) (result ∷ []) (readings self.new) };
}

/// A clock that always reads the same moment.
#[derive(Clone, Copy, Debug)]
pub struct FixedClock {
    /// The moment of each reading.
    pub at: Moment,
}

impl Clock for FixedClock {
    fn now(&mut self) -> Moment
        ensures reads { RecordsCalls None (result ∷ []) None }
        ensures at { result ≡ self.old.at }
        ensures stays { self.new ≡ self.old }
    {
        self.at
    }
}

/// A clock that advances by a step at each reading, up to the last moment.
#[derive(Clone, Copy, Debug)]
pub struct SteppingClock {
    /// The moment of the next reading.
    pub next: Moment,
    /// The difference between two readings, in milliseconds.
    pub step: u64,
}

impl Clock for SteppingClock {
    fn now(&mut self) -> Moment
        ensures reads { RecordsCalls None (result ∷ []) None }
        ensures at { result ≡ self.old.next }
        ensures next { self.new.next ≡ min (self.old.next + self.old.step) last_moment }
        ensures step { self.new.step ≡ self.old.step }
    {
        let now = self.next;
        let next = now.millis().saturating_add(self.step).min(LAST_MOMENT);
        if let Some(next) = Moment::at(next) {
            self.next = next;
        }
        now
    }
}

/// The system's clock: the milliseconds since its creation, read from anything that has the system's time, as a
/// reference to the runtime. The system's time is trusted. A reading that fails returns the previous moment.
#[derive(Drop)]
pub struct SystemClock<T: time::Clock + Drop> {
    /// The source of the system's time.
    system: T,
    start: Instant,
    now: Moment,
}

impl<T: time::Clock + Drop> SystemClock<T> {
    /// Creates a clock that starts at 0. Fails if the system's time can't be read.
    pub fn new(system: T) -> io::Result<SystemClock<T>> {
        let start = Instant::now(&system)?;
        Ok(SystemClock {
            system,
            start,
            now: Moment::at(0).unwrap(),
        })
    }
}

impl<T: time::Clock + Drop> Clock for SystemClock<T> {
    fn now(&mut self) -> Moment {
        if let Ok(elapsed) = self.start.elapsed(&self.system) {
            let millis = elapsed.as_millis().min(LAST_MOMENT as u128) as u64;
            self.now = Moment::at(millis).unwrap_or(self.now);
        }
        self.now
    }
}
