//! The system's clocks: seconds and milliseconds since 1970, and the milliseconds since the daemon started.

use ddt_cache::{LAST_MOMENT, Moment};
use ddt_daemon_text::Message;
use ddt_registrar::Clock;
use std::time::{Duration, Instant, SystemTime};

/// The time since 1970; zero if the system has no time.
fn since_1970(rt: &HostRuntime) -> Duration {
    match SystemTime::now(rt) {
        Ok(now) => now
            .duration_since(SystemTime::UNIX_EPOCH)
            .unwrap_or(Duration::ZERO),
        Err(_) => Duration::ZERO,
    }
}

/// The seconds since 1970; 0 if the system has no time.
pub fn seconds(rt: &HostRuntime) -> u64 {
    since_1970(rt).as_secs()
}

/// The milliseconds since 1970; 0 if the system has no time.
fn wall_millis(rt: &HostRuntime) -> u64 {
    since_1970(rt).as_millis().min(u64::MAX as u128) as u64
}

/// The clock of moments: the milliseconds since the daemon started.
#[derive(Clone, Copy)]
pub struct Moments {
    start: Instant,
    last: Moment,
}

impl Moments {
    /// A clock for which now is moment 0. Fails with a message if the system has no monotonic time.
    pub fn new(rt: &HostRuntime) -> Result<Moments, Message> {
        match Instant::now(rt) {
            Ok(start) => Ok(Moments {
                start,
                last: Moment::at(0).unwrap(),
            }),
            Err(_) => Err(format!(in rt.alloc(); "the system tells no time")),
        }
    }

    /// The current moment; the last one if the system has no time.
    pub fn now(&mut self, rt: &HostRuntime) -> Moment {
        if let Ok(elapsed) = self.start.elapsed(rt) {
            let millis = elapsed.as_millis().min(LAST_MOMENT as u128) as u64;
            self.last = Moment::at(millis).unwrap_or(self.last);
        }
        self.last
    }

    /// The current time by this clock, and since 1970.
    pub fn clock(&mut self, rt: &HostRuntime) -> Clock {
        Clock {
            moment: self.now(rt).millis(),
            wall: wall_millis(rt),
        }
    }
}

/// Sleeps for 10 milliseconds.
pub fn pause(rt: &HostRuntime) {
    let _slept = std::thread::sleep(rt, Duration::from_millis(10));
}
