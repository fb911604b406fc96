//! How fast each server answers, and whether it does. It decides how long a reply is waited for, and which server is
//! passed over; no answer depends on it.

ghost use Rattle.std.specs.Prelude.{◌≤◌, ◌<◌, length, IfSome, vec_len};

use ddt_path::Locator;
use std::alloc::Global;

/// The most servers that are known; one more replaces the one that was heard longest ago.
pub const MOST_SERVERS: usize = 1024;

/// The shortest wait for a reply, in milliseconds.
const LEAST_WAIT: u64 = 200;
/// The longest wait for a reply, in milliseconds.
const MOST_WAIT: u64 = 2000;
/// The wait for a server that never replied, in milliseconds.
const UNKNOWN_WAIT: u64 = 500;
/// The fewest overdue requests in a row after which a server may be silent.
const FEWEST_UNANSWERED: u32 = 3;
/// The shortest time between two requests to a silent server, in milliseconds.
const PROBE_INTERVAL: u64 = 10_000;

/// A round-trip time as in RFC 6298, section 2.
#[derive(Clone, Copy, Debug, PartialEq, Eq)]
pub struct RoundTrip {
    /// The smoothed round-trip time (SRTT), in milliseconds.
    pub smoothed: u64,
    /// Its variation (RTTVAR), in milliseconds.
    pub variation: u64,
}

impl RoundTrip {
    /// The round-trip time after the first measurement, in milliseconds.
    fn first(measured: u64) -> RoundTrip {
        RoundTrip {
            smoothed: measured,
            variation: measured / 2,
        }
    }

    /// The round-trip time after one more measurement, in milliseconds.
    fn with(self, measured: u64) -> RoundTrip {
        let apart = self.smoothed.abs_diff(measured);
        RoundTrip {
            smoothed: self.smoothed.saturating_mul(7).saturating_add(measured) / 8,
            variation: self.variation.saturating_mul(3).saturating_add(apart) / 4,
        }
    }
}

/// What is known of a server.
#[derive(Clone, Copy, Debug, PartialEq, Eq)]
pub struct Server {
    pub locator: Locator,
    /// Its round-trip time; None before its first reply.
    pub round_trip: Option<RoundTrip>,
    /// The number of overdue requests in a row.
    pub unanswered: u32,
    /// The moment at which it was last heard, in milliseconds.
    pub heard: Option<u64>,
    /// The moment of the last request to it, in milliseconds.
    pub asked: Option<u64>,
    /// Whether the log says that it is silent.
    pub is_logged_silent: bool,
}

impl Server {
    /// Creates the record of a server of which nothing is known.
    fn new(locator: Locator) -> Server {
        Server {
            locator,
            round_trip: None,
            unanswered: 0,
            heard: None,
            asked: None,
            is_logged_silent: false,
        }
    }

    /// The wait for the reply to a first request, in milliseconds: SRTT + 4 * RTTVAR, from 200 to 2,000, and 500 before
    /// its first reply. It is doubled after one overdue request, and quadrupled after two or more in a row, to at most
    /// 2,000.
    pub fn first_wait(&self) -> u64
        ensures least { 200 ≤ result }
        ensures most { result ≤ 2000 }
    {
        let once = self.usual_wait();
        let doubled = match self.unanswered {
            0 => once,
            1 => 2 * once,
            _more => 4 * once,
        };
        doubled.min(MOST_WAIT)
    }

    /// The wait if the server has replied to the last request, in milliseconds.
    fn usual_wait(&self) -> u64
        ensures least { 200 ≤ result }
        ensures most { result ≤ 2000 }
    {
        match self.round_trip {
            Some(trip) => trip
                .smoothed
                .saturating_add(trip.variation.saturating_mul(4))
                .clamp(LEAST_WAIT, MOST_WAIT),
            None => UNKNOWN_WAIT,
        }
    }

    /// Whether it is silent at a moment, in milliseconds: at least three requests in a row were overdue, and nothing
    /// was heard from it for at least twice its usual wait.
    pub fn is_silent(&self, now: u64) -> bool {
        self.unanswered >= FEWEST_UNANSWERED && self.is_unheard(now)
    }

    /// Whether nothing was heard from it for at least twice its usual wait.
    fn is_unheard(&self, now: u64) -> bool {
        match self.heard {
            Some(heard) => now.saturating_sub(heard) >= 2 * self.usual_wait(),
            None => true,
        }
    }

    /// Whether it is silent at a moment, in milliseconds, and a request was sent to it less than 10,000 ms ago.
    pub fn is_passed_over(&self, now: u64) -> bool {
        match self.asked {
            Some(asked) => self.is_silent(now) && now.saturating_sub(asked) < PROBE_INTERVAL,
            None => false,
        }
    }
}

/// A server that became silent, or answers again.
#[derive(Clone, Copy, Debug, PartialEq, Eq)]
pub struct SilenceChange {
    pub server: Locator,
    /// Whether it is silent now.
    pub is_silent: bool,
}

/// What is known of each server.
#[derive(Debug, Drop)]
pub struct Servers {
    rows: Vec<Server>,
}

impl Servers {
    /// Creates an empty table.
    pub fn new(alloc: Global) -> Servers {
        Servers {
            rows: Vec::new(alloc),
        }
    }

    /// The known servers, in no particular order.
    pub fn as_slice(&self) -> &[Server] {
        self.rows.as_slice()
    }

    /// What is known of a server.
    pub fn get(&self, server: Locator) -> Option<Server> {
        let place = place_of(self.rows.as_slice(), server)?;
        Some(self.rows[place])
    }

    /// The wait for the reply to a first request, in milliseconds: 500 for a server that isn't known.
    pub fn first_wait(&self, server: Locator) -> u64
        ensures least { 200 ≤ result }
        ensures most { result ≤ 2000 }
    {
        match self.get(server) {
            Some(row) => row.first_wait(),
            None => UNKNOWN_WAIT,
        }
    }

    /// Whether a server is silent at a moment, in milliseconds; an unknown server isn't.
    pub fn is_silent(&self, server: Locator, now: u64) -> bool {
        match self.get(server) {
            Some(row) => row.is_silent(now),
            None => false,
        }
    }

    /// Whether a server is silent at a moment, in milliseconds, and was asked less than 10,000 ms ago. So one request
    /// in ten seconds tests whether it answers again.
    pub fn is_passed_over(&self, server: Locator, now: u64) -> bool {
        match self.get(server) {
            Some(row) => row.is_passed_over(now),
            None => false,
        }
    }

    /// Notes a request to a server at a moment, in milliseconds. If out of memory nothing is noted, here and below.
    pub fn note_sent(&mut self, server: Locator, now: u64) {
        if let Some(place) = self.place_for(server) {
            self.rows[place].asked = Some(now);
        }
    }

    /// Notes a reply of a server at a moment, and its round-trip time, both in milliseconds.
    pub fn note_reply(&mut self, server: Locator, now: u64, round_trip: u64) {
        if let Some(place) = self.place_for(server) {
            let row = &mut self.rows[place];
            row.round_trip = Some(match row.round_trip {
                Some(earlier) => earlier.with(round_trip),
                None => RoundTrip::first(round_trip),
            });
            row.unanswered = 0;
            row.heard = Some(now);
        }
    }

    /// Notes that a reply of a server is overdue.
    pub fn note_overdue(&mut self, server: Locator) {
        if let Some(place) = self.place_for(server) {
            let row = &mut self.rows[place];
            row.unanswered = row.unanswered.saturating_add(1);
        }
    }

    /// Returns a server that became silent, or answers again, at this moment, in milliseconds, and that the log doesn't
    /// report so yet. From then on it is taken as logged.
    pub fn take_silence_change(&mut self, now: u64) -> Option<SilenceChange> {
        let place = changed_place(self.rows.as_slice(), now)?;
        let row = &mut self.rows[place];
        row.is_logged_silent = !row.is_logged_silent;
        Some(SilenceChange {
            server: row.locator,
            is_silent: row.is_logged_silent,
        })
    }

    /// The index of a server's record, which is created if there is none; None if out of memory.
    fn place_for(&mut self, server: Locator) -> Option<usize>
        ensures { IfSome result (λ place. place < vec_len self.new.rows) }
    {
        if let Some(place) = place_of(self.rows.as_slice(), server) {
            return Some(place);
        }
        if self.rows.len() >= MOST_SERVERS {
            let place = oldest_place(self.rows.as_slice());
            self.rows[place] = Server::new(server);
            return Some(place);
        }
        let place = self.rows.len();
        self.rows.push(Server::new(server)).ok()?;
        Some(place)
    }
}

/// The index of a server's record.
fn place_of(rows: &[Server], server: Locator) -> Option<usize>
    ensures { IfSome result (λ place. place < length rows.now) }
{
    rows.iter().position(|row| row.locator == server)
}

/// The index of the server that was heard longest ago, or never.
fn oldest_place(rows: &[Server]) -> usize
    requires { 0 < length rows.now }
    ensures { result < length rows.now }
{
    let mut oldest = 0;
    for (place, row) in rows.iter().enumerate() {
        if row.heard < rows[oldest].heard {
            oldest = place;
        }
    }
    oldest
}

/// The index of a server whose silence differs from what the log reports.
fn changed_place(rows: &[Server], now: u64) -> Option<usize>
    ensures { IfSome result (λ place. place < length rows.now) }
{
    rows.iter()
        .position(|row| row.is_silent(now) != row.is_logged_silent)
}
