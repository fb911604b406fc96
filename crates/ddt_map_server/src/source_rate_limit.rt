//! The limit of Map-Registers from a source: 1,000 in a second.

ghost use Rattle.std.specs.Prelude.{◌≡◌, ◌<◌, replicate};
ghost use Rattle.ddt_map_server.specs.Rates.{slots, slot_of as slot_of_source, counts_in, is_admitted, after_one};

use ddt_path::Locator;
use std::marker::Model;

/// The number of slots in which sources are counted.
const SLOTS: usize = 1_021;
/// The most Map-Registers in a second from the sources of a slot.
const MOST_A_SECOND: u32 = 1_000;
/// A second, in milliseconds.
const SECOND: u64 = 1_000;

/// The number of Map-Registers in the current second, by source; 1,000 of a source are admitted. Sources are counted in
/// 1,021 slots, so two sources may share a slot. The addresses of an IPv6 prefix of 64 bits always share one.
#[derive(Debug, Drop)]
pub struct SourceRateLimit {
    second: u64,
    counts: [u32; SLOTS],
}

impl Model for SourceRateLimit {
    ghost use Rattle.ddt_map_server.specs.Rates.{Rates};

    ghost Value = { Rates };

    ghost view = { λ r. record { second = r.second; counts = r.counts } };
}

/// The slot of a source.
fn slot_of(source: Locator) -> usize
    ensures slot { result ≡ slot_of_source source }
    ensures there { result < slots }
{
    match source {
        Locator::V4(address) => address as usize % SLOTS,
        Locator::V6(address) => ((address >> 64) % SLOTS as u128) as usize,
    }
}

impl SourceRateLimit {
    /// A limit with no Map-Register counted.
    pub fn new() -> SourceRateLimit
        ensures { result ≡ record { second = 0; counts = replicate slots 0 } }
    {
        SourceRateLimit {
            second: 0,
            counts: [0; SLOTS],
        }
    }

    /// Begins a second with counts of 0, unless it has begun.
    fn begin(&mut self, second: u64)
        ensures { self.new ≡ record { second = second; counts = counts_in second self.old } }
    {
        if self.second != second {
            self.second = second;
            self.counts = [0; SLOTS];
        }
    }

    /// Whether a Map-Register from a source is admitted at a moment, in milliseconds. An admitted one is counted.
    pub fn admits(&mut self, source: Locator, moment: u64) -> bool
        ensures admitted { result ≡ is_admitted moment source self.old }
        ensures counted { self.new ≡ after_one moment source self.old }
    {
        self.begin(moment / SECOND);
        let slot = slot_of(source);
        if self.counts[slot] >= MOST_A_SECOND {
            return false;
        }
        self.counts[slot] += 1;
        true
    }
}
