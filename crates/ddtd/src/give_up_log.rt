//! Logs lookups that gave up, with the reason and the zone, at a limited rate.

use crate::log::{Log, Priority};
use ddt_cache::{Entry, Moment};
use ddt_daemon::{GivenUpLookup, MapResolver};
use ddt_daemon_text::{LogRateLimit, Message, gave_up_text};
use ddt_trie::TrieMap;

/// The most lookups logged in a round.
const MOST_LOOKUPS: u32 = 64;

/// Logs the lookups that gave up: at most five in ten seconds, and then the number of the others.
pub fn log_give_ups(
    rt: &HostRuntime,
    said: &mut LogRateLimit,
    resolver: &mut MapResolver<TrieMap<Entry>>,
    now: Moment,
    log: &mut Log,
) {
    said.miss(resolver.take_missed_give_ups());
    if let Some(unsaid) = said.end_period(now.millis()) {
        let line = format!(in rt.alloc(); "{unsaid} more lookups gave up");
        log.say(rt, Priority::Warning, line);
    }
    for _lookup in 0..MOST_LOOKUPS {
        let Some(gave_up) = resolver.take_give_up() else {
            return;
        };
        if said.may_say() {
            let line = line_of(rt, resolver, now, gave_up);
            log.say(rt, Priority::Warning, line);
        }
    }
}

/// The line for a lookup, with the longest cached zone for it.
fn line_of(
    rt: &HostRuntime,
    resolver: &mut MapResolver<TrieMap<Entry>>,
    now: Moment,
    gave_up: GivenUpLookup,
) -> Message {
    let GivenUpLookup { xeid, why } = gave_up;
    let (zone, entry) = resolver.longest(now, xeid);
    gave_up_text(rt.alloc(), xeid, why, zone, entry.servers.as_slice())
}
