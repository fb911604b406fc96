//! Retries and failover of a resolver: how long it waits for a server, and which servers it skips because they are
//! silent. No answer depends on it: a lookup that is hastened at any moment still answers rightly.

use crate::log::{Log, Priority};
use crate::sockets::ResolverWires;
use ddt_cache::{Entry, Moment};
use ddt_daemon::{CountedWires, MapResolver};
use ddt_path::Locator;
use ddt_resolver::Pending;
use ddt_sockets::nonces::RandomNonces;
use ddt_sockets::{Wires, ip_of};
use ddt_trie::TrieMap;
use rand_chacha::ChaCha20Rng;

/// The near wires of a resolver: they give each request a random nonce, and keep the state of each server.
pub type NearWires = RandomNonces<CountedWires<ResolverWires>, ChaCha20Rng>;

/// The milliseconds between retries of a request, after the first wait.
const NEXT_WAIT: u64 = 300;

/// The most lookups handled in a round.
const MOST_LOOKUPS: u32 = 4096;

/// A Map-Resolver and its wires at a moment, to handle the timeouts of a round.
#[derive(Drop)]
pub struct TimeoutRound<'a, V: Wires> {
    pub resolver: &'a mut MapResolver<TrieMap<Entry>>,
    pub near: &'a mut NearWires,
    pub far: &'a mut V,
    pub me: Locator,
    pub now: Moment,
}

impl<'a, V: Wires> TimeoutRound<'a, V> {
    /// Retries each lookup whose request couldn't be sent, or whose server is overdue.
    pub fn retry_overdue(&mut self) {
        // The nonce of the last request that was sent to a silent server because no other server was left.
        let mut forced = None;
        for _lookup in 0..MOST_LOOKUPS {
            if let Some(nonce) = self.near.take_unsent() {
                if forced != Some(nonce) && self.pass_over(nonce) {
                    forced = Some(nonce);
                }
            } else if let Some(overdue) = self.near.take_overdue() {
                self.retry_without_reply(overdue.nonce);
            } else {
                return;
            }
        }
    }

    /// Handles a request that couldn't be sent or whose server is silent. Asks another server of the set, or the same
    /// one if no other is left. Returns whether it asked the same one.
    fn pass_over(&mut self, nonce: u64) -> bool {
        let Some((_ticket, lookup)) = self.resolver.resolver().lookup_with(nonce) else {
            return false;
        };
        if self.has_another(&lookup) {
            self.hasten(nonce);
            return false;
        }
        self.send_anyway(nonce);
        true
    }

    /// Handles a request whose reply is overdue: asks another server of the set, or the same one again.
    fn retry_without_reply(&mut self, nonce: u64) {
        let Some((_ticket, lookup)) = self.resolver.resolver().lookup_with(nonce) else {
            return;
        };
        if self.has_another(&lookup) {
            self.ask_next_server(&lookup);
            return;
        }
        self.send_anyway(nonce);
        self.near.restart_timer(nonce, NEXT_WAIT);
    }

    /// Has a lookup ask the next server of its set.
    fn ask_next_server(&mut self, lookup: &Pending) {
        if !lookup.is_retry {
            // The second request to this server has the next nonce.
            let second = self.resolver.resolver().next_nonce();
            self.hasten(lookup.nonce);
            self.hasten(second);
        } else {
            self.hasten(lookup.nonce);
        }
    }

    /// Sends the request with this nonce again, even to a silent server.
    fn send_anyway(&mut self, nonce: u64) {
        self.near.pass_over_silent(false);
        self.resolver.resend(self.near, self.me, nonce);
        self.near.pass_over_silent(true);
    }

    /// Whether a later server of the set isn't silent.
    fn has_another(&self, lookup: &Pending) -> bool {
        let servers = self.near.servers();
        let now = self.now.millis();
        lookup
            .servers
            .as_slice()
            .iter()
            .skip(lookup.server_index.saturating_add(1))
            .any(|server| !servers.is_silent(*server, now))
    }

    fn hasten(&mut self, nonce: u64) {
        self.resolver
            .hasten(self.near, self.far, self.me, self.now, nonce);
    }
}

/// Logs which servers have become silent, and which answer again.
pub fn log_silence(rt: &HostRuntime, near: &mut NearWires, log: &mut Log) {
    for _server in 0..MOST_LOOKUPS {
        let Some(change) = near.take_silence_change() else {
            return;
        };
        let server = ip_of(change.server);
        if change.is_silent {
            let line = format!(in rt.alloc(); "{server} is silent");
            log.say(rt, Priority::Warning, line);
        } else {
            let line = format!(in rt.alloc(); "{server} answers again");
            log.say(rt, Priority::Notice, line);
        }
    }
}

/// The number of silent servers.
pub fn silent_count(near: &NearWires, now: Moment) -> u64 {
    let millis = now.millis();
    let rows = near.servers().as_slice().iter();
    rows.filter(|row| row.is_silent(millis)).count() as u64
}
