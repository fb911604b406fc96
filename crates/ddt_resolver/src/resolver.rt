//! The resolver: its cache, its pending lookups, and its plain calls (RFC 8111, section 7.3).

ghost use Rattle.std.specs.Prelude.{◌≡◌, ◌<◌, ◌≤◌, ℕ, length, None, IfOk, IfSome, IfNone};
ghost use Rattle.std.specs.FinMap as map;
ghost use Rattle.ddt_cache.specs.Inside.{AreInside};
ghost use Rattle.ddt_cache.specs.Saved.{most_live_entries};
ghost use Rattle.ddt_resolver.specs.State.{fresh, moved, dropped, forgotten};
ghost use Rattle.ddt_resolver.specs.Order.{IsStateInOrder};
ghost use Rattle.ddt_resolver.specs.Table.{IsLeastDeadline};

use crate::results::{AskError, Asked, Heard, Ticket};
use crate::table::Table;
use ddt_cache::{Cache, Entry, Moment};
use ddt_path::{Locator, LocatorSet, Prefix, Xeid};
use ddt_trie::PrefixMap;
use std::alloc::{AllocError, Global};
use std::marker::Model;

/// A resolver: its cache of referrals, and its pending lookups. Contracts see its state.
#[derive(Drop)]
pub struct Resolver<M: PrefixMap<Entry>> {
    /// The cache, with the time and the root's servers.
    pub(crate) cache: Cache<M>,
    /// The pending lookups, and the nonce of the next request.
    pub(crate) table: Table,
    /// Its own address.
    pub(crate) me: Locator,
    /// Where it takes its memory from.
    pub(crate) alloc: Global,
}

impl<M: PrefixMap<Entry>> Model for Resolver<M> {
    ghost use Rattle.ddt_path.specs.contracts.locator.Locator as locator;
    ghost use Rattle.ddt_cache.specs.contracts.cache_entry.Entry as entry;
    ghost use Rattle.ddt_resolver.specs.contracts.pending.Pending as pending;
    ghost use Rattle.ddt_resolver.specs.State.{State, state_code};
    ghost use Rattle.ddt_resolver.specs.Order.{IsStateInOrder};

    ghost Value = { State };

    ghost coded = { state_code entry.the_row.coded locator.the_row.coded pending.the_row.coded };

    ghost view = { λ r. record { known = r.cache; me = r.me; next = r.table.next; pending = r.table.lookups } };

    ghost invariant = { λ r.
        IsStateInOrder (record { known = r.cache; me = r.me; next = r.table.next; pending = r.table.lookups }) };
}

impl<M: PrefixMap<Entry>> Resolver<M> {
    /// Creates a resolver at moment 0 with no lookup pending. Its cache has only the root's servers, at least one. Its
    /// address is `me`, and its first request gets the nonce `seed`. It takes its memory from `alloc` as it grows.
    pub fn new(alloc: Global, roots: LocatorSet, me: Locator, seed: u64) -> Resolver<M>
        requires { 0 < length roots }
        ensures { result ≡ fresh roots me seed }
    {
        // The slice shows the proof that the set holds at most 8 locators.
        let _few = roots.as_slice();
        Resolver {
            cache: Cache::new(alloc, roots),
            table: Table::new(alloc, seed),
            me,
            alloc,
        }
    }

    /// The time: the greatest moment given to a call, 0 at first.
    pub fn time(&self) -> Moment
        ensures { result ≡ self.now.known.time }
    {
        self.cache.time()
    }

    /// Its own address.
    pub fn me(&self) -> Locator
        ensures { result ≡ self.now.me }
    {
        self.me
    }

    /// Where it takes its memory from.
    pub fn alloc(&self) -> Global {
        self.alloc
    }

    /// The number of records in the cache, as `Cache::held` counts them.
    pub fn remembered(&self) -> usize
        ensures most { result ≤ most_live_entries }
        ensures least { map.len self.now.known.live ≤ result }
    {
        self.cache.held()
    }

    /// The cache entries of the prefix `within` and of those inside it, as `Cache::inside` returns them. Fails only if
    /// out of memory, or if memory ran out earlier for the list of their ends.
    pub fn inside(&self, within: Prefix) -> Result<Vec<(Prefix, Entry)>, AllocError>
        ensures { IfOk result (λ rows. AreInside self.now.known within rows.items) }
    {
        self.cache.inside(self.alloc, within)
    }

    /// The number of pending lookups.
    pub fn pending(&self) -> usize
        ensures { result ≡ map.len self.now.pending }
    {
        self.table.len()
    }

    /// The least deadline of the pending lookups, in milliseconds; None if no lookup is pending. Until then a tick
    /// returns Nothing.
    pub fn next_deadline(&self) -> Option<u64>
        ensures least { IfSome result (IsLeastDeadline self.now.pending) }
        ensures none { IfNone result ((t : ℕ) → map.get self.now.pending t ≡ None) }
    {
        self.table.next_deadline()
    }

    /// Does nothing; its contract is what holds of every resolver.
    pub fn in_order(&self)
        ensures { IsStateInOrder self.now }
    {
        let _me = self.me;
    }

    /// Ends a lookup without an answer, and returns whether it was pending.
    pub fn cancel(&mut self, ticket: Ticket) -> bool
        ensures dropped { self.new ≡ dropped self.old ticket }
        ensures there { result ≡ map.contains_key self.old.pending ticket }
    {
        self.table.cancel(ticket.number())
    }

    /// Forgets the cache entry of a prefix, and returns whether a live one was there. Pending lookups stay as they are.
    /// The root's servers are never forgotten.
    pub fn forget(&mut self, prefix: Prefix) -> bool
        ensures forgotten { self.new ≡ forgotten self.old prefix }
        ensures there { result ≡ map.contains_key self.old.known.live prefix }
    {
        self.cache.forget(prefix)
    }

    /// Moves the time to `now` if `now` is later.
    pub(crate) fn advance(&mut self, now: Moment)
        ensures { self.new ≡ moved now self.old }
    {
        // The number shows the proof that it is a moment.
        let _millis = now.millis();
        self.cache.advance(now);
    }
}
