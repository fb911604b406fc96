//! A cache of referrals (RFC 8111, section 7.3). It has its own time, the greatest moment given to a call, so that no
//! entry comes back when the clock goes back.

ghost use Rattle.std.specs.Prelude.{◌≡◌, ◌≤◌, IsTrue, length, take, IsOk, IfOk, OnOk, OnErr};
ghost use Rattle.std.specs.FinMap as map;
ghost use Rattle.ddt_path.specs.Path.{xeid_path};
ghost use Rattle.ddt_cache.specs.Live.{nothing_known, moved, forgotten};
ghost use Rattle.ddt_cache.specs.Saved.{is_added, most_live_entries, saving, stored_in};
ghost use Rattle.ddt_cache.specs.Found.{IsFound};
ghost use Rattle.ddt_cache.specs.InOrder.{IsCacheInOrder};
ghost use Rattle.ddt_cache.specs.Inside.{AreInside};

use crate::cache_entry::{Entry, Saved};
use crate::ends_by_time::Ends;
use crate::entries_inside::rows_inside;
use crate::entry_removal::{drop_ended, drop_entry};
use crate::longest_live_match::{Held, drop_ended_over, longest_live_over};
use crate::moment::Moment;
use crate::saved_records::save_among;
use ddt_path::{Action, LocatorSet, Prefix, ReferralRecord, Xeid};
use ddt_trie::PrefixMap;
use std::alloc::{AllocError, Global};
use std::marker::Model;

/// A cache: its live entries, its time, and the root's locators. Contracts see only these.
#[derive(Drop)]
pub struct Cache<M: PrefixMap<Entry>> {
    held: Held<M>,
    time: u64,
    ends: Ends,
}

impl<M: PrefixMap<Entry>> Model for Cache<M> {
    ghost use Rattle.std.specs.Prelude.{◌≡◌, ◌≤◌};
    ghost use Rattle.std.specs.FinMap as map;
    ghost use Rattle.ddt_path.specs.contracts.locator.Locator as locator;
    ghost use Rattle.ddt_cache.specs.contracts.cache_entry.Entry as entry;
    ghost use Rattle.ddt_cache.specs.Entry.{root_entry};
    ghost use Rattle.ddt_cache.specs.Live.{Known, known_code, known_of};
    ghost use Rattle.ddt_cache.specs.Ends.{AreNoted};
    ghost use Rattle.ddt_cache.specs.Saved.{most_live_entries};
    ghost use Rattle.ddt_cache.specs.InOrder.{IsCacheInOrder};

    ghost Value = { Known };

    ghost coded = { known_code entry.the_row.coded locator.the_row.coded };

    ghost view = { λ c. known_of c.time (M.content c.held.entries) c.held.root.servers };

    ghost invariant = { λ c. (c.held.root ≡ root_entry c.held.root.servers)
        × (map.len (M.content c.held.entries) ≤ most_live_entries)
        × IsCacheInOrder (known_of c.time (M.content c.held.entries) c.held.root.servers)
        × AreNoted c.ends (M.content c.held.entries) };
}

/// The found entry with its prefix, in place of the prefix's length.
fn with_prefix<'a>(x: Xeid, found: (u8, &'a Entry)) -> (Prefix, &'a Entry)
    requires { found.0 ≤ length (xeid_path x) }
    ensures prefix { result.0 ≡ take found.entry.0 (xeid_path x) }
    ensures entry { result.1.now ≡ found.entry.1.now }
{
    let (length, entry) = found;
    (Prefix::cut(x, length), entry)
}

impl<M: PrefixMap<Entry>> Cache<M> {
    ghost use Rattle.std.specs.Borrow.{sem};
    ghost use Rattle.ddt_cache.specs.Lending.{EndsAs};
    ghost use Rattle.ddt_cache.specs.contracts.cache.Cache.{the_row};

    /// Creates a cache at moment 0 with no entry but the root's, whose locators are `roots`. It takes its memory from
    /// `alloc` as it grows.
    pub fn new(alloc: Global, roots: LocatorSet) -> Cache<M>
        ensures { result ≡ nothing_known roots }
    {
        // The slice shows the proof that the set holds at most 8 locators.
        let _few = roots.as_slice();
        Cache {
            held: Held {
                entries: M::empty(alloc),
                root: Entry {
                    action: Action::NodeReferral,
                    servers: roots,
                    end: u64::MAX,
                },
            },
            time: 0,
            ends: Ends::new(alloc),
        }
    }

    /// The time: the greatest moment given to a call, 0 at first.
    pub fn time(&self) -> Moment
        ensures { result ≡ self.now.time }
    {
        Moment::of(self.time)
    }

    /// The locators of the root's servers.
    pub fn roots(&self) -> LocatorSet
        ensures { result ≡ self.now.roots }
    {
        self.held.root.servers
    }

    /// Does nothing; its contract is what holds of every cache. The time is a moment, and at most 65,536 entries are
    /// live. Each entry ends after the time, at most 86,400,000 milliseconds after it, and at most 900,000 if it is
    /// negative. None is NOT-AUTHORITATIVE, and each positive one has a locator and a prefix that isn't everything.
    pub fn in_order(&self)
        ensures { IsCacheInOrder self.now }
    {
        let _held = &self.held;
    }

    /// Moves the time to `now` if `now` is later.
    pub fn advance(&mut self, now: Moment)
        ensures { self.new ≡ moved now self.old }
    {
        self.time = self.time.max(now.millis());
    }

    /// Moves the time to `now` if `now` is later, and removes the entries that have ended. Returns the number of entries
    /// in memory after it, without the root's: those that are live.
    pub fn purge(&mut self, now: Moment) -> usize
        ensures moved { self.new ≡ moved now self.old }
        ensures kept { result ≡ map.len self.new.live }
    {
        self.advance(now);
        let entries = &mut self.held.entries;
        drop_ended(entries, &mut self.ends, self.time, 0);
        entries.len()
    }

    /// The number of live entries at `now`, without the root's.
    pub fn len(&mut self, now: Moment) -> usize
        ensures moved { self.new ≡ moved now self.old }
        ensures count { result ≡ map.len self.new.live }
    {
        self.purge(now)
    }

    /// The number of entries in memory, without the root's: the live ones, and those that have ended but aren't removed
    /// yet. Contracts see only the live ones, so the clauses are bounds.
    pub fn held(&self) -> usize
        ensures most { result ≤ most_live_entries }
        ensures least { map.len self.now.live ≤ result }
    {
        self.held.entries.len()
    }

    /// The live entries whose prefixes are `within` or inside it, in the order of their ends, each once and without the
    /// root's. Fails only if out of memory, or if memory ran out earlier for the list of ends and an entry that is
    /// missing there may still be live.
    pub fn inside(&self, alloc: Global, within: Prefix) -> Result<Vec<(Prefix, Entry)>, AllocError>
        ensures { IfOk result (λ rows. AreInside self.now within rows.items) }
    {
        rows_inside(alloc, &self.held.entries, &self.ends, self.time, within)
    }

    /// Borrows the live entry with the longest prefix that covers the identifier; if none does, the root's entry, with
    /// the prefix that is everything. The clause `after` is the cache at the end of the borrow: its time has moved.
    pub fn find(&mut self, now: Moment, x: Xeid) -> (Prefix, &Entry)
        ensures* after { sem 𝓛 (EndsAs (the_row M.row M.PrefixMap) self.entry (moved now self.old)) }
        ensures found { IsFound (moved now self.old) (xeid_path x) result.0 result.1.now }
    {
        with_prefix(x, self.longest_live(now, x))
    }

    /// The same as `find`, but returns a copy of the entry. The automatic proof of a caller learns the cache after the
    /// call from this contract, and nothing from the clause `after` of `find`.
    pub fn find_copied(&mut self, now: Moment, x: Xeid) -> (Prefix, Entry)
        ensures moved { self.new ≡ moved now self.old }
        ensures found { IsFound self.new (xeid_path x) result.0 result.1 }
    {
        self.advance(now);
        let entries = &mut self.held.entries;
        if let Some(found) = longest_live_over(entries, &mut self.ends, self.time, x) {
            return found;
        }
        (Prefix::cut(x, 0), self.held.root)
    }

    /// The same as `find`, but with the prefix's length in place of the prefix.
    fn longest_live(&mut self, now: Moment, x: Xeid) -> (u8, &Entry)
        ensures* after { sem 𝓛 (EndsAs (the_row M.row M.PrefixMap) self.entry (moved now self.old)) }
        ensures short { result.0 ≤ length (xeid_path x) }
        ensures found { IsFound (moved now self.old) (xeid_path x) (take result.0 (xeid_path x)) result.1.now }
    {
        self.advance(now);
        drop_ended_over(&mut self.held.entries, &mut self.ends, self.time, x);
        let (prefix, entry) = self.held.longest_or_root(x);
        (prefix.len(), entry)
    }

    /// Saves a record at `now`; it replaces the live entry of its prefix, if there is one. The entry ends its TTL, in
    /// minutes, after the cache's time: at most 15 minutes for a DELEGATION-HOLE or an MS-NOT-REGISTERED, at most 1440
    /// for any other.
    ///
    /// Returns NotSaved if its TTL is 0, its action is NOT-AUTHORITATIVE, or its action is positive (NODE-REFERRAL,
    /// MS-REFERRAL, MS-ACK) and it has no locator or the prefix that is everything. Otherwise returns Full if 65,536
    /// entries are live and none has its prefix. Neither changes an entry.
    ///
    /// Fails only if out of memory, which a record that replaces a live entry never is; then only the time has moved.
    pub fn save(&mut self, now: Moment, referral: &ReferralRecord) -> Result<Saved, AllocError>
        ensures stored { OnOk result (self.new ≡ stored_in (moved now self.old) referral.now) }
        ensures answer { IfOk result (λ saved. saved ≡ saving (moved now self.old).live referral.now) }
        ensures unchanged { OnErr result (self.new ≡ moved now self.old) }
        ensures wanted { OnErr result (IsTrue (is_added (moved now self.old).live referral.now)) }
        ensures replaced { IsTrue (map.contains_key (moved now self.old).live referral.now.prefix) → IsOk result }
    {
        self.advance(now);
        save_among(&mut self.held.entries, &mut self.ends, self.time, referral)
    }

    /// Forgets the entry of a prefix, and returns whether a live one was there. The root's is never forgotten.
    pub fn forget(&mut self, prefix: Prefix) -> bool
        ensures forgotten { self.new ≡ forgotten self.old prefix }
        ensures went { result ≡ map.contains_key self.old.live prefix }
    {
        match drop_entry(&mut self.held.entries, &mut self.ends, prefix) {
            Some(entry) => self.time < entry.end,
            None => false,
        }
    }
}
