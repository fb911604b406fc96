//! Asking for an identifier: an answer from the cache, or a new lookup.

ghost use Rattle.std.specs.Prelude.{◌≡◌, ◌<◌, IsTrue, false, IfOk};
ghost use Rattle.ddt_path.specs.Path.{xeid_path, is_path};
ghost use Rattle.ddt_cache.specs.Found.{IsFound};
ghost use Rattle.ddt_resolver.specs.State.{moved, last_nonce};
ghost use Rattle.ddt_resolver.specs.Records.{start_at as start_at_of};
ghost use Rattle.ddt_resolver.specs.AskStep.{answer_of as answer_of_entry, beginning_at, AskStep, AskWants, UnlessAskLacksMemory, OnMemory};
ghost use Rattle.ddt_resolver.specs.Bound.{StartsWithin};

use crate::limits::{LAST_NONCE, MOST_PENDING};
use crate::pending::Pending;
use crate::resolver::Resolver;
use crate::results::{AskError, Asked, Beginning, Ticket};
use ddt_cache::{Entry, Moment};
use ddt_path::{Action, Outcome, Prefix, Xeid};
use ddt_trie::PrefixMap;

impl<M: PrefixMap<Entry>> Resolver<M> {
    /// Asks for an identifier at `now`. If the longest match in the cache is a negative record, it is the answer.
    /// Otherwise a lookup starts at the longest match, or at the root, and its first request is returned, to be sent.
    ///
    /// Refused as 1 TooMany if 1,024 lookups are pending, then as 2 Exhausted if no nonce is left, then as 3 Memory if
    /// out of memory for the request or the lookup. A refused ask changes nothing but the time.
    pub fn ask(&mut self, now: Moment, x: Xeid) -> Result<Asked, AskError>
        ensures step { UnlessAskLacksMemory result (AskStep (moved now self.old) x self.new result) }
        ensures memory { OnMemory result ((self.new ≡ moved now self.old) × AskWants (moved now self.old) x) }
        // However its servers answer, a lookup follows no more replies than 16 times the digits of the identifier and
        // 2.
        ensures bound { IfOk result (λ asked. StartsWithin self.new x asked) }
        // What it asks for is an identifier.
        ensures identifier { IsTrue (is_path (xeid_path x)) }
    {
        self.advance(now);
        self.in_order();
        self.start(x)
    }

    /// The beginning that an ask for an identifier would have at `now`: the answer of a negative record in the cache,
    /// or the servers of the longest match. Nothing changes but the time.
    pub fn beginning(&mut self, now: Moment, x: Xeid) -> Beginning
        ensures begins { (p : _) × (e : _) × IsFound (moved now self.old).known (xeid_path x) p e
            × (result ≡ beginning_at p e) }
        ensures time { self.new ≡ moved now self.old }
    {
        self.advance(now);
        let (prefix, entry) = self.find(x);
        match answer_of(prefix, &entry) {
            Some(outcome) => Beginning::Answer(outcome),
            None => Beginning::Servers(entry.servers),
        }
    }

    /// The longest match in the cache for an identifier at `now`: its prefix and its entry. If there is none, the
    /// root's entry, with the prefix that is everything. Nothing changes but the time.
    pub fn longest(&mut self, now: Moment, x: Xeid) -> (Prefix, Entry)
        ensures found { IsFound (moved now self.old).known (xeid_path x) result.0 result.1 }
        ensures time { self.new ≡ moved now self.old }
    {
        self.advance(now);
        self.find(x)
    }

    /// The longest match of an identifier at the current time.
    fn find(&mut self, x: Xeid) -> (Prefix, Entry)
        ensures unchanged { self.new ≡ self.old }
        ensures found { IsFound self.old.known (xeid_path x) result.0 result.1 }
    {
        self.cache.in_order();
        let now = self.cache.time();
        self.cache.find_copied(now, x)
    }

    /// Asks at the current time.
    fn start(&mut self, x: Xeid) -> Result<Asked, AskError>
        ensures step { UnlessAskLacksMemory result (AskStep self.old x self.new result) }
        ensures memory { OnMemory result ((self.new ≡ self.old) × AskWants self.old x) }
        ensures identifier { IsTrue (is_path (xeid_path x)) }
    {
        self.in_order();
        let _identifier = Prefix::host(x);
        let (prefix, entry) = self.find(x);
        if let Some(outcome) = answer_of(prefix, &entry) {
            return Ok(Asked::Answer(outcome));
        }
        if self.pending() >= MOST_PENDING {
            return Err(AskError::TooMany);
        }
        if !self.has_nonce_left() {
            return Err(AskError::Exhausted);
        }
        let ticket = Ticket::of(self.next_nonce());
        match self.open(&Pending::opening(x, entry.servers, start_at(prefix))) {
            Ok(outgoing) => Ok(Asked::Sent(ticket, outgoing)),
            Err(_refused) => Err(AskError::Memory),
        }
    }

    /// The nonce of the next request; `u64::MAX` is never sent. A resolver that takes the place of this one repeats no
    /// nonce if its seed is this one.
    pub fn next_nonce(&self) -> u64
        ensures { result ≡ self.now.next }
    {
        self.table.next_nonce()
    }

    /// Whether a nonce is left for one more request.
    pub(crate) fn has_nonce_left(&self) -> bool
        ensures yes { IsTrue result → self.now.next < last_nonce }
        ensures no { result ≡ false → self.now.next ≡ last_nonce }
    {
        self.next_nonce() != LAST_NONCE
    }
}

/// What an entry answers by itself: a negative one, that nothing is there.
fn answer_of(prefix: Prefix, entry: &Entry) -> Option<Outcome>
    ensures { result ≡ answer_of_entry prefix entry.now }
{
    let servers = entry.servers;
    match entry.action {
        Action::MsNotRegistered => Some(Outcome::NotRegistered { prefix, servers }),
        Action::DelegationHole => Some(Outcome::Hole { prefix }),
        _ => None,
    }
}

/// The prefix of the cache entry at which a lookup starts; None for the root.
fn start_at(prefix: Prefix) -> Option<Prefix>
    ensures { result ≡ start_at_of prefix }
{
    if prefix.len() == 0 {
        None
    } else {
        Some(prefix)
    }
}
