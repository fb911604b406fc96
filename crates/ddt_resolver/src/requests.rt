//! Sending a lookup's requests, and ending a lookup. The steps that may run out of memory come first: the request's
//! bytes, the room in the table, the cache. The change of the table comes last, and allocates nothing.

ghost use Rattle.std.specs.Prelude.{◌≡◌, ◌<◌, ℕ, ◌≤◌, length, IfOk, OnOk, OnErr, IsTrue};
ghost use Rattle.std.specs.FinMap as map;
ghost use Rattle.ddt_path.specs.Locators.{most_locators};
ghost use Rattle.ddt_resolver.specs.State.{last_nonce, most_pending, request as request_of, numbered as numbered_of, changed, with_change, request_sent, dropped, stored};
ghost use Rattle.ddt_resolver.specs.Order.{IsLookup};
ghost use Rattle.ddt_resolver.specs.Table.{HasNonce};
ghost use Rattle.ddt_resolver.specs.Acting.{IsSmall};
ghost use Rattle.ddt_cache.specs.Saved.{is_added};
ghost use Rattle.ddt_path.specs.declared.record.ReferralRecord.{ReferralRecord as RecordValue};
ghost use Rattle.ddt_resolver.specs.declared.requests.Change.TheVariants.{Save};

use crate::limits::REPLY_TIMEOUT_MS;
use crate::pending::Pending;
use crate::resolver::Resolver;
use crate::results::Outgoing;
use ddt_cache::{Cache, Entry};
use ddt_ecm::{CONTROL_PORT, write_request};
use ddt_path::{Listed, Prefix, ReferralRecord};
use ddt_trie::PrefixMap;
use std::alloc::AllocError;

/// The change of the cache when a lookup goes on.
#[derive(Clone, Copy, Debug)]
pub enum Change {
    /// The cache stays as it is.
    Keep,
    /// A record is saved.
    Save(ReferralRecord),
    /// The entry of a prefix is forgotten.
    Forget(Prefix),
}

impl<M: PrefixMap<Entry>> Resolver<M> {
    /// The next request of a lookup. Fails only if out of memory.
    #[tactic(auto, unfolding(crate::specs::State::request_bytes))]
    fn request(&self, lookup: &Pending) -> Result<Outgoing, AllocError>
        requires { lookup.now.server_index < length lookup.now.servers }
        ensures { IfOk result (λ d. d ≡ request_of self.now lookup.now) }
    {
        let bytes = write_request(self.alloc, self.next_nonce(), lookup.x, &[self.me], true)?;
        Ok(Outgoing {
            to: lookup.server(),
            port: CONTROL_PORT,
            bytes: Listed::of(bytes),
        })
    }

    /// The lookup after sending its request, with the next nonce and a deadline.
    fn numbered(&self, lookup: &Pending) -> Pending
        ensures { result ≡ numbered_of self.now lookup.now }
    {
        let deadline = self.cache.time().millis() + REPLY_TIMEOUT_MS;
        lookup.numbered(self.next_nonce(), deadline)
    }

    /// Adds a new pending lookup and returns its first request, to be sent; its ticket is the nonce. Fails only if out
    /// of memory, and then nothing changes.
    pub(crate) fn open(&mut self, lookup: &Pending) -> Result<Outgoing, AllocError>
        requires lookup { IsLookup lookup.now }
        requires few { map.len self.old.pending < most_pending }
        requires nonce { self.old.next < last_nonce }
        ensures sent { IfOk result (λ d. d ≡ request_of self.old lookup.now) }
        ensures opened { OnOk result (self.new ≡ request_sent self.old self.old.next lookup.now) }
        ensures unchanged { OnErr result (self.new ≡ self.old) }
    {
        let outgoing = self.request(lookup)?;
        let numbered = self.numbered(lookup);
        self.table.reserve()?;
        self.table.add(numbered.nonce, numbered);
        Ok(outgoing)
    }

    /// Changes the cache, replaces the pending lookup of a ticket by `lookup`, which still has its nonce, and returns
    /// the next request, to be sent. Fails only if out of memory, and then nothing changes.
    pub(crate) fn send_next(
        &mut self,
        ticket: u64,
        lookup: &Pending,
        change: &Change,
    ) -> Result<Outgoing, AllocError>
        requires there { HasNonce self.old.pending ticket lookup.now.nonce }
        requires lookup { IsLookup lookup.now }
        requires nonce { self.old.next < last_nonce }
        requires change { IsSmall change.now }
        ensures sent { IfOk result (λ d. d ≡ request_of self.old lookup.now) }
        ensures request_sent { OnOk result
            (self.new ≡ request_sent (with_change self.old change.now) ticket lookup.now) }
        ensures unchanged { OnErr result (self.new ≡ self.old) }
    {
        let outgoing = self.request(lookup)?;
        let numbered = self.numbered(lookup);
        self.table.prepare()?;
        apply(&mut self.cache, change)?;
        self.table.replace(lookup.nonce, numbered);
        Ok(outgoing)
    }

    /// Saves a record, and ends the lookup whose last request has this nonce. Fails only if out of memory, and then
    /// nothing changes.
    pub(crate) fn save_and_close(
        &mut self,
        nonce: u64,
        told: &ReferralRecord,
    ) -> Result<(), AllocError>
        requires { length told.now.servers ≤ most_locators }
        ensures closed { (t : ℕ) → HasNonce self.old.pending t nonce
            → OnOk result (self.new ≡ dropped (stored self.old told.now) t) }
        ensures unchanged { OnErr result (self.new ≡ self.old) }
        ensures wanted { OnErr result (IsTrue (is_added self.old.known.live told.now)) }
    {
        apply(&mut self.cache, &Change::Save(*told))?;
        self.table.take(nonce);
        Ok(())
    }

    /// Ends the lookup whose last request has this nonce.
    pub(crate) fn close(&mut self, nonce: u64)
        ensures { (t : ℕ) → HasNonce self.old.pending t nonce → self.new ≡ dropped self.old t }
    {
        self.table.take(nonce);
    }
}

/// Changes the cache at its own time. Fails only if out of memory, and then nothing changes.
fn apply<M: PrefixMap<Entry>>(cache: &mut Cache<M>, change: &Change) -> Result<(), AllocError>
    ensures applied { OnOk result (cache.new ≡ changed cache.old change.now) }
    ensures unchanged { OnErr result (cache.new ≡ cache.old) }
    ensures wanted { (rec : RecordValue) → change.now ≡ Save rec → OnErr result (IsTrue (is_added cache.old.live rec)) }
{
    cache.in_order();
    let now = cache.time();
    match change {
        Change::Keep => Ok(()),
        Change::Save(record) => match cache.save(now, record) {
            Ok(_saved) => Ok(()),
            Err(refused) => Err(refused),
        },
        Change::Forget(prefix) => {
            cache.forget(*prefix);
            Ok(())
        }
    }
}
