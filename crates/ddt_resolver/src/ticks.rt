//! Ticks and hastening. At a tick the lookup that has waited longest, of those whose deadline has come, goes on or
//! ends; a lookup that is hastened goes on or ends at once.

ghost use Rattle.std.specs.Prelude.{◌≡◌, ◌<◌, ℕ, Some, IfSome, IfNone, IfOk, OnErr};
ghost use Rattle.std.specs.FinMap as map;
ghost use Rattle.ddt_resolver.specs.declared.pending.Pending.{Pending as APending};
ghost use Rattle.ddt_resolver.specs.State.{moved, last_nonce};
ghost use Rattle.ddt_resolver.specs.TickStep.{IsDue, HasTry, GoOn, TickStep, TickWants, HastenStep, HastenWants};
ghost use Rattle.ddt_resolver.specs.Acting.{TriesOn};
ghost use Rattle.ddt_resolver.specs.Order.{IsLookup};
ghost use Rattle.ddt_resolver.specs.Table.{HasNonce, IsUnknown};

use crate::pending::Pending;
use crate::requests::Change;
use crate::resolver::Resolver;
use crate::results::{Ticked, Ticket, Why};
use ddt_cache::{Entry, Moment};
use ddt_path::Outcome;
use ddt_trie::PrefixMap;
use std::alloc::AllocError;

impl<M: PrefixMap<Entry>> Resolver<M> {
    /// Moves the time to `now` if `now` is later. Of the lookups whose deadline has come, the one whose last request
    /// has the least nonce goes on or ends. The same server gets a second request, then the next server its first.
    /// After the last server the lookup ends: as NotRegistered if a server of the set has said so, otherwise as 1
    /// NoReply. It ends as 4 Exhausted if no nonce is left. Nothing is saved. The caller repeats the call until it
    /// returns Nothing.
    ///
    /// Fails only if out of memory, when a request is to be sent; then nothing changes but the time.
    pub fn tick(&mut self, now: Moment) -> Result<Ticked, AllocError>
        ensures step { IfOk result (λ ticked. TickStep (moved now self.old) self.new ticked) }
        ensures unchanged { OnErr result (self.new ≡ moved now self.old) }
        ensures wanted { OnErr result (TickWants (moved now self.old)) }
    {
        self.advance(now);
        self.take_due()
    }

    /// Moves the time to `now` if `now` is later. The pending lookup whose last request has this nonce goes on or ends
    /// at once, as at a tick, whether its deadline has come or not. The same server gets a second request, then the
    /// next server its first; after the last server the lookup ends. Replies to its earlier requests are then ignored
    /// as 2 UnknownNonce. Returns Nothing if no pending lookup has the nonce.
    ///
    /// Fails only if out of memory, when a request is to be sent; then nothing changes but the time.
    pub fn hasten(&mut self, now: Moment, nonce: u64) -> Result<Ticked, AllocError>
        ensures step { IfOk result (λ ticked. HastenStep (moved now self.old) nonce self.new ticked) }
        ensures unchanged { OnErr result (self.new ≡ moved now self.old) }
        ensures wanted { OnErr result (HastenWants (moved now self.old) nonce) }
    {
        self.advance(now);
        self.hasten_now(nonce)
    }

    /// Hastens a lookup at the current time.
    fn hasten_now(&mut self, nonce: u64) -> Result<Ticked, AllocError>
        ensures step { IfOk result (λ ticked. HastenStep self.old nonce self.new ticked) }
        ensures unchanged { OnErr result (self.new ≡ self.old) }
        ensures wanted { OnErr result (HastenWants self.old nonce) }
    {
        match self.lookup_with(nonce) {
            Some((ticket, lookup)) => self.go_on(ticket, &lookup),
            None => Ok(Ticked::Nothing),
        }
    }

    /// The pending lookup whose last request has this nonce, with the number of its ticket; None if there is none.
    pub fn lookup_with(&self, nonce: u64) -> Option<(u64, Pending)>
        ensures found { IfSome result (λ found. map.get self.now.pending found.0 ≡ Some found.1) }
        ensures nonce { IfSome result (λ found. found.1.nonce ≡ nonce) }
        ensures none { IfNone result (IsUnknown self.now.pending nonce) }
    {
        self.table.with_nonce(nonce)
    }

    /// The tick at the current time.
    fn take_due(&mut self) -> Result<Ticked, AllocError>
        ensures step { IfOk result (λ ticked. TickStep self.old self.new ticked) }
        ensures unchanged { OnErr result (self.new ≡ self.old) }
        ensures wanted { OnErr result (TickWants self.old) }
    {
        match self.due() {
            Some((ticket, lookup)) => self.go_on(ticket, &lookup),
            None => Ok(Ticked::Nothing),
        }
    }

    /// The lookup that goes on at a tick, with the number of its ticket; None if no deadline has come.
    fn due(&self) -> Option<(u64, Pending)>
        ensures found { IfSome result (λ d. IsDue self.now d.0 d.1) }
        ensures none { IfNone result ((t : ℕ) (l : APending) → map.get self.now.pending t ≡ Some l
            → self.now.known.time < l.deadline) }
    {
        let time = self.time().millis();
        self.table.due(time)
    }

    /// Lets a pending lookup go on or end without a reply.
    fn go_on(&mut self, ticket: u64, lookup: &Pending) -> Result<Ticked, AllocError>
        requires { map.get self.old.pending ticket ≡ Some lookup.now }
        ensures on { IfOk result (λ ticked. GoOn self.old ticket lookup.now self.new ticked) }
        ensures unchanged { OnErr result (self.new ≡ self.old) }
        ensures has_try { OnErr result (HasTry lookup.now) }
        ensures nonce { OnErr result (self.old.next < last_nonce) }
    {
        self.in_order();
        if !lookup.is_retry {
            return self.try_on(ticket, &lookup.tried_again());
        }
        if lookup.server_index + 1 < lookup.servers.as_slice().len() {
            return self.try_on(ticket, &lookup.at_next());
        }
        self.close(lookup.nonce);
        match lookup.last_not_registered {
            Some(told) => Ok(Ticked::Answer(
                Ticket::of(ticket),
                Outcome::NotRegistered {
                    prefix: told.prefix,
                    servers: told.servers,
                },
            )),
            None => Ok(Ticked::GaveUp(Ticket::of(ticket), Why::NoReply)),
        }
    }

    /// Sends the next request of a ticket's lookup, which is `lookup` from now on; ends it if no nonce is left.
    fn try_on(&mut self, ticket: u64, lookup: &Pending) -> Result<Ticked, AllocError>
        requires there { HasNonce self.old.pending ticket lookup.now.nonce }
        requires lookup { IsLookup lookup.now }
        ensures tried { IfOk result (λ ticked. TriesOn self.old ticket lookup.now self.new ticked) }
        ensures unchanged { OnErr result (self.new ≡ self.old) }
        ensures nonce { OnErr result (self.old.next < last_nonce) }
    {
        if !self.has_nonce_left() {
            self.close(lookup.nonce);
            return Ok(Ticked::GaveUp(Ticket::of(ticket), Why::Exhausted));
        }
        let outgoing = self.send_next(ticket, lookup, &Change::Keep)?;
        Ok(Ticked::Sent(Ticket::of(ticket), outgoing))
    }
}
