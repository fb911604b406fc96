//! The handling of a Map-Referral by its action (RFC 8111, sections 6.1 and 7.3).

ghost use Rattle.std.specs.Prelude.{◌≡◌, ◌<◌, IsTrue, IfOk, OnErr};
ghost use Rattle.ddt_path.specs.declared.action.Action.TheVariants as act;
ghost use Rattle.ddt_resolver.specs.State.{moved, last_nonce};
ghost use Rattle.ddt_path.specs.Actions.{IsReferral};
ghost use Rattle.ddt_resolver.specs.Records.{outcome_of};
ghost use Rattle.ddt_resolver.specs.Act.{Act, HearStep, HearWants, Saves};
ghost use Rattle.ddt_resolver.specs.Acting.{IsHeard, IsAnswered, IsSmall, SendsOn};
ghost use Rattle.ddt_resolver.specs.Order.{IsLookup};
ghost use Rattle.ddt_resolver.specs.Table.{HasNonce};
ghost use Rattle.ddt_cache.specs.Saved.{is_added};
ghost use Rattle.ddt_resolver.specs.Bound.{ComesNearer, GoesDown};

use crate::loop_detection::is_below;
use crate::pending::Pending;
use crate::replies::MatchedReply;
use crate::requests::Change;
use crate::resolver::Resolver;
use crate::results::{Heard, Ticket, Why};
use ddt_cache::{Entry, Moment};
use ddt_path::{Action, Locator, Outcome, ReferralRecord};
use ddt_trie::PrefixMap;
use std::alloc::AllocError;

impl<M: PrefixMap<Entry>> Resolver<M> {
    /// Handles a datagram from a source at `now`. A datagram that isn't the reply to a pending lookup's last request is
    /// ignored, for the first reason that applies: 1 Undecodable, 2 UnknownNonce, 3 WrongSource, 4 Late, 5 NotCovering,
    /// 6 NoServers. Otherwise the lookup goes on with a request, to be sent, or ends: with an outcome, or as 2 Loop,
    /// 3 NotAuthoritative or 4 Exhausted. Of a referral the first eight servers are kept.
    ///
    /// Fails only if out of memory, when a request is to be sent, or a record to be saved that replaces no live one.
    /// Then nothing changes but the time, and the lookup still waits.
    pub fn datagram(
        &mut self,
        now: Moment,
        from: Locator,
        bytes: &[u8],
    ) -> Result<Heard, AllocError>
        ensures step { IfOk result (λ heard. HearStep (moved now self.old) from bytes.now self.new heard) }
        ensures unchanged { OnErr result (self.new ≡ moved now self.old) }
        ensures wanted { OnErr result (HearWants (moved now self.old) from bytes.now) }
        // Each reply that is followed brings the lookup nearer to its end, whatever the servers say.
        ensures nearer { IfOk result (λ heard. ComesNearer self.old self.new heard) }
        // Each referral that is followed has a longer prefix than the one before.
        ensures down { IfOk result (λ heard. GoesDown self.old bytes.now heard) }
    {
        self.advance(now);
        self.hear(from, bytes)
    }

    /// Handles a datagram at the current time.
    fn hear(&mut self, from: Locator, bytes: &[u8]) -> Result<Heard, AllocError>
        ensures step { IfOk result (λ heard. HearStep self.old from bytes.now self.new heard) }
        ensures unchanged { OnErr result (self.new ≡ self.old) }
        ensures wanted { OnErr result (HearWants self.old from bytes.now) }
        ensures nearer { IfOk result (λ heard. ComesNearer self.old self.new heard) }
        ensures down { IfOk result (λ heard. GoesDown self.old bytes.now heard) }
    {
        self.in_order();
        match self.match_reply(from, bytes) {
            Ok(taken) => self.act(&taken),
            Err(why) => Ok(Heard::Ignored(why)),
        }
    }

    /// Handles a reply by its action.
    fn act(&mut self, taken: &MatchedReply) -> Result<Heard, AllocError>
        requires { IsHeard self.old taken.now }
        ensures act { IfOk result (λ heard. Act self.old taken.now.ticket taken.now.lookup taken.now.told self.new
            heard) }
        ensures unchanged { OnErr result (self.new ≡ self.old) }
        ensures wanted { OnErr result (Saves self.old taken.now.lookup taken.now.told) }
    {
        match taken.told.action {
            Action::NodeReferral | Action::MsReferral => self.follow(taken),
            Action::MsAck | Action::DelegationHole => self.answer(taken),
            Action::MsNotRegistered => self.keep_and_go_on(taken),
            Action::NotAuthoritative => self.start_over(taken),
        }
    }

    /// Follows a referral if its prefix is longer than the last one's; otherwise the lookup ends as 2 Loop.
    fn follow(&mut self, taken: &MatchedReply) -> Result<Heard, AllocError>
        requires heard { IsHeard self.old taken.now }
        requires action { IsReferral taken.now.told.action }
        ensures act { IfOk result (λ heard. Act self.old taken.now.ticket taken.now.lookup taken.now.told self.new
            heard) }
        ensures unchanged { OnErr result (self.new ≡ self.old) }
        ensures wanted { OnErr result (Saves self.old taken.now.lookup taken.now.told) }
    {
        if !is_below(taken.lookup.last_referral, taken.told.prefix) {
            self.close(taken.lookup.nonce);
            return Ok(Heard::GaveUp(Ticket::of(taken.ticket), Why::Loop));
        }
        let lookup = taken.lookup.referred(&taken.told);
        self.send_on(taken.ticket, &lookup, &Change::Save(taken.told))
    }

    /// Saves a final record, and ends the lookup with its outcome.
    fn answer(&mut self, taken: &MatchedReply) -> Result<Heard, AllocError>
        requires { IsHeard self.old taken.now }
        ensures answered { IfOk result (λ heard. IsAnswered self.old taken.now self.new heard) }
        ensures unchanged { OnErr result (self.new ≡ self.old) }
        ensures wanted { OnErr result (IsTrue (is_added self.old.known.live taken.now.told)) }
    {
        self.save_and_close(taken.lookup.nonce, &taken.told)?;
        Ok(Heard::Answer(Ticket::of(taken.ticket), outcome(&taken.told)))
    }

    /// Keeps an MS-NOT-REGISTERED and asks the next server of the set; that of the last server is the answer.
    fn keep_and_go_on(&mut self, taken: &MatchedReply) -> Result<Heard, AllocError>
        requires heard { IsHeard self.old taken.now }
        requires action { taken.now.told.action ≡ act.MsNotRegistered }
        ensures act { IfOk result (λ heard. Act self.old taken.now.ticket taken.now.lookup taken.now.told self.new
            heard) }
        ensures unchanged { OnErr result (self.new ≡ self.old) }
        ensures wanted { OnErr result (Saves self.old taken.now.lookup taken.now.told) }
    {
        if taken.lookup.server_index + 1 >= taken.lookup.servers.as_slice().len() {
            return self.answer(taken);
        }
        let lookup = taken.lookup.passed_on(&taken.told);
        self.send_on(taken.ticket, &lookup, &Change::Keep)
    }

    /// Handles NOT-AUTHORITATIVE: a lookup that started at a cache entry forgets it and starts again at the root. Any
    /// other lookup ends as 3 NotAuthoritative.
    fn start_over(&mut self, taken: &MatchedReply) -> Result<Heard, AllocError>
        requires heard { IsHeard self.old taken.now }
        requires action { taken.now.told.action ≡ act.NotAuthoritative }
        ensures act { IfOk result (λ heard. Act self.old taken.now.ticket taken.now.lookup taken.now.told self.new
            heard) }
        ensures unchanged { OnErr result (self.new ≡ self.old) }
        ensures wanted { OnErr result (Saves self.old taken.now.lookup taken.now.told) }
    {
        match taken.lookup.start_entry {
            Some(prefix) => {
                let lookup = taken.lookup.started_over(self.cache.roots());
                self.send_on(taken.ticket, &lookup, &Change::Forget(prefix))
            }
            None => {
                self.close(taken.lookup.nonce);
                Ok(Heard::GaveUp(Ticket::of(taken.ticket), Why::NotAuthoritative))
            }
        }
    }

    /// Sends the next request of a ticket's lookup, which is `lookup` from now on; ends it if no nonce is left.
    fn send_on(
        &mut self,
        ticket: u64,
        lookup: &Pending,
        change: &Change,
    ) -> Result<Heard, AllocError>
        requires there { HasNonce self.old.pending ticket lookup.now.nonce }
        requires lookup { IsLookup lookup.now }
        requires change { IsSmall change.now }
        ensures sent { IfOk result (λ heard. SendsOn self.old ticket lookup.now change.now self.new heard) }
        ensures unchanged { OnErr result (self.new ≡ self.old) }
        ensures nonce { OnErr result (self.old.next < last_nonce) }
    {
        if !self.has_nonce_left() {
            self.close(lookup.nonce);
            return Ok(Heard::GaveUp(Ticket::of(ticket), Why::Exhausted));
        }
        let outgoing = self.send_next(ticket, lookup, change)?;
        Ok(Heard::Followed(Ticket::of(ticket), outgoing))
    }
}

/// The outcome that a final record gives for an identifier that it covers.
fn outcome(told: &ReferralRecord) -> Outcome
    ensures { result ≡ outcome_of told.now }
{
    let prefix = told.prefix;
    let servers = told.servers;
    match told.action {
        Action::MsAck => Outcome::Registered { prefix, servers },
        Action::MsNotRegistered => Outcome::NotRegistered { prefix, servers },
        _ => Outcome::Hole { prefix },
    }
}
